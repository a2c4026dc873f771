//! What `basis` writes of a family and a sector.

ghost use Rattle.std.specs.Prelude.{◌<◌, ◌^◌};
ghost use Rattle.family.specs.FamilyView.{family_view};
ghost use Rattle.commands.specs.Answers.{IsAnswer};
ghost use Rattle.commands.specs.Basis.{IsBasisText, RefusesBasis};

use crate::refusal::Refusal;
use family::Family;
use sector_lattice::Sector;
use sector_module::sector_basis;
use std::alloc::Global;
use system_text::{SectorBlock, print_block};

/// The block of the reduced basis of the sector of this number.
pub fn basis_text(alloc: Global, family: &Family, number: u16) -> Result<Vec<u8>, Refusal>
    requires { number < 2 ^ family.now.n }
    ensures { IsAnswer (IsBasisText (family_view family.now) number)
        (RefusesBasis (family_view family.now) number) result }
{
    let sector = Sector(number);
    match sector_basis(alloc, family, sector) {
        Ok(generators) => {
            let fields = generators.copy_fields(alloc)?;
            let block = SectorBlock { sector, fields };
            Ok(print_block(alloc, &block)?.into_vec())
        }
        Err(fault) => Err(Refusal::of_basis_fault(sector, fault)),
    }
}
