//! What `meet` writes of a family and a sector.

ghost use Rattle.std.specs.Prelude.{◌≡◌, ◌+◌, ◌≤◌, ◌<◌, ◌^◌, ◌++◌, length, IfOk, IfErr, OnOk};
ghost use Rattle.std.specs.List.{All};
ghost use Rattle.mono_order.specs.declared.limits.TheConstants.{VARIABLES, RUN_DEGREE};
ghost use Rattle.sector_lattice.specs.Ranges.{IsSectorOf};
ghost use Rattle.family.specs.FamilyView.{family_view};
ghost use Rattle.family.specs.Shapes.{IsField};
ghost use Rattle.family.specs.declared.limits.TheConstants.{PAIR_LIMIT};
ghost use Rattle.sector_module.specs.SectorBasis.{IsSectorBasis};
ghost use Rattle.system_text.specs.Systems.{block_text};
ghost use Rattle.commands.specs.Answers.{IsAnswer};
ghost use Rattle.commands.specs.Meet.{AreBlocks, AreMeetSectors, IsMeetRefusal, IsMeetText, IsMet, RefusesMeet};

use crate::refusal::Refusal;
use family::Family;
use ibp_base::NoMemory;
use meet_module::{Tangent, meet_basis, tangent_of};
use sector_lattice::{Sector, supersectors};
use sector_module::Generators;
use std::alloc::Global;
use system_text::{SectorBlock, print_block};

/// The blocks of the reduced bases of the proper supersectors of the sector of this number and of itself, in the
/// sector order, all from one tangent module.
pub fn meet_text(alloc: Global, family: &Family, number: u16) -> Result<Vec<u8>, Refusal>
    requires { number < 2 ^ family.now.n }
    ensures { IsAnswer (IsMeetText (family_view family.now) number)
        (RefusesMeet (family_view family.now) number) result }
{
    let tangent = match tangent_of(alloc, family) {
        Ok(tangent) => tangent,
        Err(fault) => return Err(Refusal::of_basis_fault(Sector(0), fault)),
    };
    let sectors = meet_sectors(alloc, Sector(number), family.n)?;
    blocks_text(alloc, family, &tangent, &sectors)
}

// The proper supersectors of a sector and the sector itself, in the sector order.
fn meet_sectors(alloc: Global, sector: Sector, n: u8) -> Result<Vec<Sector>, NoMemory>
    requires { IsSectorOf sector.0 n }
    ensures { IfOk result (λ sectors. AreMeetSectors n sector.0 sectors.items) }
{
    let mut sectors = supersectors(alloc, sector, n)?.into_vec();
    sectors.push(sector)?;
    Ok(sectors)
}

// The blocks of the reduced bases of the sectors, one after the other.
fn blocks_text(
    alloc: Global,
    family: &Family,
    tangent: &Tangent,
    sectors: &[Sector],
) -> Result<Vec<u8>, Refusal>
    requires within { All (λ sector. sector.0 < 2 ^ family.now.n) sectors.now }
    requires basis { IsSectorBasis family.now.baikov family.now.n 0 tangent.now }
    requires shape { All (λ field. IsField family.now.n RUN_DEGREE field.c field.b) tangent.now }
    requires few { length tangent.now ≤ VARIABLES + 1 + PAIR_LIMIT }
    ensures blocks { IfOk result (λ text. AreBlocks (family_view family.now) sectors.now text.items) }
    ensures met { OnOk result (All (IsMet (family_view family.now) tangent.now) sectors.now) }
    ensures refused { IfErr result (IsMeetRefusal (family_view family.now) tangent.now sectors.now) }
{
    let mut text = Vec::new(alloc);
    for sector in sectors {
        match meet_basis(alloc, family, tangent, *sector) {
            Ok(generators) => put_block(alloc, &mut text, &generators)?,
            Err(fault) => return Err(Refusal::of_basis_fault(*sector, fault)),
        }
    }
    Ok(text)
}

// Appends the block of a sector.
fn put_block(alloc: Global, text: &mut Vec<u8>, generators: &Generators) -> Result<(), NoMemory>
    ensures { OnOk result (text.new.items ≡ text.old.items ++ block_text
        (record { sector = generators.now.sector; fields = generators.now.fields })) }
{
    let fields = generators.copy_fields(alloc)?;
    let block = SectorBlock {
        sector: generators.sector(),
        fields,
    };
    let block_text = print_block(alloc, &block)?;
    text.extend_from_slice(block_text.as_slice())?;
    Ok(())
}
