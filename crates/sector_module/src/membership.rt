//! Membership in the module of a sector.

ghost use Rattle.std.specs.Prelude.{◌^◌, ◌<◌, ◌↔◌, IsTrue, IfOk};
ghost use Rattle.mono_order.specs.declared.limits.TheConstants.{RUN_DEGREE};
ghost use Rattle.family.specs.Shapes.{IsField};
ghost use Rattle.family.specs.Conditions.{IsInSectorModule};

use crate::factors::factor;
use family::{Family, StrippedField};
use ibp_base::NoMemory;
use sector_lattice::Sector;
use sparse_poly::Poly;
use std::alloc::Global;

/// Whether the unstripped form of a field meets the two conditions for the sector: whether the sum of `c_i f_i`
/// equals `b` times the Baikov polynomial, where `f_i` is its derivative by `z_i`, times `z_i` for i in the sector.
pub fn is_member(
    alloc: Global,
    family: &Family,
    sector: Sector,
    field: &StrippedField,
) -> Result<bool, NoMemory>
    requires sector { sector.0 < 2 ^ family.now.n }
    requires shape { IsField family.now.n RUN_DEGREE field.now.c field.now.b }
    ensures { IfOk result (λ r. IsTrue r ↔ IsInSectorModule family.now.baikov sector.0 field.now) }
{
    let c = field.c.as_slice();
    let mut sum = Poly::zero(alloc);
    for i in 0..c.len() {
        let factor = factor(alloc, family, sector, i as u8 + 1)?;
        let product = c[i].product(alloc, &factor)?;
        sum = sum.add(alloc, &product)?;
    }
    Ok(sum == field.b.product(alloc, &family.baikov)?)
}
