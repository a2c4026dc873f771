// The declared targets, as rows.
ghost use Rattle.std.specs.Prelude.{◌≡◌, IfOk, map};
ghost use Rattle.family.specs.FamilyView.{family_view};
ghost use Rattle.target_rows.specs.Reductions.{declared_row};

use family::Family;
use ibp_base::NoMemory;
use ibp_field::Residue;
use sector_lattice::Integral;
use sparse_rows::Row;
use std::alloc::Global;

/// The row of a target, which is empty where its sector is zero.
pub fn declared_row(alloc: Global, family: &Family, target: &Integral) -> Result<Row, NoMemory>
    ensures { IfOk result (λ row. row ≡ declared_row (family_view family.now) target.now) }
{
    if family.is_zero(target.sector()) {
        let row = Row::from_terms(alloc, &[])?;
        return Ok(row);
    }
    let row = Row::from_terms(alloc, &[(*target, Residue::one())])?;
    Ok(row)
}

/// The rows of the declared targets.
pub fn declared_rows(alloc: Global, family: &Family) -> Result<Vec<Row>, NoMemory>
    ensures { IfOk result (λ rows. rows.items ≡ map (declared_row (family_view family.now)) family.now.targets) }
{
    let mut rows = Vec::new(alloc);
    for target in family.targets.as_slice() {
        rows.push(declared_row(alloc, family, target)?)?;
    }
    Ok(rows)
}
