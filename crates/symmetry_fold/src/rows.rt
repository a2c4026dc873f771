// The fold of a row.
ghost use Rattle.std.specs.Prelude.{◌≡◌, ◌++◌, OnOk, IfOk};
ghost use Rattle.ibp_algebra.specs.FormalSum.{map_keys};
ghost use Rattle.symmetry_fold.specs.Images.{lowest};
ghost use Rattle.symmetry_fold.specs.Folding.{fold_row};

use crate::images::lowest;
use family::Permutation;
use ibp_base::NoMemory;
use ibp_field::Residue;
use sector_lattice::Integral;
use sparse_rows::Row;
use std::alloc::Global;

// Puts the terms at the end, each integral replaced by the lowest of its images.
fn put_folded(
    alloc: Global,
    into: &mut Vec<(Integral, Residue)>,
    entries: &[Permutation],
    terms: &[(Integral, Residue)],
) -> Result<(), NoMemory>
    ensures { OnOk result (into.new.items ≡ into.old.items ++ map_keys (lowest entries.now) terms.now) }
{
    for (integral, value) in terms {
        into.push((lowest(alloc, entries, integral)?, *value))?;
    }
    Ok(())
}

/// The coefficients of the row, added up on the lowest of the images of each of its integrals.
pub fn fold_row(alloc: Global, entries: &[Permutation], row: &Row) -> Result<Row, NoMemory>
    ensures { IfOk result (λ folded. folded ≡ fold_row entries.now row.now) }
{
    let mut terms = Vec::new(alloc);
    put_folded(alloc, &mut terms, entries, row.terms())?;
    let sum = Row::from_terms(alloc, &terms)?;
    Ok(sum)
}
