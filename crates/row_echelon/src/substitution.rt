// From multiples of the reduced rows to weights of the kept ones.
ghost use Rattle.std.specs.Prelude.{◌≡◌, ◌<◌, [], ◌++◌, length, IfOk};
ghost use Rattle.std.specs.Ordering.{nat_cmp};
ghost use Rattle.ibp_algebra.specs.FormalSum.{AllKeys, IsCanonical, scale};
ghost use Rattle.ibp_algebra.specs.Spans.{SameSum, row_at};
ghost use Rattle.ibp_algebra.specs.Combination.{combination};
ghost use Rattle.sparse_rows.specs.Rows.{SameRow};
ghost use Rattle.row_echelon.specs.Echelons.{IsNumber, row_numbered, number_cmp};
ghost use Rattle.row_echelon.specs.KeptRows.{IsEchelon, originals, reduced_rows, by_place};

use crate::kept::Kept;
use ibp_base::NoMemory;
use ibp_field::Residue;
use indexmap::IndexMap;
use sector_lattice::Integral;
use std::alloc::Global;

/// Adds a multiple of the steps to the sums by place.
fn add_steps(sums: &mut [Residue], factor: Residue, steps: &[(u32, Residue)])
    requires { AllKeys (λ place. place < length sums.old) steps.now }
    ensures { SameSum nat_cmp (by_place 0 sums.new) (by_place 0 sums.old ++ scale factor steps.now) }
{
    for (place, value) in steps {
        let place = *place as usize;
        sums[place] = sums[place].add_product(factor, *value);
    }
}

/// The weights of the kept rows whose combination is that of the reduced rows by the steps. The last row
/// comes first: it is its reduced form plus its own steps, which name earlier rows.
pub fn substitute(
    alloc: Global,
    kept: &IndexMap<Integral, Kept>,
    steps: &[(u32, Residue)],
) -> Result<Vec<(u32, Residue)>, NoMemory>
    requires echelon { IsEchelon kept.now.entries }
    requires places { AllKeys (λ place. place < length kept.now.entries) steps.now }
    ensures sum { IfOk result (λ weights. SameRow (combination (row_at (reduced_rows kept.now.entries)) steps.now) (combination (row_numbered (originals [] kept.now.entries)) weights.items)) }
    ensures numbers { IfOk result (λ weights. AllKeys (IsNumber (originals [] kept.now.entries)) weights.items) }
    ensures ascending { IfOk result (λ weights. IsCanonical number_cmp weights.items) }
{
    let mut sums = vec![in alloc; Residue::zero(); kept.len()]?;
    add_steps(&mut sums, Residue::one(), steps);
    let mut weights = Vec::new(alloc);
    while let Some(value) = sums.pop() {
        if value.value() != 0 {
            if let Some((_, row)) = kept.get_index(sums.len()) {
                weights.push((row.number, value))?;
                add_steps(&mut sums, value.neg(), &row.steps);
            }
        }
    }
    weights.reverse();
    Ok(weights)
}
