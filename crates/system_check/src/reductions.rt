// The reductions of a text.
ghost use Rattle.std.specs.Prelude.{◌≡◌, ◌≤◌, ◌<◌, ◌^◌, ◌↔◌, ◌∷◌, [], IfOk, IfSome, IsNone, IsTrue, length};
ghost use Rattle.std.specs.List.{All, AllByRecursion};
ghost use Rattle.ibp_algebra.specs.Combination.{combination};
ghost use Rattle.ibp_algebra.specs.FormalSum.{IsCanonical};
ghost use Rattle.sector_lattice.specs.Sectors.{integral_cmp};
ghost use Rattle.sparse_rows.specs.Rows.{SameRow};
ghost use Rattle.family.specs.FamilyView.{family_view};
ghost use Rattle.system_text.specs.SystemValues.{IsReduction};
ghost use Rattle.system_check.specs.Rightness.{IsRightReduction, numbered_row, targets_of};
ghost use Rattle.system_check.specs.Checking.{IsFirstAt};

use family::Family;
use ibp_base::NoMemory;
use ibp_field::Residue;
use sector_lattice::Integral;
use sparse_rows::Row;
use std::alloc::Global;
use system_text::{Reduction, Written};
use target_rows::declared_row;

/// Whether these are the targets, in their order.
pub fn are_targets(reductions: &[Reduction], targets: &[Integral]) -> bool
    ensures { IsTrue result ↔ (targets_of reductions.now ≡ targets.now) }
{
    if reductions.len() != targets.len() {
        return false;
    }
    for (place, target) in targets.iter().enumerate() {
        if reductions[place].target != *target {
            return false;
        }
    }
    true
}

fn are_numbers(count: usize, weights: &[(u32, Residue)]) -> bool
    ensures { IsTrue result ↔ All (λ weight. weight.0 ≤ count) weights.now }
{
    weights.iter().all(|weight| weight.0 as usize <= count)
}

// The row of the relation of this number, from 1 on, times the weight.
fn weighted_row(
    alloc: Global,
    relations: &[Written],
    number: u32,
    weight: Residue,
) -> Result<Row, NoMemory>
    requires some { 1 ≤ number }
    requires within { number ≤ length relations.now }
    ensures sum { IfOk result (λ row. SameRow row (combination (numbered_row relations.now) ((number, weight) ∷ []))) }
    ensures canonical { IfOk result (λ row. IsCanonical integral_cmp row) }
{
    let none = Row::from_terms(alloc, &[])?;
    none.add_multiple(alloc, weight, &relations[number as usize - 1].row)
}

// The sum of the weights times the rows of the relations, by halves, so that long sums are few.
fn weighted_sum(
    alloc: Global,
    relations: &[Written],
    weights: &[(u32, Residue)],
) -> Result<Row, NoMemory>
    requires some { All (λ weight. 1 ≤ weight.0) weights.now }
    requires within { All (λ weight. weight.0 ≤ length relations.now) weights.now }
    ensures sum { IfOk result (λ row. SameRow row (combination (numbered_row relations.now) weights.now)) }
    ensures canonical { IfOk result (λ row. IsCanonical integral_cmp row) }
{
    match weights {
        [] => Row::from_terms(alloc, &[]),
        [(number, weight)] => weighted_row(alloc, relations, *number, *weight),
        _ => {
            let (left, right) = weights.split_at(weights.len() / 2);
            let first = weighted_sum(alloc, relations, left)?;
            let second = weighted_sum(alloc, relations, right)?;
            first.add_multiple(alloc, Residue::one(), &second)
        }
    }
}

// Whether the row of the target less its reduced form is the sum of the weights times the rows.
fn is_reduction(
    alloc: Global,
    family: &Family,
    relations: &[Written],
    reduction: &Reduction,
) -> Result<bool, NoMemory>
    requires { IsReduction family.now.n reduction.now }
    ensures { IfOk result (λ same. IsTrue same ↔ IsRightReduction (family_view family.now) relations.now reduction.now) }
{
    let weights = reduction.weights.as_slice();
    if !are_numbers(relations.len(), weights) {
        return Ok(false);
    }
    let sum = weighted_sum(alloc, relations, weights)?;
    let target = declared_row(alloc, family, &reduction.target)?;
    let less = target.add_multiple(alloc, Residue::one().neg(), &reduction.reduced)?;
    Ok(less == sum)
}

/// The number of the first target that is not reduced by its weights.
pub fn first_unreduced(
    alloc: Global,
    family: &Family,
    relations: &[Written],
    reductions: &[Reduction],
) -> Result<Option<u32>, NoMemory>
    requires reductions { AllByRecursion (IsReduction family.now.n) reductions.now }
    requires few { length reductions.now < 2 ^ 32 }
    ensures first { IfOk result (λ found. IfSome found (λ k. IsFirstAt (IsRightReduction (family_view family.now) relations.now) k reductions.now)) }
    ensures none { IfOk result (λ found. IsNone found → All (IsRightReduction (family_view family.now) relations.now) reductions.now) }
{
    for (place, reduction) in reductions.iter().enumerate() {
        if !is_reduction(alloc, family, relations, reduction)? {
            return Ok(Some(place as u32 + 1));
        }
    }
    Ok(None)
}
