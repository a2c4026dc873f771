//! Laws of outcomes, each the contract of a function that does nothing, and what equal plans have in common.
ghost use Rattle.std.specs.Prelude.{◌≡◌, ◌↔◌, ℕ, false, IsTrue, List, Contains};
ghost use Rattle.sparse_rows.specs.Rows.{is_zero_integral};
ghost use Rattle.family.specs.Within.{DataWithin};
ghost use Rattle.family.specs.FamilyData.{FamilyData};
ghost use Rattle.family.specs.FamilyView.{family_view};
ghost use Rattle.sector_job.specs.Candidates.{Integral};
ghost use Rattle.sector_job.specs.Outcomes.{FitsTargets, IsOutcome, tails_in};

use crate::outcome::Outcome;
use crate::plan::Plan;

/// At most one outcome comes of a sector for some targets.
pub fn one_outcome()
    ensures { (family : FamilyData) (sector : ℕ) (targets : List Integral) (first second : Outcome)
        → DataWithin family → IsOutcome family sector targets first → IsOutcome family sector targets second → first ≡ second }
{}

/// No tail lies in a sector that the family declares to be zero.
pub fn tails_are_not_zero()
    ensures { (family : FamilyData) (sector : ℕ) (targets : List Integral) (outcome : Outcome) (integral : Integral)
        → FitsTargets family sector targets → IsOutcome family sector targets outcome → Contains (tails_in outcome) integral
        → is_zero_integral family.zero integral ≡ false }
{}

/// What `==` answers for two plans: whether their families are the same in each part.
pub fn are_equal(left: &Plan, right: &Plan) -> bool
    ensures { IsTrue result ↔ (family_view left.now ≡ family_view right.now) }
{
    left == right
}
