//! Laws of sorted sums. Each function has an empty body.
ghost use Rattle.std.specs.Prelude.{◌≡◌};
ghost use Rattle.std.specs.Ordering.{eq_by_cmp};
ghost use Rattle.ibp_algebra.specs.FormalSum.{FormalSum, SameCoefficients, IsCanonical};

use crate::KeyOrder;

/// Two canonical sums with the same coefficients are one list.
pub fn unique_sum<K, O: KeyOrder<K>>()
    ensures { (first second : FormalSum K) → IsCanonical O.order first → IsCanonical O.order second → SameCoefficients (eq_by_cmp O.order) first second → first ≡ second }
{}
