// The two conditions on a field.
ghost use Rattle.std.specs.Prelude.{◌≡◌, ◌≤◌, length, All, IfOk, IfSome, IsTrue, IsNone, ◌↔◌};
ghost use Rattle.ibp_algebra.specs.Field.{IsDivided, IsTangent};
ghost use Rattle.mono_order.specs.declared.limits.TheConstants.{VARIABLES};
ghost use Rattle.sector_lattice.specs.Sectors.{sector_of};
ghost use Rattle.sparse_poly.specs.declared.limits.TheConstants.{DEGREE_LIMIT};
ghost use Rattle.family.specs.Conditions.{in_sector};
ghost use Rattle.ibp_relation.specs.Conditions.{IsFirstUndivided};
ghost use Rattle.ibp_relation.specs.Shifts.{HasDegree};

use ibp_base::NoMemory;
use sector_lattice::Integral;
use sparse_poly::Poly;
use std::alloc::Global;

/// The least i with a positive power at the seed such that z_i does not divide a_i.
pub fn first_undivided(a: &[Poly], seed: &Integral) -> Option<u8>
    requires fits { length a.now ≡ length seed.now }
    requires few { length a.now ≤ VARIABLES }
    ensures found { IfSome result (λ i. IsFirstUndivided (in_sector (sector_of seed.now)) a.now i) }
    ensures none { IsNone result → IsDivided (in_sector (sector_of seed.now)) a.now }
{
    for (place, poly) in a.iter().enumerate() {
        let i = place as u8 + 1;
        let is_inside = seed.power(i) > 0;
        if is_inside && !poly.divisible_by(i) {
            return Some(i);
        }
    }
    None
}

/// Whether the sum over i of a_i times the derivative of P by z_i equals b times P.
pub fn is_tangent(alloc: Global, baikov: &Poly, a: &[Poly], b: &Poly) -> Result<bool, NoMemory>
    requires few { length a.now ≤ VARIABLES }
    requires baikov { HasDegree DEGREE_LIMIT baikov.now }
    requires degrees { All (HasDegree DEGREE_LIMIT) a.now }
    requires degree { HasDegree DEGREE_LIMIT b.now }
    ensures { IfOk result (λ r. IsTrue r ↔ IsTangent baikov.now a.now b.now) }
{
    let mut sum = Poly::zero(alloc);
    for i in 0..a.len() {
        let derivative = baikov.derivative(alloc, i as u8 + 1)?;
        let product = a[i].product(alloc, &derivative)?;
        sum = sum.add(alloc, &product)?;
    }
    Ok(sum == b.product(alloc, baikov)?)
}
