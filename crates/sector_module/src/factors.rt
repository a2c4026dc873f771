//! The factors of a sector: the polynomials f_1 to f_n whose combinations with a stripped field it compares.

ghost use Rattle.std.specs.Prelude.{◌≡◌, ◌+◌, ◌-◌, ◌<◌, ◌≤◌, sum, IfOk};
ghost use Rattle.mono_order.specs.declared.limits.TheConstants.{VARIABLES};
ghost use Rattle.ibp_algebra.specs.FormalSum.{AllKeys};
ghost use Rattle.ibp_algebra.specs.Polynomial.{SamePolynomial};
ghost use Rattle.sparse_poly.specs.declared.limits.TheConstants.{DEGREE_LIMIT};
ghost use Rattle.family.specs.Conditions.{in_sector};
ghost use Rattle.ibp_algebra.specs.Field.{sector_factor};

use family::Family;
use ibp_base::NoMemory;
use ibp_field::Residue;
use mono_order::Monomial;
use sector_lattice::Sector;
use sparse_poly::Poly;
use std::alloc::Global;

/// The derivative of P by z_i, times z_i for a variable of the sector, with i from 1.
pub(crate) fn factor(
    alloc: Global,
    family: &Family,
    sector: Sector,
    i: u8,
) -> Result<Poly, NoMemory>
    requires { (0 < i) × (i ≤ family.now.n) }
    ensures factor { IfOk result (λ f. SamePolynomial f (sector_factor family.now.baikov (in_sector sector.0) (i - 1))) }
    ensures degrees { IfOk result (λ f. AllKeys (λ m. sum m ≤ DEGREE_LIMIT + 1) f) }
{
    let derivative = family.baikov.derivative(alloc, i)?;
    if !is_inside(sector, i) {
        return Ok(derivative);
    }
    let variable = Poly::from_terms(alloc, &[(Monomial::variable(i), Residue::one())])?;
    variable.product(alloc, &derivative)
}

/// Whether z_i is a variable of the sector, with i from 1.
pub fn is_inside(sector: Sector, i: u8) -> bool
    requires { (0 < i) × (i ≤ VARIABLES) }
    ensures { result ≡ in_sector sector.0 (i - 1) }
{
    sector.0 >> (i - 1) & 1 == 1
}
