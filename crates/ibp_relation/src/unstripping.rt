// The unstripped form of a stripped field.
ghost use Rattle.std.specs.Prelude.{◌≡◌, ◌-◌, ◌≤◌, length, IfOk, if◌then◌else◌};
ghost use Rattle.std.specs.List.{All};
ghost use Rattle.ibp_algebra.specs.FormalSum.{AllKeys, IsCanonical};
ghost use Rattle.ibp_algebra.specs.Exponents.{deg_rev_lex};
ghost use Rattle.ibp_algebra.specs.Field.{variable, unstripped as unstripped_form};
ghost use Rattle.ibp_algebra.specs.Polynomial.{multiply};
ghost use Rattle.mono_order.specs.declared.limits.TheConstants.{RUN_DEGREE, VARIABLES};
ghost use Rattle.family.specs.Conditions.{in_sector};
ghost use Rattle.family.specs.Shapes.{IsPolynomial};
ghost use Rattle.ibp_relation.specs.Shifts.{HasDegree};

use ibp_base::NoMemory;
use ibp_field::Residue;
use mono_order::Monomial;
use sector_lattice::Sector;
use sparse_poly::Poly;
use std::alloc::Global;

/// The polynomials of the unstripped form for the sector.
pub fn unstripped(alloc: Global, c: &[Poly], sector: Sector) -> Result<Vec<Poly>, NoMemory>
    requires few { length c.now ≤ VARIABLES }
    requires polynomials { All (IsPolynomial (length c.now) RUN_DEGREE) c.now }
    ensures { IfOk result (λ a. a.items ≡ unstripped_form (in_sector sector.0) c.now) }
{
    let mut a = Vec::new(alloc);
    for (place, poly) in c.iter().enumerate() {
        a.push(with_factor(alloc, place as u8 + 1, poly, sector)?)?;
    }
    Ok(a)
}

// The polynomial at z_i, times z_i where that is a variable of the sector.
fn with_factor(alloc: Global, i: u8, poly: &Poly, sector: Sector) -> Result<Poly, NoMemory>
    requires place { (1 ≤ i) × (i ≤ VARIABLES) }
    requires canonical { IsCanonical deg_rev_lex poly.now }
    requires each_variable { AllKeys (λ m. length m ≡ VARIABLES) poly.now }
    requires degree { HasDegree RUN_DEGREE poly.now }
    ensures { IfOk result (λ a. a ≡ (if in_sector sector.0 (i - 1) then multiply (variable (i - 1)) poly.now else poly.now)) }
{
    if is_inside(sector, i) {
        times_variable(alloc, i, poly)
    } else {
        poly.copy(alloc)
    }
}

// Whether z_i is a variable of the sector.
fn is_inside(sector: Sector, i: u8) -> bool
    requires { (1 ≤ i) × (i ≤ VARIABLES) }
    ensures { result ≡ in_sector sector.0 (i - 1) }
{
    sector.0 >> (i - 1) & 1 == 1
}

// The polynomial times z_i.
fn times_variable(alloc: Global, i: u8, poly: &Poly) -> Result<Poly, NoMemory>
    requires place { (1 ≤ i) × (i ≤ VARIABLES) }
    requires canonical { IsCanonical deg_rev_lex poly.now }
    requires each_variable { AllKeys (λ m. length m ≡ VARIABLES) poly.now }
    requires degree { HasDegree RUN_DEGREE poly.now }
    ensures { IfOk result (λ p. p ≡ multiply (variable (i - 1)) poly.now) }
{
    let factor = Poly::from_terms(alloc, &[(Monomial::variable(i), Residue::one())])?;
    factor.product(alloc, poly)
}
