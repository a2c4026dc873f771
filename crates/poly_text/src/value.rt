//! Values of operators.

ghost use Rattle.std.specs.Prelude.{◌≡◌, [], ◌∷◌, ◌+◌, ◌≤◌, ◌++◌, IfOk};
ghost use Rattle.ibp_algebra.specs.FormalSum.{IsCanonical, normal_form, scale};
ghost use Rattle.ibp_algebra.specs.Exponents.{deg_rev_lex};
ghost use Rattle.ibp_algebra.specs.Polynomial.{SamePolynomial, multiply, degree_of};
ghost use Rattle.mono_order.specs.declared.limits.TheConstants.{MONO_DEGREE};
ghost use Rattle.poly_text.specs.Value.{constant, within_terms, sum_of, product_of, quotient_of, negative_of, power_of};

use crate::fault::TextFault;
use crate::reader::Operand;
use ibp_base::NoMemory;
use ibp_field::Residue;
use mono_order::Monomial;
use sparse_poly::{DEGREE_LIMIT, Poly, TERM_LIMIT};
use std::alloc::Global;

/// A number as a polynomial.
pub fn constant(alloc: Global, number: Residue) -> Result<Poly, NoMemory>
    ensures { IfOk result (λ p. p ≡ constant number) }
{
    Poly::from_terms(alloc, &[(Monomial::one(), number)])
}

/// A power product.
pub fn power_product(alloc: Global, monomial: Monomial) -> Result<Poly, NoMemory>
    ensures { IfOk result (λ p. p ≡ (monomial, 1) ∷ []) }
{
    Poly::from_terms(alloc, &[(monomial, Residue::one())])
}

// A sum or a product, unless it has too many terms.
fn within_terms(value: Poly, at: u32) -> Operand
    ensures { result ≡ within_terms at value }
{
    if value.terms().len() > TERM_LIMIT {
        Err(TextFault::TermsOver { at })
    } else {
        Ok(value)
    }
}

/// The multiple of a polynomial.
pub fn scaled(alloc: Global, f: &Poly, by: Residue) -> Result<Poly, NoMemory>
    ensures { IfOk result (λ p. p ≡ normal_form deg_rev_lex (scale by f.now)) }
{
    f.scale(alloc, by)
}

/// The sum of two polynomials.
pub fn added(alloc: Global, f: &Poly, g: &Poly) -> Result<Poly, NoMemory>
    ensures { IfOk result (λ p. p ≡ normal_form deg_rev_lex (f.now ++ g.now)) }
{
    f.add(alloc, g)
}

// The product of two polynomials of small degree.
fn multiplied(alloc: Global, f: &Poly, g: &Poly) -> Result<Poly, NoMemory>
    requires { degree_of f.now + degree_of g.now ≤ MONO_DEGREE }
    ensures { IfOk result (λ p. p ≡ normal_form deg_rev_lex (multiply f.now g.now)) }
{
    f.product(alloc, g)
}

/// Minus a polynomial.
pub fn negative_of(alloc: Global, f: &Poly) -> Result<Poly, NoMemory>
    ensures { IfOk result (λ p. p ≡ negative_of f.now) }
{
    scaled(alloc, f, Residue::one().neg())
}

/// A sum, under the limit on terms.
pub fn sum_of(alloc: Global, f: &Poly, g: &Poly, at: u32) -> Result<Operand, NoMemory>
    ensures { IfOk result (λ v. v ≡ sum_of at f.now g.now) }
{
    Ok(within_terms(added(alloc, f, g)?, at))
}

/// A product, under the limits on the degree and on terms.
#[tactic(auto, using(crate::proofs::Values::product_of_zero, crate::proofs::Values::zero_product))]
pub fn product_of(alloc: Global, f: &Poly, g: &Poly, at: u32) -> Result<Operand, NoMemory>
    ensures { IfOk result (λ v. v ≡ product_of at f.now g.now) }
{
    if f.is_zero() {
        return Ok(Ok(Poly::zero(alloc)));
    }
    if g.is_zero() {
        return Ok(Ok(Poly::zero(alloc)));
    }
    if f.degree() + g.degree() > DEGREE_LIMIT {
        return Ok(Err(TextFault::DegreeOver { at }));
    }
    Ok(within_terms(multiplied(alloc, f, g)?, at))
}

/// A quotient by a number.
pub fn quotient_of(alloc: Global, f: &Poly, g: &Poly, at: u32) -> Result<Operand, NoMemory>
    ensures { IfOk result (λ v. v ≡ quotient_of at f.now g.now) }
{
    if g.degree() > 0 {
        return Ok(Err(TextFault::NotConstant { at }));
    }
    let Some(term) = g.terms().first() else {
        return Ok(Err(TextFault::ZeroDivisor { at }));
    };
    match term.1.inverse() {
        Some(inverse) => Ok(Ok(scaled(alloc, f, inverse)?)),
        None => Ok(Err(TextFault::ZeroDivisor { at })),
    }
}

/// A power, each of whose products is under the limits.
pub fn power_of(alloc: Global, f: &Poly, exponent: u8, at: u32) -> Result<Operand, NoMemory>
    ensures { IfOk result (λ v. v ≡ power_of at f.now exponent) }
{
    let mut power = constant(alloc, Residue::one())?;
    for done in 0..exponent {
        match product_of(alloc, &power, f, at)? {
            Ok(product) => power = product,
            Err(fault) => return Ok(Err(fault)),
        }
    }
    Ok(Ok(power))
}
