ghost use Rattle.std.specs.Prelude.{◌≡◌, ◌≢◌, ◌+◌, ◌-◌, ◌<◌, ◌≤◌, [], ◌++◌, IfOk, IsTrue, ◌↔◌, All};
ghost use Rattle.ibp_algebra.specs.FormalSum.{IsCanonical, scale};
ghost use Rattle.ibp_algebra.specs.Exponents.{deg_rev_lex};
ghost use Rattle.ibp_algebra.specs.Polynomial.{SamePolynomial, IsDivisibleBy, degree_of, derivative, multiply, permute, set_zero};

use crate::terms::{plus_multiple, product_of, sum_of};
use ibp_base::{List, NoMemory};
use ibp_field::Residue;
use mono_order::{MONO_DEGREE, Monomial, VARIABLES};
use std::alloc::{AllocError, Global};
use std::marker::Model;

/// Why a product is not made.
#[derive(Clone, Copy, PartialEq, Eq, Debug)]
pub enum PolyFault {
    /// The degrees of the factors add up to more than `MONO_DEGREE`.
    DegreeOver,
    /// Memory ran out.
    NoMemory,
}

impl From<AllocError> for PolyFault {
    ghost use Rattle.std.specs.Prelude.{◌≡◌};
    ghost use Rattle.sparse_poly.specs.declared.poly.PolyFault.{PolyFault};

    ghost from_gives = { λ _ e. e ≡ PolyFault.NoMemory };

    fn from(_: AllocError) -> PolyFault {
        PolyFault::NoMemory
    }
}

impl From<NoMemory> for PolyFault {
    ghost use Rattle.std.specs.Prelude.{◌≡◌};
    ghost use Rattle.sparse_poly.specs.declared.poly.PolyFault.{PolyFault};

    ghost from_gives = { λ _ e. e ≡ PolyFault.NoMemory };

    fn from(_: NoMemory) -> PolyFault {
        PolyFault::NoMemory
    }
}

/// A polynomial. Contracts see it as the list of its terms, greatest first.
#[derive(Drop)]
pub struct Poly {
    terms: Vec<(Monomial, Residue)>,
}

impl Model for Poly {
    ghost use Rattle.std.specs.Prelude.{List, ℕ};

    ghost Value = { List (List ℕ × ℕ) };

    ghost use Rattle.ibp_algebra.specs.FormalSum.{IsCanonical};
    ghost use Rattle.ibp_algebra.specs.Exponents.{deg_rev_lex};

    ghost view = { λ p. p.terms.items };

    ghost invariant = { λ p. IsCanonical deg_rev_lex p.terms.items };
}

impl Poly {
    /// The polynomial with no terms.
    pub fn zero(alloc: Global) -> Poly
        ensures { result ≡ [] }
    {
        Poly {
            terms: Vec::new(alloc),
        }
    }

    /// The sum of the terms, which may repeat monomials and have zero coefficients.
    pub fn from_terms(alloc: Global, terms: &[(Monomial, Residue)]) -> Result<Poly, NoMemory>
        ensures sum { IfOk result (λ p. SamePolynomial p terms.now) }
        ensures canonical { IfOk result (λ p. IsCanonical deg_rev_lex p) }
    {
        Ok(Poly {
            terms: sum_of(alloc, terms)?,
        })
    }

    /// The same polynomial.
    pub fn copy(&self, alloc: Global) -> Result<Poly, NoMemory>
        ensures { IfOk result (λ p. p ≡ self.now) }
    {
        Ok(Poly {
            terms: self.terms.to_vec(alloc)?,
        })
    }

    /// All terms, greatest first by `DegRevLex`.
    pub fn terms(&self) -> &[(Monomial, Residue)]
        ensures same { result.now ≡ self.now }
        ensures canonical { IsCanonical deg_rev_lex self.now }
    {
        &self.terms
    }

    /// Whether there are no terms.
    pub fn is_zero(&self) -> bool
        ensures { IsTrue result ↔ (self.now ≡ []) }
    {
        self.terms.is_empty()
    }

    /// The total degree, 0 for the zero polynomial.
    pub fn degree(&self) -> u16
        ensures degree { result ≡ degree_of self.now }
        ensures bounded { result ≤ MONO_DEGREE }
    {
        match self.terms.first() {
            Some(term) => term.0.degree(),
            None => 0,
        }
    }

    /// Whether each term has a positive exponent of z_i, with i from 1.
    pub fn divisible_by(&self, i: u8) -> bool
        requires { (0 < i) × (i ≤ VARIABLES) }
        ensures { IsTrue result ↔ IsDivisibleBy (i - 1) self.now }
    {
        self.terms.iter().all(|term| term.0.exponent(i) > 0)
    }

    /// The sum.
    pub fn add(&self, alloc: Global, other: &Poly) -> Result<Poly, NoMemory>
        ensures sum { IfOk result (λ p. SamePolynomial p (self.now ++ other.now)) }
        ensures canonical { IfOk result (λ p. IsCanonical deg_rev_lex p) }
    {
        Ok(Poly {
            terms: plus_multiple(alloc, self.terms(), Residue::one(), other.terms())?,
        })
    }

    /// The multiple by a residue.
    pub fn scale(&self, alloc: Global, by: Residue) -> Result<Poly, NoMemory>
        ensures multiple { IfOk result (λ p. SamePolynomial p (scale by self.now)) }
        ensures canonical { IfOk result (λ p. IsCanonical deg_rev_lex p) }
    {
        Ok(Poly {
            terms: plus_multiple(alloc, &[], by, self.terms())?,
        })
    }

    /// The product, unless its degree is above the limit of monomials.
    pub fn mul(&self, alloc: Global, other: &Poly) -> Result<Poly, PolyFault>
        ensures product { IfOk result (λ p. SamePolynomial p (multiply self.now other.now)) }
        ensures canonical { IfOk result (λ p. IsCanonical deg_rev_lex p) }
        ensures over { result ≡ Err PolyFault.DegreeOver ↔ ((self.now ≢ []) × (other.now ≢ []) × (MONO_DEGREE < degree_of self.now + degree_of other.now)) }
    {
        if self.degree() + other.degree() > MONO_DEGREE {
            return Err(PolyFault::DegreeOver);
        }
        Ok(Poly {
            terms: product_of(alloc, self.terms(), other.terms())?,
        })
    }

    /// The product of polynomials whose degrees add up to no more than `MONO_DEGREE`.
    pub fn product(&self, alloc: Global, other: &Poly) -> Result<Poly, NoMemory>
        requires { degree_of self.now + degree_of other.now ≤ MONO_DEGREE }
        ensures product { IfOk result (λ p. SamePolynomial p (multiply self.now other.now)) }
        ensures canonical { IfOk result (λ p. IsCanonical deg_rev_lex p) }
    {
        match self.mul(alloc, other) {
            Ok(product) => Ok(product),
            Err(PolyFault::NoMemory) => Err(NoMemory),
            Err(PolyFault::DegreeOver) => unreachable!(),
        }
    }

    /// The derivative by z_i, with i from 1.
    pub fn derivative(&self, alloc: Global, i: u8) -> Result<Poly, NoMemory>
        requires { (0 < i) × (i ≤ VARIABLES) }
        ensures derivative { IfOk result (λ p. SamePolynomial p (derivative (i - 1) self.now)) }
        ensures canonical { IfOk result (λ p. IsCanonical deg_rev_lex p) }
    {
        let mut terms = Vec::new(alloc);
        for (monomial, value) in self.terms() {
            let exponent = monomial.exponent(i);
            if exponent > 0 {
                terms.push((
                    monomial.lowered(i),
                    Residue::of(exponent as u32).mul(*value),
                ))?;
            }
        }
        Poly::from_terms(alloc, &terms)
    }

    /// The terms without z_i, with i from 1.
    pub fn set_zero(&self, alloc: Global, i: u8) -> Result<Poly, NoMemory>
        requires { (0 < i) × (i ≤ VARIABLES) }
        ensures kept { IfOk result (λ p. p ≡ set_zero (i - 1) self.now) }
        ensures canonical { IfOk result (λ p. IsCanonical deg_rev_lex p) }
    {
        let mut terms = Vec::new(alloc);
        for (monomial, value) in self.terms() {
            if monomial.exponent(i) == 0 {
                terms.push((*monomial, *value))?;
            }
        }
        Ok(Poly { terms })
    }

    /// Each variable replaced by another one: entry i - 1 of `to` is the number, from 1, of the variable that
    /// stands for z_i.
    pub fn permute(&self, alloc: Global, to: &[u8; VARIABLES]) -> Result<Poly, NoMemory>
        requires { All (λ number. (0 < number) × (number ≤ VARIABLES)) to.now }
        ensures moved { IfOk result (λ p. SamePolynomial p (permute to.now self.now)) }
        ensures canonical { IfOk result (λ p. IsCanonical deg_rev_lex p) }
    {
        let mut terms = Vec::new(alloc);
        for (monomial, value) in self.terms() {
            terms.push((monomial.permuted(to), *value))?;
        }
        Poly::from_terms(alloc, &terms)
    }
}

/// The same polynomials, in the same order.
pub fn copy_polynomials(alloc: Global, polynomials: &[Poly]) -> Result<List<Poly>, NoMemory>
    ensures { IfOk result (λ copies. copies ≡ polynomials.now) }
{
    let mut copies = Vec::new(alloc);
    for polynomial in polynomials {
        copies.push(polynomial.copy(alloc)?)?;
    }
    Ok(List::from_vec(copies))
}

impl PartialEq for Poly {
    ghost use Rattle.sparse_poly.specs.Equality.{one_polynomial, one_polynomial_laws};
    ghost use Rattle.std.specs.Cmp.{partial_equiv_from_equiv};

    ghost eq = { one_polynomial };

    ghost laws = { partial_equiv_from_equiv one_polynomial_laws };

    fn eq(&self, other: &Poly) -> bool {
        self.terms() == other.terms()
    }
}

impl Eq for Poly {
    ghost use Rattle.sparse_poly.specs.Equality.{one_polynomial_laws};

    ghost laws = { one_polynomial_laws };
}
