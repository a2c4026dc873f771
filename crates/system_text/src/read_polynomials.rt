// Polynomials in front of bytes.
ghost use Rattle.std.specs.Prelude.{◌≡◌, ◌<◌, ◌≤◌, ◌++◌, ℕ, List, length, IfSome, false, sum};
ghost use Rattle.mono_order.specs.declared.limits.TheConstants.{VARIABLES, RUN_DEGREE};
ghost use Rattle.family.specs.Shapes.{HasVariables};
ghost use Rattle.line_reader.specs.Fronts.{IsSomeWith, begins_with};
ghost use Rattle.system_text.specs.Texts.{power_text, monomial_text};
ghost use Rattle.system_text.specs.Polynomials.{EndsPower, EndsTerm, IsShort, exponent_text, is_power_byte};

use ibp_base::NoMemory;
use ibp_field::{PRIME, Residue};
use line_reader::{Entry, after, entries_at, whole_at};
use mono_order::{Monomial, RUN_DEGREE, VARIABLES};
use sparse_poly::Poly;
use std::alloc::Global;

// The exponent behind the name of a variable, 1 where none is written.
fn exponent_at(bytes: &[u8]) -> Option<(u16, &[u8])>
    ensures reads { (e : ℕ) (rest : List ℕ) → e ≤ RUN_DEGREE → begins_with is_power_byte rest ≡ false → bytes.now ≡ exponent_text e ++ rest
        → IsSomeWith result (λ r. (r.0 ≡ e) × (r.1.now ≡ rest)) }
    ensures shorter { IfSome result (λ r. length r.1.now ≤ length bytes.now) }
{
    let Some(others) = after(bytes, b"^") else {
        return Some((1, bytes));
    };
    let (exponent, rest) = whole_at(others)?;
    Some((u16::try_from(exponent).ok()?, rest))
}

// The exponent of the variable `i`, and what follows its power. It is 0 where another variable is next,
// or none.
fn power_of(bytes: &[u8], i: u8) -> Option<(u16, &[u8])>
    ensures reads { (e : ℕ) (rest : List ℕ) → e ≤ RUN_DEGREE → EndsPower i rest → bytes.now ≡ power_text i e ++ rest
        → IsSomeWith result (λ r. (r.0 ≡ e) × (r.1.now ≡ rest)) }
    ensures shorter { IfSome result (λ r. length r.1.now ≤ length bytes.now) }
{
    let Some(others) = after(bytes, b"*z") else {
        return Some((0, bytes));
    };
    let (number, rest) = whole_at(others)?;
    if number == u32::from(i) {
        exponent_at(rest)
    } else {
        Some((0, bytes))
    }
}

// The term of this value and the monomial in front, and what follows it.
fn monomial_at(bytes: &[u8], n: u8, value: Residue) -> Option<((Monomial, Residue), &[u8])>
    requires { n ≤ VARIABLES }
    ensures reads { (m : List ℕ) (rest : List ℕ) → HasVariables n m → sum m ≤ RUN_DEGREE → EndsTerm rest → bytes.now ≡ monomial_text m ++ rest
        → IsSomeWith result (λ r. (r.0 ≡ (m, value)) × (r.1.now ≡ rest)) }
    ensures short { IfSome result (λ r. IsShort n r.0.0) }
    ensures value { IfSome result (λ r. r.0.1 ≡ value) }
    ensures shorter { IfSome result (λ r. length r.1.now ≤ length bytes.now) }
{
    let mut exponents = [0; VARIABLES];
    let mut rest = bytes;
    for i in 1..n + 1 {
        let (exponent, others) = power_of(rest, i)?;
        exponents[usize::from(i - 1)] = exponent;
        rest = others;
    }
    let monomial = Monomial::from_exponents(exponents)?;
    if monomial.degree() <= RUN_DEGREE {
        Some(((monomial, value), rest))
    } else {
        None
    }
}

/// Terms of polynomials.
pub struct PolyTerm;

impl Entry<(Monomial, Residue)> for PolyTerm {
    ghost use Rattle.system_text.specs.Texts.{poly_term_text};
    ghost use Rattle.system_text.specs.Polynomials.{EndsTerm, IsPolyTerm};

    ghost text = { poly_term_text };

    ghost is_entry = { IsPolyTerm };

    ghost ends = { EndsTerm };

    fn front(
        _alloc: Global,
        bytes: &[u8],
        n: u8,
    ) -> Result<Option<((Monomial, Residue), &[u8])>, NoMemory> {
        let Some((number, others)) = whole_at(bytes) else {
            return Ok(None);
        };
        if number >= PRIME {
            return Ok(None);
        }
        Ok(monomial_at(others, n, Residue::of(number)))
    }
}

/// Polynomials.
pub struct PolyEntry;

impl Entry<Poly> for PolyEntry {
    ghost use Rattle.mono_order.specs.declared.limits.TheConstants.{RUN_DEGREE};
    ghost use Rattle.family.specs.Shapes.{IsPolynomial};
    ghost use Rattle.system_text.specs.Texts.{poly_text};
    ghost use Rattle.system_text.specs.Polynomials.{EndsPoly};

    ghost text = { poly_text };

    ghost is_entry = { λ n p. IsPolynomial n RUN_DEGREE p };

    ghost ends = { EndsPoly };

    fn front(alloc: Global, bytes: &[u8], n: u8) -> Result<Option<(Poly, &[u8])>, NoMemory> {
        let Some((terms, rest)) = entries_at::<(Monomial, Residue), PolyTerm>(
            alloc, bytes, b" + ", n,
        )?
        else {
            return Ok(None);
        };
        let poly = Poly::from_terms(alloc, &terms)?;
        Ok(Some((poly, rest)))
    }
}
