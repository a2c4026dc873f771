// Polynomials of a cut family, and their lift.
ghost use Rattle.std.specs.Prelude.{◌≡◌, ◌≤◌, ◌++◌, ◌-◌, OnOk, IfOk, length, sum, replicate};
ghost use Rattle.ibp_algebra.specs.FormalSum.{map_keys, strike};
ghost use Rattle.mono_order.specs.Monomial.{IsMonomial};
ghost use Rattle.mono_order.specs.declared.limits.TheConstants.{VARIABLES, MONO_DEGREE};
ghost use Rattle.cut_family.specs.Places.{filled};
ghost use Rattle.cut_family.specs.Cutting.{meets_cut, cut_exponents, cut_polynomial};
ghost use Rattle.cut_family.specs.Lifting.{lifted_polynomial};

use crate::places::{meets_cut, put_filled, put_outside};
use ibp_base::NoMemory;
use ibp_field::Residue;
use mono_order::{MONO_DEGREE, Monomial, VARIABLES};
use sparse_poly::Poly;
use std::alloc::Global;

// The exponents, that of the first variable first.
fn exponents_of(alloc: Global, monomial: &Monomial) -> Result<Vec<u16>, NoMemory>
    ensures value { IfOk result (λ exponents. exponents.items ≡ monomial.now) }
    ensures kept { IfOk result (λ exponents. IsMonomial exponents.items) }
{
    let mut exponents = Vec::new(alloc);
    for i in 0..VARIABLES {
        exponents.push(monomial.exponent(i as u8 + 1))?;
    }
    Ok(exponents)
}

// The monomial of the exponents of the first variables.
fn monomial_of(exponents: &[u16]) -> Monomial
    requires few { length exponents.now ≤ VARIABLES }
    requires within { sum exponents.now ≤ MONO_DEGREE }
    ensures { result ≡ exponents.now ++ replicate (VARIABLES - length exponents.now) 0 }
{
    let mut all = [0; VARIABLES];
    all[..exponents.len()].copy_from_slice(exponents);
    match Monomial::from_exponents(all) {
        Some(monomial) => monomial,
        None => unreachable!(),
    }
}

// The exponents of the variables outside the cut, in the new numbers.
fn cut_monomial(alloc: Global, cut: u16, exponents: &[u16]) -> Result<Monomial, NoMemory>
    requires { IsMonomial exponents.now }
    ensures { IfOk result (λ monomial. monomial ≡ cut_exponents cut exponents.now) }
{
    let mut kept = Vec::new(alloc);
    put_outside(&mut kept, cut, exponents)?;
    Ok(monomial_of(&kept))
}

// Puts the terms without a variable of the cut at the end, in the new numbers.
fn put_cut_terms(
    alloc: Global,
    into: &mut Vec<(Monomial, Residue)>,
    cut: u16,
    terms: &[(Monomial, Residue)],
) -> Result<(), NoMemory>
    ensures { OnOk result (into.new.items ≡ into.old.items ++ map_keys (cut_exponents cut) (strike (meets_cut cut) terms.now)) }
{
    for (monomial, value) in terms {
        let exponents = exponents_of(alloc, monomial)?;
        if !meets_cut(cut, &exponents) {
            into.push((cut_monomial(alloc, cut, &exponents)?, *value))?;
        }
    }
    Ok(())
}

/// The polynomial with each member of the cut set to zero, in the new numbers.
pub fn cut_polynomial(alloc: Global, cut: u16, polynomial: &Poly) -> Result<Poly, NoMemory>
    ensures { IfOk result (λ p. p ≡ cut_polynomial cut polynomial.now) }
{
    let mut terms = Vec::new(alloc);
    put_cut_terms(alloc, &mut terms, cut, polynomial.terms())?;
    let sum = Poly::from_terms(alloc, &terms)?;
    Ok(sum)
}

// The exponents in the old numbers.
fn lifted_monomial(alloc: Global, cut: u16, monomial: &Monomial) -> Result<Monomial, NoMemory>
    ensures { IfOk result (λ lifted. lifted ≡ filled 0 VARIABLES cut monomial.now) }
{
    let exponents = exponents_of(alloc, monomial)?;
    let mut all = Vec::new(alloc);
    put_filled(&mut all, 0, VARIABLES as u8, cut, &exponents)?;
    Ok(monomial_of(&all))
}

// Puts the terms at the end, in the old numbers.
fn put_lifted_terms(
    alloc: Global,
    into: &mut Vec<(Monomial, Residue)>,
    cut: u16,
    terms: &[(Monomial, Residue)],
) -> Result<(), NoMemory>
    ensures { OnOk result (into.new.items ≡ into.old.items ++ map_keys (filled 0 VARIABLES cut) terms.now) }
{
    for (monomial, value) in terms {
        into.push((lifted_monomial(alloc, cut, monomial)?, *value))?;
    }
    Ok(())
}

/// The polynomial in the old numbers.
pub fn lifted_polynomial(alloc: Global, cut: u16, polynomial: &Poly) -> Result<Poly, NoMemory>
    ensures { IfOk result (λ p. p ≡ lifted_polynomial cut polynomial.now) }
{
    let mut terms = Vec::new(alloc);
    put_lifted_terms(alloc, &mut terms, cut, polynomial.terms())?;
    let sum = Poly::from_terms(alloc, &terms)?;
    Ok(sum)
}
