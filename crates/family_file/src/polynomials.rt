//! Polynomials and numbers of a file.

ghost use Rattle.std.specs.Prelude.{◌≡◌, ◌+◌, ◌-◌, ◌^◌, ◌≤◌, ◌++◌, length, map, min, sum, replicate, IfOk};
ghost use Rattle.ibp_algebra.specs.Exponents.{deg_rev_lex};
ghost use Rattle.ibp_algebra.specs.FormalSum.{normal_form};
ghost use Rattle.toml.specs.View.{view};
ghost use Rattle.mono_order.specs.declared.limits.TheConstants.{VARIABLES};
ghost use Rattle.sparse_poly.specs.declared.limits.TheConstants.{DEGREE_LIMIT};
ghost use Rattle.family_file.specs.KeyViews.{number_view, polynomial_view};
ghost use Rattle.family_file.specs.Reading.{Returns, Gives, fault_in, collect};
ghost use Rattle.family_file.specs.Polynomials.{text_in, number_text_in, residue_in, exponent_in, term_from, term_in, terms_of, polynomial_in, polynomial_value, field_of};

use crate::arrays::{integer_in, list_in};
use crate::fault::{FamilyFault, FileFault};
use crate::numbers::small;
use crate::table::{NumberKey, PolynomialKey, polynomial};
use ibp_base::NoMemory;
use ibp_field::Residue;
use mono_order::{Monomial, VARIABLES};
use poly_text::{Numbers, Unread, read_number, read_poly};
use sparse_poly::{DEGREE_LIMIT, Poly, TERM_LIMIT};
use std::alloc::Global;
use toml::value::Value;

// Why a text stands for nothing, in a place that has this fault.
fn fault_in(error: Unread, fault: FileFault) -> FamilyFault
    ensures { result ≡ fault_in fault error }
{
    match error {
        Unread::Fault => FamilyFault::File(fault),
        Unread::NoMemory => FamilyFault::NoMemory,
    }
}

#[tactic(auto, unfolding(crate::specs::Polynomials::text_in))]
fn text_in(
    alloc: Global,
    text: &str,
    n: u8,
    numbers: &Numbers,
    fault: FileFault,
) -> Result<Poly, FamilyFault>
    requires { n ≤ VARIABLES }
    ensures { Gives (λ p. p) result (text_in fault n numbers.now text.now) }
{
    match read_poly(alloc, text, n, numbers) {
        Ok(polynomial) => Ok(polynomial),
        Err(error) => Err(fault_in(error, fault)),
    }
}

#[tactic(auto, unfolding(crate::specs::Polynomials::number_text_in))]
fn number_text_in(alloc: Global, text: &str, fault: FileFault) -> Result<Residue, FamilyFault>
    ensures { Gives (λ r. r) result (number_text_in fault text.now) }
{
    match read_number(alloc, text) {
        Ok(number) => Ok(number),
        Err(error) => Err(fault_in(error, fault)),
    }
}

/// The value of a number modulo the prime.
pub fn residue_in(
    alloc: Global,
    number: NumberKey<'_>,
    fault: FileFault,
) -> Result<Residue, FamilyFault>
    ensures { Gives (λ r. r) result (residue_in fault (number_view number.entry)) }
{
    match number {
        NumberKey::Whole(number) => Ok(Residue::from_i64(number)),
        NumberKey::Text(text) => number_text_in(alloc, text, fault),
    }
}

#[tactic(auto, unfolding(crate::specs::Polynomials::exponent_in))]
fn exponent_in(value: &Value, fault: FileFault) -> Result<u16, FileFault>
    ensures { Returns (λ n. n) result (exponent_in fault (view value.now)) }
{
    small(integer_in(value, fault)?, DEGREE_LIMIT, fault)
}

fn collect_exponents(
    alloc: Global,
    values: &[Value],
    fault: FileFault,
) -> Result<Vec<u16>, FamilyFault>
    ensures { Gives (λ v. v.items) result (collect (exponent_in fault) (map view values.now)) }
{
    let mut exponents = Vec::new(alloc);
    for value in values {
        exponents.push(exponent_in(value, fault)?)?;
    }
    Ok(exponents)
}

// The sum of the exponents, which stays at the greatest u16.
fn degree_of(exponents: &[u16]) -> u16
    ensures { result ≡ min (sum exponents.now) (2 ^ 16 - 1) }
{
    let mut degree = 0u16;
    for exponent in exponents {
        degree = degree.saturating_add(*exponent);
    }
    degree
}

// The monomial of the exponents of the first variables.
fn monomial_of(exponents: &[u16]) -> Monomial
    requires few { length exponents.now ≤ VARIABLES }
    requires within { sum exponents.now ≤ DEGREE_LIMIT }
    ensures { result ≡ exponents.now ++ replicate (VARIABLES - length exponents.now) 0 }
{
    let mut all = [0; VARIABLES];
    all[..exponents.len()].copy_from_slice(exponents);
    match Monomial::from_exponents(all) {
        Some(monomial) => monomial,
        None => Monomial::one(),
    }
}

#[tactic(auto, unfolding(crate::specs::Polynomials::term_from))]
fn term_from(
    alloc: Global,
    values: &[Value],
    n: u8,
    fault: FileFault,
) -> Result<(Monomial, Residue), FamilyFault>
    requires { n ≤ VARIABLES }
    ensures { Gives (λ t. t) result (term_from fault n (map view values.now)) }
{
    let Some((first, others)) = values.split_first() else {
        return Err(FamilyFault::File(fault));
    };
    let coefficient = integer_in(first, fault)?;
    let exponents = collect_exponents(alloc, others, fault)?;
    if exponents.len() == usize::from(n) && degree_of(&exponents) <= DEGREE_LIMIT {
        Ok((monomial_of(&exponents), Residue::from_i64(coefficient)))
    } else {
        Err(FamilyFault::File(fault))
    }
}

#[tactic(auto, unfolding(crate::specs::Polynomials::term_in))]
fn term_in(
    alloc: Global,
    value: &Value,
    n: u8,
    fault: FileFault,
) -> Result<(Monomial, Residue), FamilyFault>
    requires { n ≤ VARIABLES }
    ensures { Gives (λ t. t) result (term_in fault n (view value.now)) }
{
    term_from(alloc, list_in(value, fault)?, n, fault)
}

fn collect_terms(
    alloc: Global,
    values: &[Value],
    n: u8,
    fault: FileFault,
) -> Result<Vec<(Monomial, Residue)>, FamilyFault>
    requires { n ≤ VARIABLES }
    ensures { Gives (λ v. v.items) result (collect (term_in fault n) (map view values.now)) }
{
    let mut terms = Vec::new(alloc);
    for value in values {
        terms.push(term_in(alloc, value, n, fault)?)?;
    }
    Ok(terms)
}

// The sum of the terms.
fn sum_of(alloc: Global, terms: &[(Monomial, Residue)]) -> Result<Poly, NoMemory>
    ensures { IfOk result (λ p. p ≡ normal_form deg_rev_lex terms.now) }
{
    let sum = Poly::from_terms(alloc, terms)?;
    Ok(sum)
}

#[tactic(auto, unfolding(crate::specs::Polynomials::terms_of))]
fn terms_of(alloc: Global, values: &[Value], n: u8, fault: FileFault) -> Result<Poly, FamilyFault>
    requires { n ≤ VARIABLES }
    ensures { Gives (λ p. p) result (terms_of fault n (map view values.now)) }
{
    if values.len() > TERM_LIMIT {
        return Err(FamilyFault::File(fault));
    }
    let terms = collect_terms(alloc, values, n, fault)?;
    Ok(sum_of(alloc, &terms)?)
}

/// A polynomial of n variables.
pub fn polynomial_in(
    alloc: Global,
    polynomial: PolynomialKey<'_>,
    n: u8,
    numbers: &Numbers,
    fault: FileFault,
) -> Result<Poly, FamilyFault>
    requires { n ≤ VARIABLES }
    ensures { Gives (λ p. p) result
        (polynomial_in fault n numbers.now (polynomial_view polynomial.entry)) }
{
    match polynomial {
        PolynomialKey::Terms(terms) => terms_of(alloc, terms, n, fault),
        PolynomialKey::Text(text) => text_in(alloc, text, n, numbers, fault),
    }
}

#[tactic(auto, unfolding(crate::specs::Polynomials::polynomial_value))]
fn polynomial_value(
    alloc: Global,
    value: &Value,
    n: u8,
    numbers: &Numbers,
    fault: FileFault,
) -> Result<Poly, FamilyFault>
    requires { n ≤ VARIABLES }
    ensures { Gives (λ p. p) result (polynomial_value fault n numbers.now (view value.now)) }
{
    polynomial_in(alloc, polynomial(value, fault)?, n, numbers, fault)
}

fn collect_polynomials(
    alloc: Global,
    values: &[Value],
    n: u8,
    numbers: &Numbers,
    fault: FileFault,
) -> Result<Vec<Poly>, FamilyFault>
    requires { n ≤ VARIABLES }
    ensures { Gives (λ v. v.items) result
        (collect (polynomial_value fault n numbers.now) (map view values.now)) }
{
    let mut polynomials = Vec::new(alloc);
    for value in values {
        polynomials.push(polynomial_value(alloc, value, n, numbers, fault)?)?;
    }
    Ok(polynomials)
}

/// n polynomials of n variables.
#[tactic(auto, unfolding(crate::specs::Polynomials::field_of))]
pub fn field_of(
    alloc: Global,
    values: &[Value],
    n: u8,
    numbers: &Numbers,
    fault: FileFault,
) -> Result<Vec<Poly>, FamilyFault>
    requires { n ≤ VARIABLES }
    ensures { Gives (λ v. v.items) result (field_of fault n numbers.now (map view values.now)) }
{
    if values.len() != usize::from(n) {
        return Err(FamilyFault::File(fault));
    }
    collect_polynomials(alloc, values, n, numbers, fault)
}
