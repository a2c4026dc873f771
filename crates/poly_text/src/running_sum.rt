//! Sums to which polynomials are added.

ghost use Rattle.std.specs.Prelude.{◌≡◌, ◌+◌, ◌^◌, ◌<◌, ◌≤◌, ◌++◌, length, IfOk, OnOk};
ghost use Rattle.ibp_algebra.specs.FormalSum.{IsCanonical, insert_term, scale};
ghost use Rattle.ibp_algebra.specs.Exponents.{deg_rev_lex};
ghost use Rattle.ibp_algebra.specs.Polynomial.{SamePolynomial};
ghost use Rattle.ibp_algebra.specs.Spans.{coefficient_by};
ghost use Rattle.poly_text.specs.Sum.{sum_of_both, sum_with_multiple, terms_of, IsCounted};

use crate::fault::TextFault;
use crate::key::Key;
use crate::value::added;
use ibp_base::NoMemory;
use ibp_field::Residue;
use mono_order::{DegRevLex, Monomial, MonomialOrder};
use sparse_poly::{Poly, TERM_LIMIT};
use std::alloc::{AllocError, Global};
use std::collections::BTreeMap;
use std::marker::Model;

/// The sum of some polynomials. The first stands as it is, and what the others add up to stands in a map, so that
/// one more term costs a few look-ups and not a pass over the whole. Contracts see it as the polynomial.
#[derive(Drop)]
pub struct RunningSum {
    first: Poly,
    // The coefficients of the sum of the others, none of them zero.
    others: BTreeMap<Key, Residue>,
    // The number of terms of the whole sum.
    len: usize,
}

impl Model for RunningSum {
    ghost use Rattle.ibp_algebra.specs.Polynomial.{Polynomial};
    ghost use Rattle.poly_text.specs.Sum.{sum_of_both, IsCounted};

    ghost Value = { Polynomial };

    ghost view = { λ s. sum_of_both s.first s.others.entries };

    ghost invariant = { λ s. IsCounted s.first s.others.entries s.len };
}

// The coefficient of a monomial.
fn coefficient(f: &Poly, monomial: &Monomial) -> Residue
    ensures { result ≡ coefficient_by deg_rev_lex f.now monomial.now }
{
    let terms = f.terms();
    match terms.binary_search_by(|term| DegRevLex::compare(monomial, &term.0)) {
        Ok(place) => terms[place].1,
        Err(_) => Residue::zero(),
    }
}

// Adds a term to the others, and gives the coefficient that its monomial had there.
fn add_to_others(
    others: &mut BTreeMap<Key, Residue>,
    monomial: Monomial,
    value: Residue,
) -> Result<Residue, AllocError>
    requires { IsCanonical deg_rev_lex others.old.entries }
    ensures before { IfOk result (λ before. before ≡ coefficient_by deg_rev_lex others.old.entries monomial) }
    ensures added { OnOk result (others.new.entries ≡ insert_term deg_rev_lex (monomial, value) others.old.entries) }
{
    let key = Key { monomial };
    let before = others.get(&key).copied().unwrap_or(Residue::zero());
    let sum = before.add(value);
    if sum == Residue::zero() {
        others.remove(&key);
    } else {
        others.insert(key, sum)?;
    }
    Ok(before)
}

// The number of terms where one coefficient changes.
fn len_after(len: usize, before: Residue, after: Residue) -> usize
    requires room { len + 1 < 2 ^ 64 }
    requires counted { terms_of before ≤ len }
    ensures { result + terms_of before ≡ len + terms_of after }
{
    let without = if before == Residue::zero() {
        len
    } else {
        len - 1
    };
    if after == Residue::zero() {
        without
    } else {
        without + 1
    }
}

// Adds a term, and gives the number of terms of the sum.
fn add_term(
    first: &Poly,
    others: &mut BTreeMap<Key, Residue>,
    len: usize,
    monomial: Monomial,
    value: Residue,
) -> Result<usize, AllocError>
    requires canonical { IsCanonical deg_rev_lex others.old.entries }
    requires counted { len ≡ length (sum_of_both first.now others.old.entries) }
    requires room { len + 1 < 2 ^ 64 }
    ensures added { OnOk result (others.new.entries ≡ insert_term deg_rev_lex (monomial, value) others.old.entries) }
    ensures counted { IfOk result (λ n. n ≡ length (sum_of_both first.now others.new.entries)) }
    ensures bounded { IfOk result (λ n. n ≤ len + 1) }
{
    let other = add_to_others(others, monomial, value)?;
    let before = coefficient(first, &monomial).add(other);
    Ok(len_after(len, before, before.add(value)))
}

// Adds a multiple of some terms, and gives the number of terms of the sum.
fn add_terms(
    first: &Poly,
    others: &mut BTreeMap<Key, Residue>,
    len: usize,
    factor: Residue,
    terms: &[(Monomial, Residue)],
) -> Result<usize, AllocError>
    requires { IsCounted first.now others.old.entries len }
    ensures canonical { OnOk result (IsCanonical deg_rev_lex others.new.entries) }
    ensures counted { IfOk result (λ n. n ≡ length (sum_of_both first.now others.new.entries)) }
    ensures sum { OnOk result (SamePolynomial others.new.entries (others.old.entries ++ scale factor terms.now)) }
{
    let mut count = len;
    for (monomial, value) in terms {
        count = add_term(first, others, count, *monomial, factor.mul(*value))?;
    }
    Ok(count)
}

// The terms of the sum of the others.
fn terms_in(
    alloc: Global,
    others: &BTreeMap<Key, Residue>,
) -> Result<Vec<(Monomial, Residue)>, AllocError>
    ensures { IfOk result (λ v. v.items ≡ others.now.entries) }
{
    let mut terms = Vec::new(alloc);
    for (key, value) in others {
        terms.push((key.monomial, *value))?;
    }
    Ok(terms)
}

impl RunningSum {
    /// One polynomial.
    pub fn of(alloc: Global, first: Poly) -> RunningSum
        ensures { result ≡ first }
    {
        let len = first.terms().len();
        RunningSum {
            first,
            others: BTreeMap::new(alloc),
            len,
        }
    }

    /// The polynomial.
    pub fn poly(self, alloc: Global) -> Result<Poly, NoMemory>
        ensures { IfOk result (λ f. f ≡ self) }
    {
        let RunningSum { first, others, .. } = self;
        if others.is_empty() {
            return Ok(first);
        }
        let others = Poly::from_terms(alloc, &terms_in(alloc, &others)?)?;
        added(alloc, &first, &others)
    }

    /// The number of terms.
    pub fn len(&self) -> usize
        ensures { result ≡ length self.now }
    {
        self.len
    }

    /// The sum with a multiple of one more polynomial, under the limit on terms.
    pub fn with_multiple(
        self,
        factor: Residue,
        f: &Poly,
        at: u32,
    ) -> Result<Result<RunningSum, TextFault>, NoMemory>
        ensures { IfOk result (λ s. s ≡ sum_with_multiple at factor self f.now) }
    {
        let RunningSum {
            first,
            mut others,
            len,
        } = self;
        let len = add_terms(&first, &mut others, len, factor, f.terms())?;
        if len > TERM_LIMIT {
            return Ok(Err(TextFault::TermsOver { at }));
        }
        Ok(Ok(RunningSum { first, others, len }))
    }
}
