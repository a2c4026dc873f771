//! Finite maps from keys to residues that are not zero, as lists of terms in descending order of their
//! keys. Polynomials, vectors and rows are such lists, and differ in their keys alone.
#![tactic(auto)]

ghost use Rattle.std.specs.Prelude.{◌≡◌, ◌≢◌, [], ◌∷◌, ◌++◌, IfOk, IsPermutation};
ghost use Rattle.std.specs.declared.cmp.Ordering.{Ordering};
ghost use Rattle.std.specs.declared.cmp.Ordering.TheVariants.{Less};
ghost use Rattle.std.specs.Ordering.{eq_by_cmp};
ghost use Rattle.std.specs.Cmp.{IsTotalOrder};
ghost use Rattle.std.specs.FinMap.{IsAntisymmetric};
ghost use Rattle.ibp_algebra.specs.FormalSum.{SameCoefficients, AllKeys, IsCanonical, Descends, scale, with_term, normal_form};

pub mod laws;

use ibp_field::Residue;
use std::alloc::{AllocError, Global};
use std::cmp::Ordering;

/// An order on keys. Equal keys are identical.
pub trait KeyOrder<K> {
    /// The order.
    ghost order: { K → K → Ordering };

    /// How the left key compares with the right one.
    fn compare(left: &K, right: &K) -> Ordering
        ensures { result ≡ order left.now right.now };

    /// Any two keys compare, and one way.
    ghost total: { IsTotalOrder order };

    /// Keys that compare equal are one key.
    ghost unique: { IsAntisymmetric order };
}

/// The map of the sum of these terms, greatest key first. Keys may repeat, in any order.
pub fn sum_of_terms<K: Copy, O: KeyOrder<K>>(
    alloc: Global,
    terms: &[(K, Residue)],
) -> Result<Vec<(K, Residue)>, AllocError>
    ensures sum { IfOk result (λ v. SameCoefficients (eq_by_cmp O.order) v.items terms.now) }
    ensures canonical { IfOk result (λ v. IsCanonical O.order v.items) }
{
    let mut sorted = Vec::new(alloc);
    for term in terms {
        sorted.push(*term)?;
    }
    sort_terms::<K, O>(&mut sorted);
    let mut joined = Vec::new(alloc);
    for term in &sorted {
        append_term::<K, O>(&mut joined, term.0, term.1)?;
    }
    Ok(joined)
}

/// The left map plus a multiple of the right one, greatest key first, in one pass over both.
pub fn add_multiple<K: Copy, O: KeyOrder<K>>(
    alloc: Global,
    left: &[(K, Residue)],
    factor: Residue,
    right: &[(K, Residue)],
) -> Result<Vec<(K, Residue)>, AllocError>
    requires left { IsCanonical O.order left.now }
    requires right { IsCanonical O.order right.now }
    ensures sum { IfOk result (λ v. SameCoefficients (eq_by_cmp O.order) v.items (left.now ++ scale factor right.now)) }
    ensures canonical { IfOk result (λ v. IsCanonical O.order v.items) }
{
    let mut terms = Vec::new(alloc);
    let mut i = 0;
    let mut j = 0;
    'both: while i < left.len() && j < right.len() {
        let first = left[i];
        let second = right[j];
        match O::compare(&first.0, &second.0) {
            Ordering::Greater => {
                push_term(&mut terms, first.0, first.1)?;
                i += 1;
            }
            Ordering::Less => {
                push_term(&mut terms, second.0, factor.mul(second.1))?;
                j += 1;
            }
            Ordering::Equal => {
                push_term(&mut terms, first.0, first.1.add_product(factor, second.1))?;
                i += 1;
                j += 1;
            }
        }
    }
    'left: while i < left.len() {
        let first = left[i];
        push_term(&mut terms, first.0, first.1)?;
        i += 1;
    }
    'right: while j < right.len() {
        let second = right[j];
        push_term(&mut terms, second.0, factor.mul(second.1))?;
        j += 1;
    }
    Ok(terms)
}

// Greatest first.
fn sort_terms<K: Copy, O: KeyOrder<K>>(terms: &mut Vec<(K, Residue)>)
    ensures permutation { IsPermutation terms.old.items terms.new.items }
    ensures descends { Descends O.order terms.new.items }
{
    terms.sort_unstable_by(|a, b| O::compare(&b.0, &a.0));
}

// Puts a term at the end, unless its coefficient is zero.
fn push_term<K: Copy>(
    terms: &mut Vec<(K, Residue)>,
    key: K,
    value: Residue,
) -> Result<(), AllocError>
    ensures { IfOk result (λ _. terms.new.items ≡ terms.old.items ++ with_term (key, value) []) }
{
    if value.value() != 0 {
        terms.push((key, value))?;
    }
    Ok(())
}

// Adds a term. No key is below that of the term.
fn append_term<K: Copy, O: KeyOrder<K>>(
    terms: &mut Vec<(K, Residue)>,
    key: K,
    value: Residue,
) -> Result<(), AllocError>
    requires canonical { IsCanonical O.order terms.old.items }
    requires last { AllKeys (λ k. O.order k key ≢ Less) terms.old.items }
    ensures { IfOk result (λ _. terms.new.items ≡ normal_form O.order (terms.old.items ++ (key, value) ∷ [])) }
{
    if let Some((last, sum)) = terms.last().copied() {
        if O::compare(&last, &key).is_eq() {
            terms.pop();
            return push_term(terms, key, sum.add(value));
        }
    }
    push_term(terms, key, value)
}
