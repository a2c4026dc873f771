ghost use Rattle.std.specs.Prelude.{◌≡◌, ◌≢◌, ◌+◌, ◌≤◌, [], ◌++◌, drop, sum, false, true, IfOk, OnOk};
ghost use Rattle.mono_order.specs.declared.limits.TheConstants.{VARIABLES, MONO_DEGREE, RUN_DEGREE};
ghost use Rattle.ibp_algebra.specs.FormalSum.{IsCanonical, normal_form, scale, with_term};
ghost use Rattle.mono_order.specs.Term.{multiply_term};
ghost use Rattle.module_vec.specs.ModuleVector.{IsVector, multiply_vector};
ghost use Rattle.module_vec.specs.Division.{is_over_degree};
ghost use Rattle.fast_division.specs.PartialSums.{place_of};

use ibp_field::Residue;
use module_vec::times;
use mono_order::{Monomial, RUN_DEGREE, Term, TermOrder};
use std::alloc::AllocError;
use std::cmp::Ordering;

// Writes the left sum plus `factor` times `by` times the right one, in one pass over both.
pub(crate) fn merge_multiple<O: TermOrder>(
    out: &mut Vec<(Term, Residue)>,
    left: &[(Term, Residue)],
    factor: Residue,
    by: &Monomial,
    right: &[(Term, Residue)],
) -> Result<(), AllocError>
    requires left { IsCanonical O.order left.now }
    requires right { IsVector O.order VARIABLES right.now }
    requires within { is_over_degree RUN_DEGREE (multiply_vector by.now right.now) ≡ false }
    ensures { OnOk result (out.new.items ≡ normal_form O.order (left.now ++ scale factor (multiply_vector by.now right.now))) }
{
    let _degree = by.degree();
    out.clear();
    out.reserve(left.len() + right.len())?;
    let mut i = 0;
    'right: for (term, value) in right {
        let key = times(term, by);
        let mut place = place_at::<O>(left, i, &key);
        'above: while is_above(place) {
            let first = left[i];
            push_term(out, first.0, first.1)?;
            i += 1;
            place = place_at::<O>(left, i, &key);
        }
        let product = factor.mul(*value);
        if is_tie(place) {
            push_term(out, key, left[i].1.add(product))?;
            i += 1;
        } else {
            push_term(out, key, product)?;
        }
    }
    'rest: while i < left.len() {
        let first = left[i];
        push_term(out, first.0, first.1)?;
        i += 1;
    }
    Ok(())
}

// How the term at a place compares with the key; past the end it is less.
fn place_at<O: TermOrder>(terms: &[(Term, Residue)], i: usize, key: &Term) -> Ordering
    ensures { result ≡ place_of O.order (drop i terms.now) key.now }
{
    if i < terms.len() {
        O::compare(&terms[i].0, key)
    } else {
        Ordering::Less
    }
}

fn is_above(place: Ordering) -> bool
    ensures above { result ≡ true → place ≡ Ordering.Greater }
    ensures other { result ≡ false → place ≢ Ordering.Greater }
{
    match place {
        Ordering::Greater => true,
        _ => false,
    }
}

fn is_tie(place: Ordering) -> bool
    ensures tie { result ≡ true → place ≡ Ordering.Equal }
    ensures other { result ≡ false → place ≢ Ordering.Equal }
{
    match place {
        Ordering::Equal => true,
        _ => false,
    }
}

// Puts a term at the end, unless its coefficient is zero.
fn push_term(terms: &mut Vec<(Term, Residue)>, key: Term, value: Residue) -> Result<(), AllocError>
    ensures { IfOk result (λ _. terms.new.items ≡ terms.old.items ++ with_term (key, value) []) }
{
    if value.value() != 0 {
        terms.push((key, value))?;
    }
    Ok(())
}

// Whether a term has a degree above the limit after the multiplication.
pub(crate) fn is_multiple_over(terms: &[(Term, Residue)], by: &Monomial) -> bool
    ensures { result ≡ is_over_degree RUN_DEGREE (multiply_vector by.now terms.now) }
{
    let degree = by.degree();
    for (term, _) in terms {
        if term.monomial.degree() + degree > RUN_DEGREE {
            return true;
        }
    }
    false
}
