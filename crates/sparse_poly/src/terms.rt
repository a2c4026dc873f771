// Lists of terms in descending order of their monomials.
ghost use Rattle.std.specs.Prelude.{◌≡◌, ◌+◌, ◌≤◌, ◌++◌, sum, IfOk};
ghost use Rattle.ibp_algebra.specs.FormalSum.{AllKeys, IsCanonical, map_keys, scale};
ghost use Rattle.ibp_algebra.specs.Exponents.{add_exponents, deg_rev_lex};
ghost use Rattle.ibp_algebra.specs.Polynomial.{SamePolynomial, multiply};

use ibp_field::Residue;
use mono_order::{DegRevLex, MONO_DEGREE, Monomial, MonomialOrder};
use sparse_terms::{KeyOrder, add_multiple, sum_of_terms};
use std::alloc::{AllocError, Global};
use std::cmp::Ordering;

// The order of monomials, as an order on keys.
struct ByMonomial;

impl KeyOrder<Monomial> for ByMonomial {
    ghost use Rattle.ibp_algebra.specs.Exponents.{deg_rev_lex};
    ghost use Rattle.ibp_algebra.specs.ExponentOrder.{deg_rev_lex_total, deg_rev_lex_unique};

    ghost order = { deg_rev_lex };

    ghost total = { deg_rev_lex_total };

    ghost unique = { deg_rev_lex_unique };

    fn compare(left: &Monomial, right: &Monomial) -> Ordering {
        DegRevLex::compare(left, right)
    }
}

/// The sum of these terms.
pub fn sum_of(
    alloc: Global,
    terms: &[(Monomial, Residue)],
) -> Result<Vec<(Monomial, Residue)>, AllocError>
    ensures sum { IfOk result (λ v. SamePolynomial v.items terms.now) }
    ensures canonical { IfOk result (λ v. IsCanonical deg_rev_lex v.items) }
{
    sum_of_terms::<Monomial, ByMonomial>(alloc, terms)
}

/// The left terms plus a multiple of the right ones.
pub fn plus_multiple(
    alloc: Global,
    left: &[(Monomial, Residue)],
    factor: Residue,
    right: &[(Monomial, Residue)],
) -> Result<Vec<(Monomial, Residue)>, AllocError>
    requires left { IsCanonical deg_rev_lex left.now }
    requires right { IsCanonical deg_rev_lex right.now }
    ensures sum { IfOk result (λ v. SamePolynomial v.items (left.now ++ scale factor right.now)) }
    ensures canonical { IfOk result (λ v. IsCanonical deg_rev_lex v.items) }
{
    add_multiple::<Monomial, ByMonomial>(alloc, left, factor, right)
}

/// The terms times one monomial.
fn shifted(
    alloc: Global,
    monomial: Monomial,
    terms: &[(Monomial, Residue)],
) -> Result<Vec<(Monomial, Residue)>, AllocError>
    requires canonical { IsCanonical deg_rev_lex terms.now }
    requires fits { AllKeys (λ m. sum monomial + sum m ≤ MONO_DEGREE) terms.now }
    ensures moved { IfOk result (λ v. v.items ≡ map_keys (add_exponents monomial) terms.now) }
    ensures canonical { IfOk result (λ v. IsCanonical deg_rev_lex v.items) }
{
    let mut moved = Vec::new(alloc);
    for (other, value) in terms {
        moved.push((monomial.product(other), *value))?;
    }
    Ok(moved)
}

/// The product.
pub fn product_of(
    alloc: Global,
    left: &[(Monomial, Residue)],
    right: &[(Monomial, Residue)],
) -> Result<Vec<(Monomial, Residue)>, AllocError>
    requires left { IsCanonical deg_rev_lex left.now }
    requires right { IsCanonical deg_rev_lex right.now }
    requires fits { AllKeys (λ m. AllKeys (λ k. sum m + sum k ≤ MONO_DEGREE) right.now) left.now }
    requires turned { AllKeys (λ m. AllKeys (λ k. sum m + sum k ≤ MONO_DEGREE) left.now) right.now }
    ensures product { IfOk result (λ v. SamePolynomial v.items (multiply left.now right.now)) }
    ensures canonical { IfOk result (λ v. IsCanonical deg_rev_lex v.items) }
{
    if left.len() <= right.len() {
        product_by_halves(alloc, left, right)
    } else {
        product_by_halves(alloc, right, left)
    }
}

// The product. The left terms are halved until one is left, and the products of the halves are added, so no
// list of all pairs is made.
fn product_by_halves(
    alloc: Global,
    left: &[(Monomial, Residue)],
    right: &[(Monomial, Residue)],
) -> Result<Vec<(Monomial, Residue)>, AllocError>
    requires right { IsCanonical deg_rev_lex right.now }
    requires fits { AllKeys (λ m. AllKeys (λ k. sum m + sum k ≤ MONO_DEGREE) right.now) left.now }
    ensures product { IfOk result (λ v. SamePolynomial v.items (multiply left.now right.now)) }
    ensures canonical { IfOk result (λ v. IsCanonical deg_rev_lex v.items) }
{
    if left.is_empty() {
        return Ok(Vec::new(alloc));
    }
    if left.len() == 1 {
        let term = left[0];
        let moved = shifted(alloc, term.0, right)?;
        return plus_multiple(alloc, &[], term.1, &moved);
    }
    let middle = left.len() / 2;
    let first = product_by_halves(alloc, &left[..middle], right)?;
    let second = product_by_halves(alloc, &left[middle..], right)?;
    plus_multiple(alloc, &first, Residue::one(), &second)
}
