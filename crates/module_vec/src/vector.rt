ghost use Rattle.std.specs.Prelude.{◌≡◌, ◌≢◌, ◌<◌, ◌≤◌, ◌+◌, ◌↔◌, true, false, sum, [], ◌++◌, IsFalse, IsNone, IfSome, IfOk, OnOk};
ghost use Rattle.mono_order.specs.declared.limits.TheConstants.{VARIABLES, RUN_DEGREE};
ghost use Rattle.ibp_algebra.specs.FormalSum.{AllKeys, IsCanonical, normal_form, scale};
ghost use Rattle.mono_order.specs.Term.{IsTerm, multiply_term};
ghost use Rattle.module_vec.specs.ModuleVector.{SameVector, IsMonic, IsVector, IsMonicVector, IsConstantMultiple, multiply_vector, component_of, lead, lead_coefficient};
ghost use Rattle.module_vec.specs.Division.{is_over_degree, subtract_multiple};

use crate::fault::VectorFault;
use ibp_base::{List, NoMemory};
use ibp_field::Residue;
use mono_order::{MONO_DEGREE, Monomial, RUN_DEGREE, Term, TermOrder};
use sparse_terms::{KeyOrder, add_multiple, sum_of_terms};
use std::alloc::{AllocError, Global};
use std::cmp::Ordering;
use std::marker::{Model, PhantomData};

// The order of terms, as an order on keys.
struct ByTerm<O: TermOrder> {
    order: PhantomData<O>,
}

impl<O: TermOrder> KeyOrder<Term> for ByTerm<O> {
    ghost order = { O.order };

    ghost total = { O.laws.total };

    ghost unique = { O.laws.unique };

    fn compare(left: &Term, right: &Term) -> Ordering {
        O::compare(left, right)
    }
}

/// A vector of a free module, with terms of degree at most `RUN_DEGREE`. Contracts see it as the list of
/// its terms, greatest first by the order `O`.
#[derive(Drop)]
pub struct Vector<O: TermOrder> {
    terms: Vec<(Term, Residue)>,
    order: PhantomData<O>,
}

impl<O: TermOrder> Model for Vector<O> {
    ghost use Rattle.std.specs.Prelude.{List, ℕ, ◌≤◌, sum};
    ghost use Rattle.mono_order.specs.declared.limits.TheConstants.{VARIABLES, RUN_DEGREE};
    ghost use Rattle.ibp_algebra.specs.FormalSum.{AllKeys};
    ghost use Rattle.module_vec.specs.ModuleVector.{IsVector};

    ghost Value = { List ((ℕ × List ℕ) × ℕ) };

    ghost view = { λ v. v.terms.items };

    ghost invariant = { λ v. IsVector O.order VARIABLES v.terms.items × AllKeys (λ t. sum t.1 ≤ RUN_DEGREE) v.terms.items };
}

impl<O: TermOrder> Vector<O> {
    /// The sum of the terms, in any order and with repeats.
    pub fn from_terms(alloc: Global, terms: &[(Term, Residue)]) -> Result<Vector<O>, VectorFault>
        ensures sum { IfOk result (λ v. SameVector v terms.now) }
        ensures canonical { IfOk result (λ v. IsVector O.order VARIABLES v) }
        ensures within { OnOk result (is_over_degree RUN_DEGREE terms.now ≡ false) }
        ensures over { result ≡ Err VectorFault.DegreeOver → is_over_degree RUN_DEGREE terms.now ≡ true }
    {
        if is_over(terms) {
            return Err(VectorFault::DegreeOver);
        }
        Ok(Vector {
            terms: terms_of_sum::<O>(alloc, terms)?,
            order: PhantomData,
        })
    }

    /// The vector of terms that stand greatest first.
    pub fn from_descending(terms: Vec<(Term, Residue)>) -> Vector<O>
        requires vector { IsVector O.order VARIABLES terms.items }
        requires within { AllKeys (λ t. sum t.1 ≤ RUN_DEGREE) terms.items }
        ensures { result ≡ terms.items }
    {
        Vector {
            terms,
            order: PhantomData,
        }
    }

    /// The same vector.
    pub fn copy(&self, alloc: Global) -> Result<Vector<O>, NoMemory>
        ensures { IfOk result (λ v. v ≡ self.now) }
    {
        Ok(Vector {
            terms: self.terms.to_vec(alloc)?,
            order: PhantomData,
        })
    }

    /// All terms, greatest first.
    pub fn terms(&self) -> &[(Term, Residue)]
        ensures same { result.now ≡ self.now }
        ensures canonical { IsVector O.order VARIABLES self.now }
        ensures bounded { AllKeys (λ t. sum t.1 ≤ RUN_DEGREE) self.now }
    {
        &self.terms
    }

    /// The greatest term with its coefficient.
    pub fn lead(&self) -> Option<(Term, Residue)>
        ensures none { IsNone result ↔ (self.now ≡ []) }
        ensures term { IfSome result (λ t. t.0 ≡ lead self.now) }
        ensures coefficient { IfSome result (λ t. t.1 ≡ lead_coefficient self.now) }
        ensures kept { IsVector O.order VARIABLES self.now }
    {
        self.terms.first().copied()
    }

    /// This vector minus `factor` times `by` times the other one.
    pub fn sub_multiple(
        &self,
        alloc: Global,
        factor: Residue,
        by: &Monomial,
        other: &Vector<O>,
    ) -> Result<Vector<O>, VectorFault>
        requires { 0 < factor }
        ensures difference { IfOk result (λ v. v ≡ subtract_multiple O.order self.now factor by.now other.now) }
        ensures within { OnOk result (is_over_degree RUN_DEGREE (multiply_vector by.now other.now) ≡ false) }
        ensures over { result ≡ Err VectorFault.DegreeOver → is_over_degree RUN_DEGREE (multiply_vector by.now other.now) ≡ true }
    {
        let multiple = other.shift(alloc, by)?;
        Ok(Vector {
            terms: sum_with_multiple::<O>(alloc, self.terms(), factor.neg(), multiple.terms())?,
            order: PhantomData,
        })
    }

    /// The product with a monomial.
    pub fn shift(&self, alloc: Global, by: &Monomial) -> Result<Vector<O>, VectorFault>
        ensures product { IfOk result (λ v. v ≡ multiply_vector by.now self.now) }
        ensures within { OnOk result (is_over_degree RUN_DEGREE (multiply_vector by.now self.now) ≡ false) }
        ensures over { result ≡ Err VectorFault.DegreeOver → is_over_degree RUN_DEGREE (multiply_vector by.now self.now) ≡ true }
    {
        let degree = by.degree();
        let mut terms = Vec::new(alloc);
        for (term, value) in self.terms() {
            if degree_of(term) + degree > RUN_DEGREE {
                return Err(VectorFault::DegreeOver);
            }
            terms.push((times(term, by), *value))?;
        }
        Ok(Vector {
            terms,
            order: PhantomData,
        })
    }

    /// The lead of a monic vector.
    pub fn lead_term(&self) -> Term
        requires { IsMonic self.now }
        ensures lead { result ≡ lead self.now }
        ensures kept { IsVector O.order VARIABLES self.now }
    {
        let Some((term, _)) = self.lead() else {
            unreachable!()
        };
        term
    }

    /// This vector divided by the coefficient of its lead: the one multiple by a constant that is monic.
    pub fn monic(&self, alloc: Global) -> Result<Vector<O>, NoMemory>
        requires { self.now ≢ [] }
        ensures monic { IfOk result (λ v. IsMonicVector O.order VARIABLES v) }
        ensures multiple { IfOk result (λ v. IsConstantMultiple self.now v) }
        ensures kept { IsVector O.order VARIABLES self.now }
    {
        let terms = self.terms();
        let Some((_, coefficient)) = self.lead() else {
            unreachable!()
        };
        let Some(inverse) = coefficient.inverse() else {
            unreachable!()
        };
        Ok(Vector {
            terms: sum_with_multiple::<O>(alloc, &[], inverse, terms)?,
            order: PhantomData,
        })
    }

    /// The terms of one component without it, greatest first.
    pub fn component(
        &self,
        alloc: Global,
        component: u8,
    ) -> Result<List<(Monomial, Residue)>, NoMemory>
        ensures terms { IfOk result (λ terms. terms ≡ component_of component self.now) }
        ensures bounded { IfOk result (λ terms. AllKeys (λ m. sum m ≤ RUN_DEGREE) terms) }
    {
        let mut terms = Vec::new(alloc);
        for (term, value) in self.terms() {
            if term.component == component {
                terms.push((term.monomial, *value))?;
            }
        }
        Ok(List::from_vec(terms))
    }
}

// Whether a term has a degree above the limit.
fn is_over(terms: &[(Term, Residue)]) -> bool
    ensures over { result ≡ is_over_degree RUN_DEGREE terms.now }
    ensures kept { IsFalse result → AllKeys (IsTerm VARIABLES) terms.now }
{
    for (term, _) in terms {
        if degree_of(term) > RUN_DEGREE {
            return true;
        }
    }
    false
}

// The total degree of a term.
fn degree_of(term: &Term) -> u16
    ensures degree { result ≡ sum term.now.1 }
    ensures bounded { result ≤ MONO_DEGREE }
    ensures kept { IsTerm VARIABLES term.now }
{
    let _component = term.component;
    term.monomial.degree()
}

/// The product of a term with a monomial, where its degree is within the limit.
pub fn times(term: &Term, by: &Monomial) -> Term
    requires { sum term.now.1 + sum by.now ≤ MONO_DEGREE }
    ensures { result ≡ multiply_term by.now term.now }
{
    Term {
        component: term.component,
        monomial: by.product(&term.monomial),
    }
}

// The sum of the terms, in normal form.
fn terms_of_sum<O: TermOrder>(
    alloc: Global,
    terms: &[(Term, Residue)],
) -> Result<Vec<(Term, Residue)>, AllocError>
    ensures { IfOk result (λ v. v.items ≡ normal_form O.order terms.now) }
{
    sum_of_terms::<Term, ByTerm<O>>(alloc, terms)
}

// The sum of one vector and a multiple of another one, in normal form.
fn sum_with_multiple<O: TermOrder>(
    alloc: Global,
    left: &[(Term, Residue)],
    factor: Residue,
    right: &[(Term, Residue)],
) -> Result<Vec<(Term, Residue)>, AllocError>
    requires left { IsCanonical O.order left.now }
    requires right { IsCanonical O.order right.now }
    ensures { IfOk result (λ v. v.items ≡ normal_form O.order (left.now ++ scale factor right.now)) }
{
    add_multiple::<Term, ByTerm<O>>(alloc, left, factor, right)
}
