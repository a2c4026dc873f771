ghost use Rattle.std.specs.Prelude.{◌≡◌, ◌<◌, true, false, IsNone, IfSome, IfOk, OnOk};
ghost use Rattle.std.specs.List.{All};
ghost use Rattle.mono_order.specs.declared.limits.TheConstants.{VARIABLES, RUN_DEGREE};
ghost use Rattle.mono_order.specs.Term.{divides};
ghost use Rattle.module_vec.specs.ModuleVector.{IsMonic, IsMonicVector, lead, multiple_value};
ghost use Rattle.module_vec.specs.Division.{Remainder, OverDegree, DividesTo, first_divisor, is_over_degree, multiple_with_lead, subtract_multiple};

use ibp_field::Residue;
use module_vec::{Vector, VectorFault};
use mono_order::{Term, TermOrder};
use std::alloc::Global;

/// The remainder of a vector by a list of monic vectors. The first one whose lead divides the lead of what is
/// left is subtracted in the fitting multiple; where there is none, the lead's term belongs to the remainder.
///
/// The terms of the remainder stay in front of what is left, so that one vector holds both.
/// There is one remainder, or the division is over-degree (`laws::unique_division`, `laws::some_division`), and it is
/// the textbook's (`laws::remainder`).
pub fn normal_form<O: TermOrder>(
    alloc: Global,
    v: &Vector<O>,
    list: &[Vector<O>],
) -> Result<Vector<O>, VectorFault>
    requires { All IsMonic list.now }
    ensures remainder { IfOk result (λ r. DividesTo O.order RUN_DEGREE list.now v.now (Remainder r)) }
    ensures within { OnOk result (¬ DividesTo O.order RUN_DEGREE list.now v.now OverDegree) }
    ensures over { result ≡ Err VectorFault.DegreeOver → DividesTo O.order RUN_DEGREE list.now v.now OverDegree }
{
    let mut rest = v.copy(alloc)?;
    let mut settled = 0;
    'steps: while settled < rest.terms().len() {
        let item = rest.terms()[settled];
        match find_divisor(list, &item.0) {
            Some(divisor) => rest = cancelled(alloc, &rest, &item.0, item.1, divisor)?,
            None => settled += 1,
        }
    }
    Ok(rest)
}

/// The first vector of the list whose lead divides the term.
pub fn find_divisor<'a, O: TermOrder>(list: &'a [Vector<O>], term: &Term) -> Option<&'a Vector<O>>
    requires { All IsMonic list.now }
    ensures none { IsNone result → first_divisor list.now term.now ≡ None }
    ensures first { IfSome result (λ g. first_divisor list.now term.now ≡ Some g.now) }
    ensures divides { IfSome result (λ g. divides (lead g.now) term.now ≡ true) }
    ensures monic { IfSome result (λ g. IsMonicVector O.order VARIABLES g.now) }
{
    for divisor in list {
        if divisor.lead_term().divides(term) {
            return Some(divisor);
        }
    }
    None
}

// The vector without a term of it, by the multiple of the divisor that has this term as its lead.
fn cancelled<O: TermOrder>(
    alloc: Global,
    rest: &Vector<O>,
    term: &Term,
    coefficient: Residue,
    divisor: &Vector<O>,
) -> Result<Vector<O>, VectorFault>
    requires monic { IsMonic divisor.now }
    requires divides { divides (lead divisor.now) term.now ≡ true }
    requires positive { 0 < coefficient }
    ensures difference { IfOk result (λ w. w ≡ subtract_multiple O.order rest.now coefficient (multiple_with_lead term.now divisor.now).0 divisor.now) }
    ensures within { OnOk result (is_over_degree RUN_DEGREE (multiple_value (multiple_with_lead term.now divisor.now)) ≡ false) }
    ensures over { result ≡ Err VectorFault.DegreeOver → is_over_degree RUN_DEGREE (multiple_value (multiple_with_lead term.now divisor.now)) ≡ true }
{
    let lead = divisor.lead_term();
    let by = term.monomial.quotient(&lead.monomial);
    rest.sub_multiple(alloc, coefficient, &by, divisor)
}
