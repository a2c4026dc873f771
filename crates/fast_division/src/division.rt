ghost use Rattle.std.specs.Prelude.{◌≡◌, [], ◌∷◌, map, drop, length, get_or, sum, true, false, IfOk, OnOk, ◌<◌, ◌≤◌, ◌^◌};
ghost use Rattle.std.specs.List.{All};
ghost use Rattle.mono_order.specs.declared.limits.TheConstants.{VARIABLES, RUN_DEGREE};
ghost use Rattle.mono_order.specs.Term.{divides, multiply_term};
ghost use Rattle.module_vec.specs.ModuleVector.{IsMonic, IsVector, lead, multiply_vector, multiple_value};
ghost use Rattle.fast_division.specs.Kept.{AreRowsOf};
ghost use Rattle.module_vec.specs.Division.{Remainder, OverDegree, DividesTo, is_over_degree, multiple_with_lead, subtract_multiple};

use crate::dividend::Dividend;
use crate::index::LeadIndex;
use crate::kept::Multiples;
use ibp_base::NoMemory;
use ibp_field::Residue;
use module_vec::{Vector, VectorFault};
use mono_order::{Monomial, Term, TermOrder};
use std::alloc::Global;

/// The remainder of a vector by a list of monic vectors, as `normal_form` of `module_division` has it: the first
/// one whose lead divides the lead of what is left is subtracted in the fitting multiple, and where there is none,
/// the lead's term belongs to the remainder. The index has the leads of the list.
pub fn normal_form_fast<O: TermOrder>(
    alloc: Global,
    v: &Vector<O>,
    list: &[Vector<O>],
    index: &LeadIndex<O>,
) -> Result<Vector<O>, VectorFault>
    requires monic { All IsMonic list.now }
    requires index { index.now ≡ map lead list.now }
    ensures remainder { IfOk result (λ r. DividesTo O.order RUN_DEGREE list.now v.now (Remainder r)) }
    ensures within { OnOk result (¬ DividesTo O.order RUN_DEGREE list.now v.now OverDegree) }
    ensures over { result ≡ Err VectorFault.DegreeOver → DividesTo O.order RUN_DEGREE list.now v.now OverDegree }
{
    let mut rest = Dividend::over(alloc, list)?;
    let mut multiples = Multiples::none(alloc);
    remainder_by(alloc, &mut rest, &mut multiples, v, list, index)
}

/// The remainder of a vector as `normal_form_fast` gives it, by a dividend whose memory serves one division after another,
/// with the places of multiples that came up in them. What the dividend is before does not matter.
pub fn remainder_by<O: TermOrder>(
    alloc: Global,
    rest: &mut Dividend<O>,
    multiples: &mut Multiples<O>,
    v: &Vector<O>,
    list: &[Vector<O>],
    index: &LeadIndex<O>,
) -> Result<Vector<O>, VectorFault>
    requires monic { All IsMonic list.now }
    requires index { index.now ≡ map lead list.now }
    requires multiples { AreRowsOf O.high list.now multiples.old }
    ensures remainder { IfOk result (λ r. DividesTo O.order RUN_DEGREE list.now v.now (Remainder r)) }
    ensures within { OnOk result (¬ DividesTo O.order RUN_DEGREE list.now v.now OverDegree) }
    ensures over { result ≡ Err VectorFault.DegreeOver → DividesTo O.order RUN_DEGREE list.now v.now OverDegree }
    ensures multiples { AreRowsOf O.high list.now multiples.new }
{
    rest.assign(v)?;
    drain_remainder(alloc, rest, multiples, list, index)
}

/// The index of the leads of a list of monic vectors.
pub fn index_leads<O: TermOrder>(
    alloc: Global,
    list: &[Vector<O>],
) -> Result<LeadIndex<O>, NoMemory>
    requires few { length list.now < 2 ^ 32 }
    requires monic { All IsMonic list.now }
    ensures { IfOk result (λ x. x ≡ map lead list.now) }
{
    let mut index = LeadIndex::empty(alloc);
    for vector in list {
        index.add(&vector.lead_term())?;
    }
    Ok(index)
}

// The remainder of what is left.
fn drain_remainder<O: TermOrder>(
    alloc: Global,
    rest: &mut Dividend<O>,
    multiples: &mut Multiples<O>,
    list: &[Vector<O>],
    index: &LeadIndex<O>,
) -> Result<Vector<O>, VectorFault>
    requires monic { All IsMonic list.now }
    requires index { index.now ≡ map lead list.now }
    requires multiples { AreRowsOf O.high list.now multiples.old }
    ensures remainder { IfOk result (λ r. DividesTo O.order RUN_DEGREE list.now rest.old (Remainder r)) }
    ensures over { result ≡ Err VectorFault.DegreeOver → DividesTo O.order RUN_DEGREE list.now rest.old OverDegree }
    ensures multiples { AreRowsOf O.high list.now multiples.new }
{
    let mut settled = Vec::new(alloc);
    'steps: while let Some(item) = rest.take_lead() {
        match index.first_divisor(&item.0) {
            Some(number) => cancel(alloc, rest, multiples, &item.0, item.1, list, number)?,
            None => settled.push(item)?,
        }
    }
    Ok(Vector::from_descending(settled))
}

// Takes off the multiple of the divisor with this number whose lead is this term, which was taken off already.
fn cancel<O: TermOrder>(
    alloc: Global,
    rest: &mut Dividend<O>,
    multiples: &mut Multiples<O>,
    term: &Term,
    coefficient: Residue,
    list: &[Vector<O>],
    number: u32,
) -> Result<(), VectorFault>
    requires number { number < length list.now }
    requires monic { IsMonic (get_or list.now number []) }
    requires divides { divides (lead (get_or list.now number [])) term.now ≡ true }
    requires small { sum term.now.1 ≤ RUN_DEGREE }
    requires multiples { AreRowsOf O.high list.now multiples.old }
    ensures difference { let divisor = get_or list.now number [] in
        OnOk result (rest.new ≡ subtract_multiple O.order ((term.now, coefficient) ∷ rest.old) coefficient (multiple_with_lead term.now divisor).0 divisor) }
    ensures within { OnOk result (is_over_degree RUN_DEGREE (multiple_value (multiple_with_lead term.now (get_or list.now number []))) ≡ false) }
    ensures over { result ≡ Err VectorFault.DegreeOver → is_over_degree RUN_DEGREE (multiple_value (multiple_with_lead term.now (get_or list.now number []))) ≡ true }
    ensures vector { IsVector O.order VARIABLES (get_or list.now number []) }
    ensures multiples { AreRowsOf O.high list.now multiples.new }
{
    let _bounded = coefficient.value();
    let by = quotient_by_lead(term, &list[number as usize]);
    let tail = tail_of(list, number);
    if let Some(row) = multiples.find(rest.lead(), number, &by) {
        rest.sub_kept(coefficient, row, tail)?;
        return Ok(());
    }
    rest.sub_terms(coefficient, &by, tail)?;
    keep_places(alloc, rest, multiples, list, number, &by)?;
    Ok(())
}

// The terms behind the lead of a divisor.
fn tail_of<O: TermOrder>(list: &[Vector<O>], number: u32) -> &[(Term, Residue)]
    requires number { number < length list.now }
    requires monic { IsMonic (get_or list.now number []) }
    ensures tail { result.now ≡ drop 1 (get_or list.now number []) }
    ensures vector { IsVector O.order VARIABLES result.now }
    ensures whole { IsVector O.order VARIABLES (get_or list.now number []) }
{
    let terms = list[number as usize].terms();
    if terms.is_empty() {
        unreachable!()
    }
    &terms[1..]
}

// Keeps where the terms behind the lead of a multiple stand, when it comes for the second time.
fn keep_places<O: TermOrder>(
    alloc: Global,
    rest: &Dividend<O>,
    multiples: &mut Multiples<O>,
    list: &[Vector<O>],
    number: u32,
    by: &Monomial,
) -> Result<(), NoMemory>
    requires number { number < length list.now }
    requires monic { IsMonic (get_or list.now number []) }
    requires within { is_over_degree RUN_DEGREE (multiply_vector by.now (drop 1 (get_or list.now number []))) ≡ false }
    requires multiples { AreRowsOf O.high list.now multiples.old }
    ensures { AreRowsOf O.high list.now multiples.new }
{
    let tail = tail_of(list, number);
    if !multiples.note(rest.lead(), tail.len()) {
        return Ok(());
    }
    let Some(row) = rest.row(alloc, number, by, tail)? else {
        return Ok(());
    };
    multiples.push(rest.lead(), row)
}

// The monomial whose product with the lead is the term.
fn quotient_by_lead<O: TermOrder>(term: &Term, divisor: &Vector<O>) -> Monomial
    requires monic { IsMonic divisor.now }
    requires divides { divides (lead divisor.now) term.now ≡ true }
    ensures quotient { result ≡ (multiple_with_lead term.now divisor.now).0 }
    ensures product { multiply_term result (lead divisor.now) ≡ term.now }
{
    let Some((lead, _)) = divisor.lead() else {
        unreachable!()
    };
    let _degree = term.monomial.degree();
    term.monomial.quotient(&lead.monomial)
}
