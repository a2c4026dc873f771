ghost use Rattle.std.specs.Prelude.{◌≡◌, ◌<◌, ◌≤◌, ◌^◌, false, map, sum, length, IfOk};
ghost use Rattle.std.specs.List.{All, AllZip, prefix_len};
ghost use Rattle.std.specs.Ordering.{is_lt};
ghost use Rattle.mono_order.specs.declared.limits.TheConstants.{VARIABLES, RUN_DEGREE};
ghost use Rattle.ibp_algebra.specs.FormalSum.{AllKeys};
ghost use Rattle.module_vec.specs.ModuleVector.{IsMonic, IsMonicVector, IsVector, lead};
ghost use Rattle.module_vec.specs.Division.{DividesTo, Remainder};
ghost use Rattle.module_basis.specs.GroebnerBasis.{IsReducedLowBasis, IsTailReduced};
ghost use Rattle.module_basis.specs.Reducing.{Descends, IsSortedLow, IsKept};

use crate::basis::Basis;
use fast_division::{Dividend, LeadIndex, Multiples, remainder_by};
use ibp_base::{List, NoMemory};
use module_vec::{Vector, VectorFault};
use mono_order::{Term, TermOrder};
use std::alloc::Global;
use std::cmp::Ordering;

/// The reduced Gröbner basis, by ascending lead, of those members of the module that have no high component: of the
/// elements with low leads, those are left whose leads no other lead divides, and their tails are reduced.
///
/// Among low terms the degree comes first, so no division meets the limit on degrees.
pub fn reduced_low<O: TermOrder>(
    alloc: Global,
    basis: &Basis<O>,
) -> Result<List<Vector<O>>, NoMemory>
    ensures reduced { IfOk result (λ list. IsReducedLowBasis O.order VARIABLES O.high basis.now.elements list) }
    ensures short { IfOk result (λ list. length list ≤ length basis.now.elements) }
{
    let sorted = sorted_low(alloc, basis.elements())?;
    let (kept, index) = undivided(alloc, sorted)?;
    Ok(List::from_vec(with_reduced_tails(alloc, &kept, &index)?))
}

// The elements with low leads, in descending order.
fn sorted_low<O: TermOrder>(
    alloc: Global,
    elements: &[Vector<O>],
) -> Result<Vec<Vector<O>>, NoMemory>
    requires { All IsMonic elements.now }
    ensures { IfOk result (λ sorted. IsSortedLow O.order O.high elements.now sorted.items) }
{
    let mut sorted = Vec::new(alloc);
    for element in elements {
        let lead = element.lead_term();
        if !O::is_high(lead.component) {
            let place = place_of(&sorted, &lead);
            sorted.insert(place, element.copy(alloc)?)?;
        }
    }
    Ok(sorted)
}

// The number of the vectors in front whose leads are above the term.
fn place_of<O: TermOrder>(list: &[Vector<O>], term: &Term) -> usize
    requires { All IsMonic list.now }
    ensures place { result ≡ prefix_len (λ v. is_lt (O.order term.now (lead v))) list.now }
    ensures within { result ≤ length list.now }
{
    for (place, vector) in list.iter().enumerate() {
        if O::compare(term, &vector.lead_term()) != Ordering::Less {
            return place;
        }
    }
    list.len()
}

// What is left of a descending list, from its end on, with the index of its leads: a vector whose lead is divisible by
// one that stays is dropped.
fn undivided<O: TermOrder>(
    alloc: Global,
    mut sorted: Vec<Vector<O>>,
) -> Result<(Vec<Vector<O>>, LeadIndex<O>), NoMemory>
    requires descends { Descends O.order sorted.items }
    requires monic { All (IsMonicVector O.order VARIABLES) sorted.items }
    requires few { length sorted.items < 2 ^ 32 }
    ensures kept { IfOk result (λ r. IsKept O.order sorted.items r.0.items) }
    ensures index { IfOk result (λ r. r.1 ≡ map lead r.0.items) }
{
    let mut kept = Vec::new(alloc);
    let mut index = LeadIndex::empty(alloc);
    'vectors: while let Some(vector) = sorted.pop() {
        let lead = vector.lead_term();
        if index.first_divisor(&lead).is_none() {
            index.add(&lead)?;
            kept.push(vector)?;
        }
    }
    Ok((kept, index))
}

// The vectors of the list, each with the terms below its lead reduced by the list.
fn with_reduced_tails<O: TermOrder>(
    alloc: Global,
    list: &[Vector<O>],
    index: &LeadIndex<O>,
) -> Result<Vec<Vector<O>>, NoMemory>
    requires monic { All (IsMonicVector O.order VARIABLES) list.now }
    requires low { All (λ g. O.high (lead g).0 ≡ false) list.now }
    requires index { index.now ≡ map lead list.now }
    ensures { IfOk result (λ reduced. AllZip (IsTailReduced O.order VARIABLES list.now) list.now reduced.items) }
{
    let mut dividend = Dividend::over(alloc, list)?;
    let mut reduced = Vec::new(alloc);
    for vector in list {
        reduced.push(with_reduced_tail(alloc, &mut dividend, vector, list, index)?)?;
    }
    Ok(reduced)
}

// A vector of the list with the terms below its lead reduced by the list.
fn with_reduced_tail<O: TermOrder>(
    alloc: Global,
    dividend: &mut Dividend<O>,
    vector: &Vector<O>,
    list: &[Vector<O>],
    index: &LeadIndex<O>,
) -> Result<Vector<O>, NoMemory>
    requires monic { All (IsMonicVector O.order VARIABLES) list.now }
    requires index { index.now ≡ map lead list.now }
    requires first { IsMonicVector O.order VARIABLES vector.now }
    requires low { O.high (lead vector.now).0 ≡ false }
    ensures { IfOk result (λ r. IsTailReduced O.order VARIABLES list.now vector.now r) }
{
    let Some((first, tail)) = vector.terms().split_first() else {
        unreachable!()
    };
    let mut below = Vec::new(alloc);
    below.extend_from_slice(tail)?;
    let below = Vector::from_descending(below);
    let rest = low_remainder(alloc, dividend, &below, list, index)?;
    let mut terms = Vec::new(alloc);
    terms.push(*first)?;
    terms.extend_from_slice(rest.terms())?;
    Ok(Vector::from_descending(terms))
}

// The remainder of a low vector, whose division meets no limit.
fn low_remainder<O: TermOrder>(
    alloc: Global,
    dividend: &mut Dividend<O>,
    v: &Vector<O>,
    list: &[Vector<O>],
    index: &LeadIndex<O>,
) -> Result<Vector<O>, NoMemory>
    requires monic { All (IsMonicVector O.order VARIABLES) list.now }
    requires index { index.now ≡ map lead list.now }
    requires vector { IsVector O.order VARIABLES v.now }
    requires low { AllKeys (λ t. (O.high t.0 ≡ false) × (sum t.1 ≤ RUN_DEGREE)) v.now }
    ensures { IfOk result (λ r. DividesTo O.order RUN_DEGREE list.now v.now (Remainder r)) }
{
    let mut multiples = Multiples::none(alloc);
    match remainder_by(alloc, dividend, &mut multiples, v, list, index) {
        Ok(rest) => Ok(rest),
        Err(VectorFault::DegreeOver) => unreachable!(),
        Err(VectorFault::NoMemory) => Err(NoMemory),
    }
}
