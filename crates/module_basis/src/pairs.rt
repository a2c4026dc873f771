ghost use Rattle.std.specs.Prelude.{◌≡◌, ◌+◌, ◌^◌, ◌<◌, ◌↔◌, true, false, sum, length, [], ◌∷◌, IsNone, IfNone, IfSome, IfOk, OnOk};
ghost use Rattle.std.specs.List.{All};
ghost use Rattle.mono_order.specs.declared.limits.TheConstants.{RUN_DEGREE};
ghost use Rattle.mono_order.specs.Term.{lcm_term};
ghost use Rattle.module_vec.specs.ModuleVector.{IsMonic};
ghost use Rattle.pair_queue.specs.Pairs.{compare_pairs, insert_pairs};
ghost use Rattle.module_basis.specs.PlainRun.{AreNewPairs, pairs_with, has_pair_over, undropped, is_dropped as is_dropped_of, is_dropped_through as is_dropped_through_of, is_left as is_left_of};

use crate::fault::BasisFault;
use ibp_base::NoMemory;
use module_vec::Vector;
use mono_order::{RUN_DEGREE, Term, TermOrder};
use pair_queue::{Pair, PairQueue};
use std::alloc::Global;

// The pairs of a new element, whose lead is given, with the elements before it.
pub(crate) fn formed_pairs<O: TermOrder>(
    alloc: Global,
    elements: &[Vector<O>],
    new: &Term,
) -> Result<Vec<Pair>, BasisFault>
    requires monic { All IsMonic elements.now }
    requires few { length elements.now + 1 < 2 ^ 32 }
    ensures formed { IfOk result (λ pairs. pairs.items ≡ pairs_with (length elements.now + 1) new.now 1 elements.now) }
    ensures within { OnOk result (has_pair_over RUN_DEGREE (pairs_with (length elements.now + 1) new.now 1 elements.now) ≡ false) }
    ensures over { result ≡ Err BasisFault.DegreeOver → has_pair_over RUN_DEGREE (pairs_with (length elements.now + 1) new.now 1 elements.now) ≡ true }
    ensures not_spent { (result ≡ Err BasisFault.PairsSpent) → ⊥ }
{
    let second = elements.len() as u32 + 1;
    let mut pairs = Vec::new(alloc);
    for (place, element) in elements.iter().enumerate() {
        let lead = element.lead_term();
        if lead.component == new.component {
            let Some(pair) = pair_of(place as u32 + 1, second, &lead, new) else {
                return Err(BasisFault::DegreeOver);
            };
            pairs.push(pair)?;
        }
    }
    Ok(pairs)
}

// The pair of two elements with these leads, unless the degree of their least common multiple is above the limit.
fn pair_of(first: u32, second: u32, left: &Term, right: &Term) -> Option<Pair>
    ensures none { IsNone result ↔ (RUN_DEGREE < sum (lcm_term left.now right.now).1) }
    ensures pair { IfSome result (λ pair. pair ≡ record { first = first; second = second; lcm = lcm_term left.now right.now }) }
{
    let monomial = left.monomial.lcm(&right.monomial)?;
    if monomial.degree() > RUN_DEGREE {
        return None;
    }
    Some(Pair {
        first,
        second,
        lcm: Term {
            component: left.component,
            monomial,
        },
    })
}

// Puts new pairs at their places.
pub(crate) fn push_all<O: TermOrder>(
    queue: &mut PairQueue<O>,
    pairs: &[Pair],
) -> Result<(), NoMemory>
    requires { AreNewPairs (compare_pairs O.order queue.old.by) pairs.now queue.old.pairs }
    ensures added { OnOk result (queue.new.pairs ≡ insert_pairs (compare_pairs O.order queue.old.by) pairs.now queue.old.pairs) }
    ensures by { OnOk result (queue.new.by ≡ queue.old.by) }
{
    for pair in pairs {
        queue.push(*pair)?;
    }
    Ok(())
}

// Takes the pairs out of the queue that the chain criterion drops, and the first one that it does not drop.
pub(crate) fn next_undropped<O: TermOrder>(
    elements: &[Vector<O>],
    pairs: &mut PairQueue<O>,
) -> Option<Pair>
    requires monic { All IsMonic elements.now }
    requires few { length elements.now < 2 ^ 32 }
    ensures none { IsNone result ↔ (undropped elements.now pairs.old.pairs ≡ []) }
    ensures first { IfSome result (λ pair. undropped elements.now pairs.old.pairs ≡ pair ∷ pairs.new.pairs) }
    ensures empty { IfNone result (pairs.new.pairs ≡ []) }
    ensures by { pairs.new.by ≡ pairs.old.by }
{
    'pairs: while let Some(pair) = pairs.pop() {
        if !is_dropped(elements, pairs, &pair) {
            return Some(pair);
        }
    }
    None
}

// Whether some element drops a pair that is out of the queue.
fn is_dropped<O: TermOrder>(elements: &[Vector<O>], pairs: &PairQueue<O>, pair: &Pair) -> bool
    requires monic { All IsMonic elements.now }
    requires few { length elements.now < 2 ^ 32 }
    ensures { result ≡ is_dropped_of 1 elements.now pairs.now.pairs pair.now }
{
    for (place, element) in elements.iter().enumerate() {
        if is_dropped_through(pairs, pair, place as u32 + 1, &element.lead_term()) {
            return true;
        }
    }
    false
}

// Whether the element with this number and lead drops the pair: its lead divides the pair's least common multiple, and
// its pairs with the two elements are gone.
fn is_dropped_through<O: TermOrder>(
    pairs: &PairQueue<O>,
    pair: &Pair,
    number: u32,
    lead: &Term,
) -> bool
    ensures { result ≡ is_dropped_through_of pairs.now.pairs pair.now number lead.now }
{
    number != pair.first
        && number != pair.second
        && lead.divides(&pair.lcm)
        && !is_left(pairs, pair.first, number)
        && !is_left(pairs, pair.second, number)
}

// Whether the pair of two elements is in the queue.
fn is_left<O: TermOrder>(pairs: &PairQueue<O>, left: u32, right: u32) -> bool
    ensures { result ≡ is_left_of pairs.now.pairs left right }
{
    if left < right {
        pairs.contains(left, right)
    } else {
        pairs.contains(right, left)
    }
}
