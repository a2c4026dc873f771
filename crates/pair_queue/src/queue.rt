ghost use Rattle.std.specs.Prelude.{◌≡◌, ◌↔◌, [], ◌∷◌, length, IsNone, IfNone, IfSome, OnOk, OnErr};
ghost use Rattle.std.specs.List.{Contains};
ghost use Rattle.std.specs.List.Sorted.{IsStrictlySortedBy};
ghost use Rattle.pair_queue.specs.Pairs.{compare_by_lcm, compare_keyed, compare_pairs, insert_pair, has_pair};

use crate::order::PairOrder;
use ibp_base::NoMemory;
use mono_order::{Term, TermOrder};
use std::alloc::Global;
use std::cmp::Ordering;
use std::collections::BTreeSet;
use std::marker::{Model, PhantomData};

/// The numbers of two elements of a run, counted from 1, and the least common multiple of their leads.
#[derive(Clone, Copy, PartialEq, Eq, Debug)]
pub struct Pair {
    /// The number of the earlier element.
    pub first: u32,
    /// The number of the later element.
    pub second: u32,
    /// The least common multiple of the two leads.
    pub lcm: Term,
}

// A pair with the degree by which it is taken.
#[derive(Drop)]
struct Queued<O: TermOrder> {
    degree: u32,
    pair: Pair,
    order: PhantomData<O>,
}

impl<O: TermOrder> Model for Queued<O> {
    ghost use Rattle.std.specs.Prelude.{ℕ};
    ghost use Rattle.pair_queue.specs.declared.queue.Pair.{Pair};

    ghost Value = { ℕ × Pair };

    ghost view = { λ q. (q.degree, q.pair) };
}

impl<O: TermOrder> PartialEq for Queued<O> {
    ghost use Rattle.std.specs.Ordering.{is_eq};
    ghost use Rattle.std.specs.Cmp.{partial_equiv_from_equiv, eq_by_cmp_equiv};
    ghost use Rattle.pair_queue.specs.Pairs.{compare_keyed, compare_keyed_total};

    ghost eq = { λ x y. is_eq (compare_keyed O.order x y) };

    ghost laws = { partial_equiv_from_equiv (eq_by_cmp_equiv (compare_keyed_total O.order O.laws.total)) };

    fn eq(&self, other: &Self) -> bool {
        compare(self, other).is_eq()
    }
}

impl<O: TermOrder> Eq for Queued<O> {
    ghost use Rattle.std.specs.Cmp.{eq_by_cmp_equiv};
    ghost use Rattle.pair_queue.specs.Pairs.{compare_keyed_total};

    ghost laws = { eq_by_cmp_equiv (compare_keyed_total O.order O.laws.total) };
}

impl<O: TermOrder> PartialOrd for Queued<O> {
    ghost use Rattle.std.specs.Prelude.{Some, refl};
    ghost use Rattle.std.specs.Cmp.{partial_order_from_agreeing_total};
    ghost use Rattle.pair_queue.specs.Pairs.{compare_keyed, compare_keyed_total};

    ghost partial_cmp = { λ x y. Some (compare_keyed O.order x y) };

    ghost laws = { partial_order_from_agreeing_total (compare_keyed O.order) (compare_keyed_total O.order O.laws.total) (λ x y. refl) (λ x y. refl) };

    fn partial_cmp(&self, other: &Self) -> Option<Ordering> {
        Some(self.cmp(other))
    }
}

impl<O: TermOrder> Ord for Queued<O> {
    ghost use Rattle.std.specs.Prelude.{refl};
    ghost use Rattle.pair_queue.specs.Pairs.{compare_keyed, compare_keyed_total};

    ghost cmp = { compare_keyed O.order };

    ghost total = { compare_keyed_total O.order O.laws.total };

    ghost matches_partial_cmp = { λ x y. refl };

    ghost matches_eq = { λ x y. refl };

    fn cmp(&self, other: &Self) -> Ordering {
        compare(self, other)
    }
}

// By the degree, then by the least common multiple, then by the second number, then by the first.
fn compare<O: TermOrder>(left: &Queued<O>, right: &Queued<O>) -> Ordering
    ensures { result ≡ compare_keyed O.order left.now right.now }
{
    match left.degree.cmp(&right.degree) {
        Ordering::Equal => compare_in_degree::<O>(&left.pair, &right.pair),
        different => different,
    }
}

// Pairs of one degree.
fn compare_in_degree<O: TermOrder>(left: &Pair, right: &Pair) -> Ordering
    ensures { result ≡ compare_by_lcm O.order left.now right.now }
{
    match O::compare(&left.lcm, &right.lcm) {
        Ordering::Equal => match left.second.cmp(&right.second) {
            Ordering::Equal => left.first.cmp(&right.first),
            different => different,
        },
        different => different,
    }
}

/// Pairs that are taken in the pair order: by their degree in the order of pairs of the queue, then by the least common
/// multiple under the order `O`, then by the second number, then by the first. Contracts see the order of pairs, and
/// the list of the pairs in the pair order.
#[derive(Drop)]
pub struct PairQueue<O: TermOrder> {
    by: PairOrder,
    pairs: BTreeSet<Queued<O>>,
}

impl<O: TermOrder> Model for PairQueue<O> {
    ghost use Rattle.std.specs.Prelude.{map};
    ghost use Rattle.std.specs.List.{All};
    ghost use Rattle.pair_queue.specs.Pairs.{PairQueueValue, queue_value, IsKeyed};

    ghost Value = { PairQueueValue };

    ghost view = { λ q. queue_value q.by (map (λ k. k.1) q.pairs.keys) };

    ghost invariant = { λ q. All (IsKeyed q.by) q.pairs.keys };
}

impl<O: TermOrder> PairQueue<O> {
    /// No pairs, with the order in which they will be taken.
    pub fn empty(alloc: Global, by: PairOrder) -> PairQueue<O>
        ensures by { result.by ≡ by }
        ensures pairs { result.pairs ≡ [] }
    {
        PairQueue {
            by,
            pairs: BTreeSet::new(alloc),
        }
    }

    /// The number of pairs.
    pub fn len(&self) -> usize
        ensures length { result ≡ length self.now.pairs }
        ensures ordered { IsStrictlySortedBy (compare_pairs O.order self.now.by) self.now.pairs }
    {
        self.pairs.len()
    }

    /// Puts a pair at its place.
    pub fn push(&mut self, pair: Pair) -> Result<(), NoMemory>
        requires { ¬ (Contains self.old.pairs pair) }
        ensures added { OnOk result (self.new.pairs ≡ insert_pair (compare_pairs O.order self.old.by) pair self.old.pairs) }
        ensures by { self.new.by ≡ self.old.by }
        ensures kept { OnErr result (self.new ≡ self.old) }
    {
        let degree = self.by.degree(&pair.lcm);
        self.pairs.insert(Queued {
            degree,
            pair,
            order: PhantomData,
        })?;
        Ok(())
    }

    /// Takes the first pair.
    pub fn pop(&mut self) -> Option<Pair>
        ensures none { IsNone result ↔ (self.old.pairs ≡ []) }
        ensures first { IfSome result (λ pair. self.old.pairs ≡ pair ∷ self.new.pairs) }
        ensures by { self.new.by ≡ self.old.by }
        ensures kept { IfNone result (self.new ≡ self.old) }
    {
        let queued = self.pairs.pop_first()?;
        let Queued { pair, .. } = queued;
        Some(pair)
    }

    /// Whether a pair with these numbers is in the queue.
    pub fn contains(&self, first: u32, second: u32) -> bool
        ensures { result ≡ has_pair self.now.pairs first second }
    {
        self.pairs.iter().any(|queued| queued.pair.first == first && queued.pair.second == second)
    }
}
