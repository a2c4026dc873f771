ghost use Rattle.std.specs.Prelude.{◌≡◌, ◌≢◌, ◌+◌, ◌-◌, ◌^◌, ◌<◌, ◌↔◌, ◌⊎◌, true, false, length, map, get_or, [], ◌∷◌, Some, None, IsNone, IfSome, IfOk, OnOk};
ghost use Rattle.std.specs.List.{All};
ghost use Rattle.mono_order.specs.declared.limits.TheConstants.{VARIABLES, RUN_DEGREE};
ghost use Rattle.fast_division.specs.Kept.{AreRowsOf};
ghost use Rattle.module_vec.specs.ModuleVector.{IsMonic, IsMonicVector, IsVector, IsMember, lead};
ghost use Rattle.module_vec.specs.Division.{DividesTo, Remainder, OverDegree, monic_of, s_vector as s_vector_of};
ghost use Rattle.module_basis.specs.GroebnerBasis.{IsGroebnerBasis};
ghost use Rattle.module_basis.specs.PlainRun.{IsProper, IsSoundState, RunsTo, Done, PairsSpent, DegreeOver, TakesPair, Next, Over, is_pair_over, opening, pairs_left, with_element};

use crate::basis::Basis;
use crate::fault::BasisFault;
use crate::pairs::{formed_pairs, next_undropped, push_all};
use fast_division::{Dividend, LeadIndex, Multiples, remainder_by};
use ibp_base::NoMemory;
use module_division::s_vector;
use module_vec::{Vector, VectorFault};
use mono_order::TermOrder;
use pair_queue::{Pair, PairOrder, PairQueue};
use std::alloc::Global;
use std::marker::Model;

/// Buchberger's algorithm with a budget of pairs, after Buchberger, "Ein Algorithmus zum Auffinden der Basiselemente
/// des Restklassenringes nach einem nulldimensionalen Polynomideal" (1965), for submodules of free modules: pair
/// after pair is taken, and the remainder of its S-vector is added to
/// the list, until no pair is left. The pairs go in the order that is given. A pair that the chain criterion drops is not taken; this is that of Buchberger, "A
/// criterion for detecting unnecessary reductions in the construction of Gröbner bases" (1979).
pub fn plain_run<O: TermOrder>(
    alloc: Global,
    generators: &[Vector<O>],
    pairs: u64,
    by: PairOrder,
) -> Result<Basis<O>, BasisFault>
    requires not_zero { All (λ g. g ≢ []) generators.now }
    requires few { length generators.now + pairs < 2 ^ 32 }
    ensures done { IfOk result (λ basis. RunsTo O.order by RUN_DEGREE generators.now pairs (Done basis.elements basis.taken)) }
    ensures spent { result ≢ Err BasisFault.NoMemory → (result ≡ Err BasisFault.PairsSpent) ↔ RunsTo O.order by RUN_DEGREE generators.now pairs PairsSpent }
    ensures over { result ≢ Err BasisFault.NoMemory → (result ≡ Err BasisFault.DegreeOver) ↔ RunsTo O.order by RUN_DEGREE generators.now pairs DegreeOver }
    ensures basis { IfOk result (λ basis. IsGroebnerBasis O.order (IsMember VARIABLES generators.now) basis.elements) }
{
    let mut run = Run::opened(alloc, generators, by)?;
    'pairs: while let Some(pair) = run.next_pair() {
        if run.taken() == pairs {
            return Err(BasisFault::PairsSpent);
        }
        run = run.stepped(alloc, &pair)?;
    }
    Ok(run.finished())
}

// The elements of a run with the index of their leads and what divisions by them keep, the pairs that are left, and how
// many pairs were taken.
#[derive(Drop)]
struct Run<O: TermOrder> {
    elements: Vec<Vector<O>>,
    index: LeadIndex<O>,
    // It lends its memory to each division.
    dividend: Dividend<O>,
    multiples: Multiples<O>,
    pairs: PairQueue<O>,
    taken: u64,
}

impl<O: TermOrder> Model for Run<O> {
    ghost use Rattle.std.specs.Prelude.{◌≡◌, map};
    ghost use Rattle.mono_order.specs.declared.limits.TheConstants.{VARIABLES};
    ghost use Rattle.module_vec.specs.ModuleVector.{lead};
    ghost use Rattle.fast_division.specs.Kept.{AreRowsOf};
    ghost use Rattle.module_basis.specs.PlainRun.{RunState, run_state, IsSoundState};

    ghost Value = { RunState };

    ghost view = { λ r. run_state r.pairs.by r.elements.items r.pairs.pairs r.taken };

    ghost invariant = { λ r. IsSoundState O.order VARIABLES (run_state r.pairs.by r.elements.items r.pairs.pairs r.taken) × (r.index ≡ map lead r.elements.items) × AreRowsOf O.high r.elements.items r.multiples };
}

impl<O: TermOrder> Run<O> {
    // The monic multiples of the generators are added in turn.
    fn opened(alloc: Global, generators: &[Vector<O>], by: PairOrder) -> Result<Run<O>, BasisFault>
        requires not_zero { All (λ g. g ≢ []) generators.now }
        requires few { length generators.now < 2 ^ 32 }
        ensures opens { IfOk result (λ run. opening O.order by RUN_DEGREE generators.now ≡ Some run) }
        ensures over { result ≡ Err BasisFault.DegreeOver → opening O.order by RUN_DEGREE generators.now ≡ None }
        ensures not_spent { (result ≡ Err BasisFault.PairsSpent) → ⊥ }
        ensures vectors { OnOk result (All (IsVector O.order VARIABLES) generators.now) }
    {
        let mut run = Run::empty(alloc, by, Dividend::over(alloc, generators)?);
        for generator in generators {
            run = run.added(alloc, made_monic(alloc, generator)?)?;
        }
        Ok(run)
    }

    fn empty(alloc: Global, by: PairOrder, dividend: Dividend<O>) -> Run<O>
        ensures { result ≡ record { by = by; elements = []; pairs = []; taken = 0 } }
    {
        Run {
            elements: Vec::new(alloc),
            index: LeadIndex::empty(alloc),
            dividend,
            multiples: Multiples::none(alloc),
            pairs: PairQueue::empty(alloc, by),
            taken: 0,
        }
    }

    // A monic element is added, with its pairs.
    fn added(self, alloc: Global, element: Vector<O>) -> Result<Run<O>, BasisFault>
        requires monic { IsMonic element }
        requires few { length self.elements + 1 < 2 ^ 32 }
        ensures added { IfOk result (λ run. with_element O.order RUN_DEGREE self element ≡ Some run) }
        ensures over { result ≡ Err BasisFault.DegreeOver → with_element O.order RUN_DEGREE self element ≡ None }
        ensures not_spent { (result ≡ Err BasisFault.PairsSpent) → ⊥ }
    {
        let Run {
            mut elements,
            mut index,
            dividend,
            multiples,
            mut pairs,
            taken,
        } = self;
        let lead = element.lead_term();
        let formed = formed_pairs(alloc, &elements, &lead)?;
        push_all(&mut pairs, &formed)?;
        index.add(&lead)?;
        elements.push(element)?;
        Ok(Run {
            elements,
            index,
            dividend,
            multiples,
            pairs,
            taken,
        })
    }

    // The first pair that the chain criterion does not drop. It is out of the queue then, and so are those that the
    // criterion dropped.
    fn next_pair(&mut self) -> Option<Pair>
        requires few { length self.old.elements < 2 ^ 32 }
        ensures none { IsNone result ↔ (pairs_left self.old ≡ []) }
        ensures first { IfSome result (λ pair. pairs_left self.old ≡ pair ∷ self.new.pairs) }
        ensures proper { IfSome result (λ pair. IsProper self.new.elements pair) }
        ensures by { self.new.by ≡ self.old.by }
        ensures elements { self.new.elements ≡ self.old.elements }
        ensures taken { self.new.taken ≡ self.old.taken }
    {
        next_undropped(&self.elements, &mut self.pairs)
    }

    // A pair, which is out of the queue, is taken.
    fn stepped(self, alloc: Global, pair: &Pair) -> Result<Run<O>, BasisFault>
        requires proper { IsProper self.elements pair.now }
        requires few { length self.elements + 1 < 2 ^ 32 }
        requires counted { self.taken + 1 < 2 ^ 64 }
        ensures next { IfOk result (λ run. TakesPair O.order RUN_DEGREE pair.now self (Next run)) }
        ensures over { result ≡ Err BasisFault.DegreeOver → TakesPair O.order RUN_DEGREE pair.now self Over }
        ensures not_spent { (result ≡ Err BasisFault.PairsSpent) → ⊥ }
    {
        let Run {
            elements,
            index,
            mut dividend,
            mut multiples,
            pairs,
            taken,
        } = self;
        let rest = remainder_of_pair(
            alloc,
            &mut dividend,
            &mut multiples,
            &elements,
            &index,
            pair,
        )?;
        let run = Run {
            elements,
            index,
            dividend,
            multiples,
            pairs,
            taken: taken + 1,
        };
        if rest.lead().is_none() {
            return Ok(run);
        }
        run.added(alloc, made_monic(alloc, &rest)?)
    }

    fn taken(&self) -> u64
        ensures { result ≡ self.now.taken }
    {
        self.taken
    }

    // The basis that a run ends with.
    fn finished(self) -> Basis<O>
        requires basis { IsGroebnerBasis O.order (IsMember VARIABLES self.elements) self.elements }
        requires few { length self.elements < 2 ^ 32 }
        ensures elements { result.elements ≡ self.elements }
        ensures taken { result.taken ≡ self.taken }
    {
        let Run {
            elements,
            index: _,
            dividend: _,
            multiples: _,
            pairs: _,
            taken,
        } = self;
        Basis::of(elements, taken)
    }
}

// The vector divided by the coefficient of its lead.
fn made_monic<O: TermOrder>(alloc: Global, v: &Vector<O>) -> Result<Vector<O>, NoMemory>
    requires { v.now ≢ [] }
    ensures value { IfOk result (λ w. w ≡ monic_of O.order v.now) }
    ensures monic { IfOk result (λ w. IsMonicVector O.order VARIABLES w) }
    ensures kept { IsVector O.order VARIABLES v.now }
{
    let is_zero = v.lead().is_none();
    prove!(!is_zero);
    v.monic(alloc)
}

// The remainder of a pair's S-vector by the elements.
fn remainder_of_pair<O: TermOrder>(
    alloc: Global,
    dividend: &mut Dividend<O>,
    multiples: &mut Multiples<O>,
    elements: &[Vector<O>],
    index: &LeadIndex<O>,
    pair: &Pair,
) -> Result<Vector<O>, VectorFault>
    requires monic { All (IsMonicVector O.order VARIABLES) elements.now }
    requires index { index.now ≡ map lead elements.now }
    requires multiples { AreRowsOf O.high elements.now multiples.old }
    requires proper { IsProper elements.now pair.now }
    ensures within { let g = get_or elements.now (pair.now.first - 1) [] in
        let h = get_or elements.now (pair.now.second - 1) [] in
        OnOk result (is_pair_over RUN_DEGREE g h pair.now.lcm ≡ false) }
    ensures remainder { let g = get_or elements.now (pair.now.first - 1) [] in
        let h = get_or elements.now (pair.now.second - 1) [] in
        IfOk result (λ r. DividesTo O.order RUN_DEGREE elements.now (s_vector_of O.order g h) (Remainder r)) }
    ensures over { let g = get_or elements.now (pair.now.first - 1) [] in
        let h = get_or elements.now (pair.now.second - 1) [] in
        result ≡ Err VectorFault.DegreeOver → (is_pair_over RUN_DEGREE g h pair.now.lcm ≡ true) ⊎ ((is_pair_over RUN_DEGREE g h pair.now.lcm ≡ false) × DividesTo O.order RUN_DEGREE elements.now (s_vector_of O.order g h) OverDegree) }
    ensures multiples { AreRowsOf O.high elements.now multiples.new }
{
    let first = &elements[pair.first as usize - 1];
    let second = &elements[pair.second as usize - 1];
    let difference = s_vector(alloc, first, second)?;
    remainder_by(alloc, dividend, multiples, &difference, elements, index)
}
