ghost use Rattle.std.specs.Prelude.{◌≡◌, ◌≢◌, ◌+◌, ◌<◌, ◌≤◌, ◌%◌, ◌↔◌, [], ◌∷◌, ◌++◌, length, sum, true, false, IsNone, IfSome, IfOk, OnOk, OnErr, IfNone};
ghost use Rattle.ibp_algebra.specs.FormalSum.{AllKeys, normal_form, scale};
ghost use Rattle.mono_order.specs.declared.limits.TheConstants.{VARIABLES, RUN_DEGREE};
ghost use Rattle.module_vec.specs.ModuleVector.{SameVector, IsVector, multiply_vector};
ghost use Rattle.module_vec.specs.Division.{is_over_degree, subtract_multiple};
ghost use Rattle.fast_division.specs.PartialSums.{total, IsBounded, IsPartition, without_lead, lead_value, all_without_lead, lead_sum, greater_term, best_with, NothingAbove, HasLead};

use crate::merge::{is_multiple_over, merge_multiple};
use crate::partial::Partial;
use ibp_base::NoMemory;
use ibp_field::Residue;
use module_vec::{Vector, VectorFault};
use mono_order::{Monomial, Term, TermOrder};
use std::alloc::Global;
use std::cmp::Ordering;
use std::marker::{Model, PhantomData};

// The number of partial sums.
pub(crate) const LEVELS: usize = 10;

/// A vector that is kept as partial sums by size, and added up only for its lead. Contracts see the list of the
/// vector's terms, greatest first by the order `O`.
#[derive(Drop)]
pub struct BucketSum<O: TermOrder> {
    levels: Vec<Partial>,
    // What the next merge is written to.
    buffer: Vec<(Term, Residue)>,
    order: PhantomData<O>,
}

impl<O: TermOrder> Model for BucketSum<O> {
    ghost use Rattle.std.specs.Prelude.{List, ℕ};
    ghost use Rattle.ibp_algebra.specs.FormalSum.{normal_form};
    ghost use Rattle.fast_division.specs.PartialSums.{total, IsPartition};

    ghost Value = { List ((ℕ × List ℕ) × ℕ) };

    ghost view = { λ b. normal_form O.order (total b.levels.items) };

    ghost invariant = { λ b. IsPartition O.order b.levels.items };
}

impl<O: TermOrder> BucketSum<O> {
    // The zero vector.
    pub(crate) fn zero(alloc: Global) -> Result<BucketSum<O>, NoMemory>
        ensures { IfOk result (λ b. b ≡ []) }
    {
        Ok(BucketSum {
            levels: empty_levels::<O>(alloc)?,
            buffer: Vec::new(alloc),
            order: PhantomData,
        })
    }

    /// The sum that is this vector.
    pub fn from(alloc: Global, v: &Vector<O>) -> Result<BucketSum<O>, NoMemory>
        ensures { IfOk result (λ b. b ≡ v.now) }
    {
        let mut sum = BucketSum::zero(alloc)?;
        sum.add_vector(v)?;
        Ok(sum)
    }

    // Adds a vector to zero.
    fn add_vector(&mut self, v: &Vector<O>) -> Result<(), NoMemory>
        requires { self.old ≡ [] }
        ensures added { OnOk result (self.new ≡ v.now) }
        ensures kept { OnErr result (self.new ≡ self.old) }
    {
        add_terms::<O>(
            &mut self.levels,
            &mut self.buffer,
            Residue::one(),
            &Monomial::one(),
            v.terms(),
        )?;
        Ok(())
    }

    /// This vector minus `factor` times `by` times the other one. A refused call changes nothing.
    pub fn sub_multiple(
        &mut self,
        factor: Residue,
        by: &Monomial,
        other: &Vector<O>,
    ) -> Result<(), VectorFault>
        requires { 0 < factor }
        ensures difference { OnOk result (self.new ≡ subtract_multiple O.order self.old factor by.now other.now) }
        ensures kept { OnErr result (self.new ≡ self.old) }
        ensures within { OnOk result (is_over_degree RUN_DEGREE (multiply_vector by.now other.now) ≡ false) }
        ensures over { result ≡ Err VectorFault.DegreeOver → is_over_degree RUN_DEGREE (multiply_vector by.now other.now) ≡ true }
    {
        let terms = other.terms();
        if is_multiple_over(terms, by) {
            return Err(VectorFault::DegreeOver);
        }
        self.add_terms(factor.neg(), by, terms)?;
        Ok(())
    }

    // Adds `factor` times `by` times the terms.
    pub(crate) fn add_terms(
        &mut self,
        factor: Residue,
        by: &Monomial,
        terms: &[(Term, Residue)],
    ) -> Result<(), NoMemory>
        requires vector { IsVector O.order VARIABLES terms.now }
        requires within { is_over_degree RUN_DEGREE (multiply_vector by.now terms.now) ≡ false }
        ensures sum { OnOk result (self.new ≡ normal_form O.order (self.old ++ scale factor (multiply_vector by.now terms.now))) }
        ensures kept { OnErr result (self.new ≡ self.old) }
    {
        add_terms::<O>(&mut self.levels, &mut self.buffer, factor, by, terms)?;
        Ok(())
    }

    /// Takes the greatest term off.
    pub fn take_lead(&mut self) -> Option<(Term, Residue)>
        ensures none { IsNone result → (self.old ≡ []) × (self.new ≡ []) }
        ensures lead { IfSome result (λ t. self.old ≡ t ∷ self.new) }
        ensures vector { IsBounded O.order self.old }
    {
        'cancelled: while let Some(key) = greatest::<O>(&self.levels) {
            let sum = drop_leads::<O>(&mut self.levels, &key);
            if sum.value() != 0 {
                return Some((key, sum));
            }
        }
        None
    }
}

// Partial sums that are all zero.
fn empty_levels<O: TermOrder>(alloc: Global) -> Result<Vec<Partial>, NoMemory>
    ensures partition { IfOk result (λ v. IsPartition O.order v.items) }
    ensures zero { IfOk result (λ v. total v.items ≡ []) }
{
    let mut levels = Vec::new(alloc);
    for _ in 0..LEVELS {
        levels.push(Partial::empty(alloc))?;
    }
    Ok(levels)
}

// Adds `factor` times `by` times the terms to the partial sum of their size.
fn add_terms<O: TermOrder>(
    levels: &mut Vec<Partial>,
    buffer: &mut Vec<(Term, Residue)>,
    factor: Residue,
    by: &Monomial,
    terms: &[(Term, Residue)],
) -> Result<(), NoMemory>
    requires partition { IsPartition O.order levels.old.items }
    requires vector { IsVector O.order VARIABLES terms.now }
    requires within { is_over_degree RUN_DEGREE (multiply_vector by.now terms.now) ≡ false }
    ensures partition { IsPartition O.order levels.new.items }
    ensures sum { OnOk result (SameVector (total levels.new.items) (total levels.old.items ++ scale factor (multiply_vector by.now terms.now))) }
    ensures kept { OnErr result (SameVector (total levels.new.items) (total levels.old.items)) }
{
    let level = level_of(terms.len());
    make_room::<O>(levels, buffer, level)?;
    add_at::<O>(levels, buffer, level, factor, by, terms)?;
    Ok(())
}

// The least level that has room for so many terms, or the last one.
fn level_of(count: usize) -> usize
    ensures { result < LEVELS }
{
    let mut level = 0;
    while level + 1 < LEVELS && room(level) < count {
        level += 1;
    }
    level
}

// How many terms a level is to have at most; the last one has as many as come.
fn room(level: usize) -> usize {
    8 << (2 * level.min(16))
}

// Moves what is too long at a level to the next one, and so on.
fn make_room<O: TermOrder>(
    levels: &mut Vec<Partial>,
    buffer: &mut Vec<(Term, Residue)>,
    level: usize,
) -> Result<(), NoMemory>
    requires partition { IsPartition O.order levels.old.items }
    requires level { level < LEVELS }
    ensures partition { IsPartition O.order levels.new.items }
    ensures same { SameVector (total levels.new.items) (total levels.old.items) }
{
    let mut at = level;
    'full: while at + 1 < LEVELS && is_full(levels, at) {
        move_up::<O>(levels, buffer, at)?;
        at += 1;
    }
    Ok(())
}

// Whether a partial sum is longer than its level has room for.
fn is_full(levels: &[Partial], level: usize) -> bool
    requires { level < length levels.now }
{
    levels[level].rest().len() > room(level)
}

// Moves what is at a level to the next one.
fn move_up<O: TermOrder>(
    levels: &mut Vec<Partial>,
    buffer: &mut Vec<(Term, Residue)>,
    level: usize,
) -> Result<(), NoMemory>
    requires partition { IsPartition O.order levels.old.items }
    requires level { level + 1 < LEVELS }
    ensures partition { IsPartition O.order levels.new.items }
    ensures same { SameVector (total levels.new.items) (total levels.old.items) }
{
    if is_empty(levels, level + 1) {
        exchange::<O>(levels, level);
        Ok(())
    } else {
        add_to_next::<O>(levels, buffer, level)
    }
}

// Whether there are no terms at a level.
fn is_empty(levels: &[Partial], level: usize) -> bool
    requires { level < length levels.now }
{
    levels[level].rest().is_empty()
}

// Exchanges a level with the next one.
fn exchange<O: TermOrder>(levels: &mut Vec<Partial>, level: usize)
    requires partition { IsPartition O.order levels.old.items }
    requires level { level + 1 < LEVELS }
    ensures partition { IsPartition O.order levels.new.items }
    ensures same { SameVector (total levels.new.items) (total levels.old.items) }
{
    levels.swap(level, level + 1);
}

// Adds a level to the next one.
fn add_to_next<O: TermOrder>(
    levels: &mut Vec<Partial>,
    buffer: &mut Vec<(Term, Residue)>,
    level: usize,
) -> Result<(), NoMemory>
    requires partition { IsPartition O.order levels.old.items }
    requires level { level + 1 < LEVELS }
    ensures partition { IsPartition O.order levels.new.items }
    ensures same { SameVector (total levels.new.items) (total levels.old.items) }
{
    merge_multiple::<O>(
        buffer,
        levels[level + 1].rest(),
        Residue::one(),
        &Monomial::one(),
        levels[level].rest(),
    )?;
    let next = &mut levels[level + 1];
    next.replace(buffer);
    let moved = &mut levels[level];
    moved.clear();
    Ok(())
}

// Adds `factor` times `by` times the terms to one partial sum.
fn add_at<O: TermOrder>(
    levels: &mut Vec<Partial>,
    buffer: &mut Vec<(Term, Residue)>,
    level: usize,
    factor: Residue,
    by: &Monomial,
    terms: &[(Term, Residue)],
) -> Result<(), NoMemory>
    requires partition { IsPartition O.order levels.old.items }
    requires level { level < LEVELS }
    requires vector { IsVector O.order VARIABLES terms.now }
    requires within { is_over_degree RUN_DEGREE (multiply_vector by.now terms.now) ≡ false }
    ensures partition { IsPartition O.order levels.new.items }
    ensures sum { OnOk result (SameVector (total levels.new.items) (total levels.old.items ++ scale factor (multiply_vector by.now terms.now))) }
    ensures kept { OnErr result (levels.new.items ≡ levels.old.items) }
{
    let _degree = by.degree();
    merge_multiple::<O>(buffer, levels[level].rest(), factor, by, terms)?;
    let changed = &mut levels[level];
    changed.replace(buffer);
    Ok(())
}

// The greatest of the first terms of the partial sums.
fn greatest<O: TermOrder>(levels: &[Partial]) -> Option<Term>
    requires { IsPartition O.order levels.now }
    ensures none { IsNone result → total levels.now ≡ [] }
    ensures above { IfSome result (λ k. NothingAbove O.order k (total levels.now)) }
    ensures lead { IfSome result (λ k. HasLead k levels.now) }
{
    let mut best = None;
    for level in levels {
        best = best_of::<O>(best, level);
    }
    best
}

// The greater one of a term, which may be missing, and the first term of a partial sum.
fn best_of<O: TermOrder>(best: Option<Term>, level: &Partial) -> Option<Term>
    ensures { result ≡ best_with O.order best level.now }
{
    match level.lead() {
        Some((term, _)) => greater_of::<O>(best, &term),
        None => best,
    }
}

// The greater of two terms, of which the first may be missing.
fn greater_of<O: TermOrder>(best: Option<Term>, term: &Term) -> Option<Term>
    ensures { result ≡ greater_term O.order best term.now }
{
    match best {
        None => Some(*term),
        Some(other) => match O::compare(term, &other) {
            Ordering::Greater => Some(*term),
            _ => Some(other),
        },
    }
}

// Takes the first term off each partial sum where it has this key, and adds up their coefficients.
fn drop_leads<O: TermOrder>(levels: &mut Vec<Partial>, key: &Term) -> Residue
    ensures without { levels.new.items ≡ all_without_lead key.now levels.old.items }
    ensures sum { result ≡ lead_sum key.now levels.old.items % 2147483647 }
{
    let mut sum = Residue::zero();
    let mut i = 0;
    'levels: while i < levels.len() {
        let level = &mut levels[i];
        sum = sum.add(drop_lead(level, key));
        i += 1;
    }
    sum
}

// Takes the first term off where it has this key. The answer is its coefficient, and zero elsewhere.
fn drop_lead(level: &mut Partial, key: &Term) -> Residue
    ensures without { level.new ≡ without_lead key.now level.old }
    ensures value { result ≡ lead_value key.now level.old }
{
    let Some((term, value)) = level.rest().first().copied() else {
        return Residue::zero();
    };
    if term == *key {
        level.skip();
        value
    } else {
        Residue::zero()
    }
}
