// What a division has left.
ghost use Rattle.std.specs.Prelude.{◌≡◌, ◌≤◌, [], ◌∷◌, ◌++◌, take, drop, length, true, false, IsNone, IfSome, IfOk, OnOk, OnErr};
ghost use Rattle.ibp_algebra.specs.FormalSum.{AllKeys, normal_form, scale};
ghost use Rattle.mono_order.specs.declared.limits.TheConstants.{VARIABLES, RUN_DEGREE};
ghost use Rattle.module_vec.specs.ModuleVector.{IsVector, multiply_vector};
ghost use Rattle.module_vec.specs.Division.{is_over_degree, subtract_multiple};
ghost use Rattle.fast_division.specs.Kept.{ArePlaces, IsRow};
ghost use Rattle.fast_division.specs.PartialSums.{IsBounded};

use crate::bucket_sum::BucketSum;
use crate::extent::Extent;
use crate::kept::{Placed, Row};
use crate::merge::is_multiple_over;
use crate::window::Window;
use ibp_base::NoMemory;
use ibp_field::Residue;
use module_vec::{Vector, VectorFault};
use mono_order::{Monomial, Term, TermOrder};
use std::alloc::Global;
use std::marker::Model;

/// What a division has left of a vector: a dense sum of the high terms and one of the low terms. Where a multiple does not
/// fit them, all goes over to a sum by size. Its memory serves one division after another. Contracts see the list of the
/// terms, greatest first by the order `O`.
#[derive(Drop)]
pub struct Dividend<O: TermOrder> {
    alloc: Global,
    high: Window<O>,
    low: Window<O>,
    buckets: BucketSum<O>,
    is_dense: bool,
    // Which lead was taken off last: a number for each place in a dense sum, and 0 for no such lead.
    lead: usize,
}

impl<O: TermOrder> Model for Dividend<O> {
    ghost use Rattle.std.specs.Prelude.{List, ℕ, ◌++◌};
    ghost use Rattle.fast_division.specs.Dividends.{IsSplit};

    ghost Value = { List ((ℕ × List ℕ) × ℕ) };

    ghost view = { λ d. d.high ++ d.low ++ d.buckets };

    ghost invariant = { λ d. IsSplit O.order O.high d.high d.low d.buckets d.is_dense };
}

impl<O: TermOrder> Dividend<O> {
    /// Zero, with dense sums whose places are those of the terms that come of these vectors.
    pub fn over(alloc: Global, vectors: &[Vector<O>]) -> Result<Dividend<O>, NoMemory>
        ensures { IfOk result (λ d. d ≡ []) }
    {
        Ok(Dividend {
            alloc,
            high: Extent::of(vectors, true).window(alloc),
            low: Extent::of(vectors, false).window(alloc),
            buckets: BucketSum::zero(alloc)?,
            is_dense: true,
            lead: 0,
        })
    }

    // Becomes the vector.
    pub(crate) fn assign(&mut self, v: &Vector<O>) -> Result<(), NoMemory>
        ensures { OnOk result (self.new ≡ v.now) }
    {
        self.clear();
        self.add(Residue::one(), &Monomial::one(), v.terms())
    }

    // Becomes zero.
    fn clear(&mut self)
        ensures { self.new ≡ [] }
    {
        'terms: while self.take_lead().is_some() {}
        self.is_dense = true;
    }

    // This vector minus `factor` times `by` times the terms.
    pub(crate) fn sub_terms(
        &mut self,
        factor: Residue,
        by: &Monomial,
        terms: &[(Term, Residue)],
    ) -> Result<(), VectorFault>
        requires { IsVector O.order VARIABLES terms.now }
        ensures difference { OnOk result (self.new ≡ subtract_multiple O.order self.old factor by.now terms.now) }
        ensures within { OnOk result (is_over_degree RUN_DEGREE (multiply_vector by.now terms.now) ≡ false) }
        ensures over { result ≡ Err VectorFault.DegreeOver → is_over_degree RUN_DEGREE (multiply_vector by.now terms.now) ≡ true }
    {
        if is_multiple_over(terms, by) {
            return Err(VectorFault::DegreeOver);
        }
        self.add(factor.neg(), by, terms)?;
        Ok(())
    }

    // The same for a multiple whose places are kept.
    pub(crate) fn sub_kept(
        &mut self,
        factor: Residue,
        row: &Row,
        terms: &[(Term, Residue)],
    ) -> Result<(), NoMemory>
        requires vector { IsVector O.order VARIABLES terms.now }
        requires row { IsRow O.high row.now terms.now }
        ensures { OnOk result (self.new ≡ subtract_multiple O.order self.old factor row.now.by terms.now) }
    {
        let (above, below) = terms.split_at(row.high.places.len());
        self.add_parts(
            (Some(&row.high), Some(&row.low)),
            factor.neg(),
            &row.by,
            terms,
            (above, below),
        )
    }

    // The places of the terms of a multiple, if they have places.
    pub(crate) fn row(
        &self,
        alloc: Global,
        divisor: u32,
        by: &Monomial,
        terms: &[(Term, Residue)],
    ) -> Result<Option<Row>, NoMemory>
        requires vector { IsVector O.order VARIABLES terms.now }
        requires within { is_over_degree RUN_DEGREE (multiply_vector by.now terms.now) ≡ false }
        ensures row { IfOk result (λ found. IfSome found (λ row. IsRow O.high row terms.now)) }
        ensures divisor { IfOk result (λ found. IfSome found (λ row. row.divisor ≡ divisor)) }
    {
        let (above, below) = split_kinds::<O>(terms);
        let Some(high) = self.high.placed(alloc, by, above)? else {
            return Ok(None);
        };
        let Some(low) = self.low.placed(alloc, by, below)? else {
            return Ok(None);
        };
        Ok(Some(Row {
            divisor,
            by: *by,
            high,
            low,
        }))
    }

    // Which lead was taken off last: a number for each place in a dense sum, and 0 for no such lead.
    pub(crate) fn lead(&self) -> usize {
        self.lead
    }

    // Adds `factor` times `by` times the terms.
    fn add(
        &mut self,
        factor: Residue,
        by: &Monomial,
        terms: &[(Term, Residue)],
    ) -> Result<(), NoMemory>
        requires vector { IsVector O.order VARIABLES terms.now }
        requires within { is_over_degree RUN_DEGREE (multiply_vector by.now terms.now) ≡ false }
        ensures { OnOk result (self.new ≡ normal_form O.order (self.old ++ scale factor (multiply_vector by.now terms.now))) }
    {
        let parts = split_kinds::<O>(terms);
        self.add_parts((None, None), factor, by, terms, parts)
    }

    // Adds `factor` times `by` times the terms, which are these high terms and the low ones behind them. Their places may
    // be known.
    fn add_parts(
        &mut self,
        known: (Option<&Placed>, Option<&Placed>),
        factor: Residue,
        by: &Monomial,
        terms: &[(Term, Residue)],
        parts: (&[(Term, Residue)], &[(Term, Residue)]),
    ) -> Result<(), NoMemory>
        requires vector { IsVector O.order VARIABLES terms.now }
        requires within { is_over_degree RUN_DEGREE (multiply_vector by.now terms.now) ≡ false }
        requires whole { terms.now ≡ parts.0.now ++ parts.1.now }
        requires high { AllKeys (λ t. O.high t.0 ≡ true) parts.0.now }
        requires low { AllKeys (λ t. O.high t.0 ≡ false) parts.1.now }
        requires high_places { IfSome known.0 (λ placed. ArePlaces placed.now (multiply_vector by.now parts.0.now)) }
        requires low_places { IfSome known.1 (λ placed. ArePlaces placed.now (multiply_vector by.now parts.1.now)) }
        ensures { OnOk result (self.new ≡ normal_form O.order (self.old ++ scale factor (multiply_vector by.now terms.now))) }
    {
        if !self.is_dense {
            return self.buckets.add_terms(factor, by, terms);
        }
        let _degree = by.degree();
        let (above, below) = parts;
        if !self.high.add_multiple(known.0, factor, by, above)? {
            pour(self.alloc, &mut self.high, &mut self.low, &mut self.buckets)?;
            self.is_dense = false;
            return self.buckets.add_terms(factor, by, terms);
        }
        if !self.low.add_multiple(known.1, factor, by, below)? {
            pour(self.alloc, &mut self.high, &mut self.low, &mut self.buckets)?;
            self.is_dense = false;
            return self.buckets.add_terms(factor, by, below);
        }
        Ok(())
    }

    // Takes the greatest term off.
    pub(crate) fn take_lead(&mut self) -> Option<(Term, Residue)>
        ensures none { IsNone result → (self.old ≡ []) × (self.new ≡ []) }
        ensures lead { IfSome result (λ t. self.old ≡ t ∷ self.new) }
        ensures vector { IsBounded O.order self.old }
    {
        if let Some(item) = self.high.lead() {
            let place = self.high.skip();
            self.lead = number_of_lead(place, true);
            return Some(item);
        }
        if let Some(item) = self.low.lead() {
            let place = self.low.skip();
            self.lead = number_of_lead(place, false);
            return Some(item);
        }
        self.lead = 0;
        self.buckets.take_lead()
    }
}

// The number of the lead at a place in the sum of high terms, or in that of low terms: never 0.
fn number_of_lead(place: usize, is_high: bool) -> usize {
    place.saturating_mul(2).saturating_add(1 + is_high as usize)
}

// The high terms, and the low terms behind them.
fn split_kinds<O: TermOrder>(terms: &[(Term, Residue)]) -> (&[(Term, Residue)], &[(Term, Residue)])
    requires { IsVector O.order VARIABLES terms.now }
    ensures whole { terms.now ≡ result.0.now ++ result.1.now }
    ensures high { AllKeys (λ t. O.high t.0 ≡ true) result.0.now }
    ensures low { AllKeys (λ t. O.high t.0 ≡ false) result.1.now }
{
    terms.split_at(high_count::<O>(terms))
}

// How many terms come before the first low one.
fn high_count<O: TermOrder>(terms: &[(Term, Residue)]) -> usize
    requires { IsVector O.order VARIABLES terms.now }
    ensures within { result ≤ length terms.now }
    ensures high { AllKeys (λ t. O.high t.0 ≡ true) (take result terms.now) }
    ensures low { AllKeys (λ t. O.high t.0 ≡ false) (drop result terms.now) }
{
    let mut count = 0;
    for (term, _) in terms {
        if !O::is_high(term.component) {
            return count;
        }
        count += 1;
    }
    count
}

// Moves all terms of two dense sums to an empty sum by size.
fn pour<O: TermOrder>(
    alloc: Global,
    high: &mut Window<O>,
    low: &mut Window<O>,
    buckets: &mut BucketSum<O>,
) -> Result<(), NoMemory>
    requires bounded { IsBounded O.order (high.old ++ low.old) }
    requires empty { buckets.old ≡ [] }
    ensures high { high.new ≡ [] }
    ensures low { low.new ≡ [] }
    ensures moved { OnOk result (buckets.new ≡ high.old ++ low.old) }
    ensures kept { OnErr result (buckets.new ≡ []) }
{
    let mut terms = Vec::new(alloc);
    let from_high = drain(high, &mut terms);
    let from_low = drain(low, &mut terms);
    from_high?;
    from_low?;
    buckets.add_terms(Residue::one(), &Monomial::one(), &terms)
}

// Takes all terms off a dense sum, and appends them to a list.
fn drain<O: TermOrder>(
    window: &mut Window<O>,
    terms: &mut Vec<(Term, Residue)>,
) -> Result<(), NoMemory>
    ensures empty { window.new ≡ [] }
    ensures moved { OnOk result (terms.new.items ≡ terms.old.items ++ window.old) }
{
    let mut answer = Ok(());
    'terms: while let Some(item) = window.lead() {
        window.skip();
        answer = answer.and(terms.push(item).map_err(NoMemory::from));
    }
    answer
}
