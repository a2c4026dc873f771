// The elimination of the leads of kept rows from a row.
ghost use Rattle.std.specs.Prelude.{◌≡◌, ◌<◌, ◌≤◌, ◌^◌, [], ◌∷◌, ◌++◌, length, IfOk, IfSome, IfNone, slice_get, Some, OnOk, OnErr};
ghost use Rattle.ibp_field.specs.Arithmetic.{mul_mod, neg_mod};
ghost use Rattle.ibp_algebra.specs.FormalSum.{AllKeys, IsCanonical, scale};
ghost use Rattle.sector_lattice.specs.Sectors.{integral_cmp};
ghost use Rattle.ibp_algebra.specs.Combination.{combination};
ghost use Rattle.ibp_algebra.specs.Spans.{row_at};
ghost use Rattle.sparse_rows.specs.Rows.{SameRow};
ghost use Rattle.row_echelon.specs.KeptRows.{IsEchelon, IsUntouched, reduced_rows, NoPivot};

use crate::kept::Kept;
use ibp_base::NoMemory;
use ibp_field::Residue;
use indexmap::IndexMap;
use sector_lattice::Integral;
use sparse_rows::Row;
use std::alloc::Global;

/// What is left of a row, and the multiples that were subtracted, by the places of the kept rows.
#[derive(Drop)]
pub struct Eliminated {
    pub rest: Row,
    pub steps: Vec<(u32, Residue)>,
}

/// A term at which a kept row has its lead.
#[derive(Drop)]
pub struct Found<'a> {
    pub at: usize,
    pub term: (Integral, Residue),
    pub place: u32,
    pub kept: &'a Kept,
}

impl Eliminated {
    // The whole row is left.
    fn start(alloc: Global, row: &Row) -> Result<Eliminated, NoMemory>
        ensures rest { IfOk result (λ left. left.rest ≡ row.now) }
        ensures steps { IfOk result (λ left. left.steps.items ≡ []) }
        ensures canonical { IfOk result (λ left. IsCanonical integral_cmp left.rest) }
    {
        Ok(Eliminated {
            rest: row.copy(alloc)?,
            steps: Vec::new(alloc),
        })
    }

    // Subtracts the multiple of the found row that clears the term.
    fn subtract(&mut self, alloc: Global, found: &Found<'_>) -> Result<(), NoMemory>
        ensures rest { OnOk result (SameRow self.new.rest (self.old.rest ++ scale (neg_mod (mul_mod found.now.term.1 found.now.kept.now.inverse)) found.now.kept.now.reduced)) }
        ensures steps { OnOk result (self.new.steps.items ≡ self.old.steps.items ++ (found.now.place, mul_mod found.now.term.1 found.now.kept.now.inverse) ∷ []) }
        ensures canonical { OnOk result (IsCanonical integral_cmp self.new.rest) }
    {
        let factor = found.term.1.mul(found.kept.inverse);
        self.rest = self
            .rest
            .add_multiple(alloc, factor.neg(), &found.kept.reduced)?;
        self.steps.push((found.place, factor))?;
        Ok(())
    }
}

// The term at a place, where it is there and its integral is the lead of a kept row.
fn pivot_at<'a>(kept: &'a IndexMap<Integral, Kept>, work: &Row, at: usize) -> Option<Found<'a>>
    requires { length kept.now.entries ≤ 2 ^ 32 }
    ensures none { IfNone result (IfSome (slice_get work.now at) (λ term. NoPivot kept.now.entries term.0)) }
    ensures at { IfSome result (λ found. found.at ≡ at) }
    ensures term { IfSome result (λ found. slice_get work.now found.at ≡ Some found.term) }
    ensures found { IfSome result (λ found. slice_get kept.now.entries found.place ≡ Some (found.term.0, found.kept.now)) }
{
    let term = *work.terms().get(at)?;
    let (place, _, kept) = kept.get_full(&term.0)?;
    Some(Found {
        at,
        term,
        place: place as u32,
        kept,
    })
}

// The first term at or after a place whose integral is the lead of a kept row.
fn next_pivot<'a>(kept: &'a IndexMap<Integral, Kept>, work: &Row, from: usize) -> Option<Found<'a>>
    requires { length kept.now.entries ≤ 2 ^ 32 }
    ensures none { IfNone result (IsUntouched kept.now.entries work.now from (length work.now)) }
    ensures within { IfSome result (λ found. (from ≤ found.at) × (found.at < length work.now)) }
    ensures before { IfSome result (λ found. IsUntouched kept.now.entries work.now from found.at) }
    ensures term { IfSome result (λ found. slice_get work.now found.at ≡ Some found.term) }
    ensures found { IfSome result (λ found. slice_get kept.now.entries found.place ≡ Some (found.term.0, found.kept.now)) }
{
    let mut at = from;
    while at < work.terms().len() {
        if let Some(found) = pivot_at(kept, work, at) {
            return Some(found);
        }
        at += 1;
    }
    None
}

/// Subtracts multiples of kept rows until no integral of what is left is a lead of a kept row.
pub fn eliminate(
    alloc: Global,
    kept: &IndexMap<Integral, Kept>,
    row: &Row,
) -> Result<Eliminated, NoMemory>
    requires { IsEchelon kept.now.entries }
    ensures sum { IfOk result (λ left. SameRow row.now (left.rest ++ combination (row_at (reduced_rows kept.now.entries)) left.steps.items)) }
    ensures places { IfOk result (λ left. AllKeys (λ place. place < length kept.now.entries) left.steps.items) }
    ensures reduced { IfOk result (λ left. AllKeys (NoPivot kept.now.entries) left.rest) }
    ensures canonical { IfOk result (λ left. IsCanonical integral_cmp left.rest) }
{
    let mut left = Eliminated::start(alloc, row)?;
    let mut from = 0;
    while let Some(found) = next_pivot(kept, &left.rest, from) {
        left.subtract(alloc, &found)?;
        from = found.at;
    }
    Ok(left)
}

/// Subtracts multiples of kept rows until the lead of what is left, where something is, is no lead of a kept
/// row. The terms below it stay as they come: to decide whether the row is in the span nothing else is needed.
pub fn eliminate_leads(
    alloc: Global,
    kept: &IndexMap<Integral, Kept>,
    row: &Row,
) -> Result<Eliminated, NoMemory>
    requires { IsEchelon kept.now.entries }
    ensures sum { IfOk result (λ left. SameRow row.now (left.rest ++ combination (row_at (reduced_rows kept.now.entries)) left.steps.items)) }
    ensures places { IfOk result (λ left. AllKeys (λ place. place < length kept.now.entries) left.steps.items) }
    ensures lead { IfOk result (λ left. IfSome (slice_get left.rest 0) (λ term. NoPivot kept.now.entries term.0)) }
    ensures canonical { IfOk result (λ left. IsCanonical integral_cmp left.rest) }
    ensures row { IfOk result (λ left. IsCanonical integral_cmp row.now) }
{
    let mut left = Eliminated::start(alloc, row)?;
    while let Some(found) = pivot_at(kept, &left.rest, 0) {
        left.subtract(alloc, &found)?;
    }
    Ok(left)
}

/// Puts an entry at the end.
pub fn append(
    kept: &mut IndexMap<Integral, Kept>,
    lead: Integral,
    entry: Kept,
) -> Result<(), NoMemory>
    requires { NoPivot kept.old.entries lead }
    ensures ok { OnOk result (kept.new.entries ≡ kept.old.entries ++ (lead, entry) ∷ []) }
    ensures err { OnErr result (kept.new.entries ≡ kept.old.entries) }
{
    kept.insert(lead, entry)?;
    Ok(())
}
