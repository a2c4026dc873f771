ghost use Rattle.std.specs.Prelude.{◌≡◌, ◌≢◌, ◌%◌, ◌<◌, ◌≤◌, ◌++◌, ℕ, length, IfOk, IfSome, IfNone, replicate, slice_index_or, slice_set};
ghost use Rattle.std.specs.Ordering.{nat_cmp};
ghost use Rattle.ibp_algebra.specs.FormalSum.{AllKeys, scale};
ghost use Rattle.ibp_algebra.specs.Spans.{SameSum};
ghost use Rattle.ibp_field.specs.declared.TheConstants.{PRIME};
ghost use Rattle.row_echelon.specs.KeptRows.{by_place};
ghost use Rattle.row_echelon.specs.Columns.{IsZeroRow, IsMarked};

use ibp_base::NoMemory;
use ibp_field::Residue;
use std::alloc::Global;
use std::marker::Model;

// How many columns have a mark in common.
const BLOCK: usize = 64;

/// A row with a residue for each column. Contracts see it as the list of the residues. A mark says where a block
/// of columns may have other residues than zero, so that the others are passed over.
#[derive(Drop)]
pub struct DenseRow {
    values: Vec<Residue>,
    marks: Vec<bool>,
}

impl Model for DenseRow {
    ghost use Rattle.std.specs.Prelude.{List, ℕ};

    ghost Value = { List ℕ };

    ghost use Rattle.row_echelon.specs.Columns.{IsMarked};

    ghost view = { λ s. s.values.items };

    ghost invariant = { λ s. IsMarked s.values.items s.marks.items };
}

impl DenseRow {
    /// Zero at so many columns.
    pub fn zero(alloc: Global, columns: usize) -> Result<DenseRow, NoMemory>
        ensures { IfOk result (λ row. row ≡ replicate columns 0) }
    {
        Ok(DenseRow {
            values: vec![in alloc; Residue::zero(); columns]?,
            marks: vec![in alloc; false; columns / BLOCK + 1]?,
        })
    }

    /// Adds a multiple of the terms, each at its column.
    pub fn add_multiple(&mut self, factor: Residue, terms: &[(u32, Residue)])
        requires { AllKeys (λ column. column < length self.old) terms.now }
        ensures sum { SameSum nat_cmp (by_place 0 self.new) (by_place 0 self.old ++ scale factor terms.now) }
        ensures length { length self.new ≡ length self.old }
    {
        add_marked(&mut self.values, &mut self.marks, factor, terms);
    }

    /// The first column at or after this one that is not zero, with its residue.
    pub fn next(&self, from: usize) -> Option<(usize, Residue)>
        ensures none { IfNone result ((i : ℕ) → from ≤ i → slice_index_or self.now i 0 % PRIME ≡ 0) }
        ensures found { IfSome result (λ found. slice_index_or self.now found.0 0 ≡ found.1) }
        ensures below { IfSome result (λ found. found.1 < PRIME) }
        ensures not_zero { IfSome result (λ found. found.1 ≢ 0) }
        ensures within { IfSome result (λ found. (from ≤ found.0) × (found.0 < length self.now)) }
        ensures before { IfSome result (λ found. (i : ℕ) → from ≤ i → i < found.0 → slice_index_or self.now i 0 % PRIME ≡ 0) }
    {
        let mut at = from;
        while at < self.values.len() {
            if !self.marks[at / BLOCK] {
                at += BLOCK - at % BLOCK;
                continue;
            }
            let value = self.values[at];
            if value.value() != 0 {
                return Some((at, value));
            }
            at += 1;
        }
        None
    }

    /// Makes a column zero.
    pub fn clear(&mut self, column: usize)
        requires { column < length self.old }
        ensures { self.new ≡ slice_set self.old column 0 }
    {
        self.values[column] = Residue::zero();
    }

    /// Takes the marks off a row of zeros.
    pub fn unmark(&mut self)
        requires { IsZeroRow self.old }
        ensures { self.new ≡ self.old }
    {
        self.marks.fill(false);
    }
}

// Adds a multiple of the terms, each at its column, and marks the blocks of these.
fn add_marked(values: &mut [Residue], marks: &mut [bool], factor: Residue, terms: &[(u32, Residue)])
    requires within { AllKeys (λ column. column < length values.old) terms.now }
    requires marked { IsMarked values.old marks.old }
    ensures sum { SameSum nat_cmp (by_place 0 values.new) (by_place 0 values.old ++ scale factor terms.now) }
    ensures marked { IsMarked values.new marks.new }
{
    for (column, value) in terms {
        let column = *column as usize;
        values[column] = values[column].add_product(factor, *value);
        marks[column / BLOCK] = true;
    }
}
