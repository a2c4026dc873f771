// The elimination of a row: by columns where each of its integrals has one, and else by merges.
ghost use Rattle.std.specs.Prelude.{◌≡◌, ◌<◌, ◌++◌, length, IfOk, IfSome, OnOk, slice_get};
ghost use Rattle.ibp_algebra.specs.FormalSum.{AllKeys, IsCanonical};
ghost use Rattle.sector_lattice.specs.Sectors.{integral_cmp};
ghost use Rattle.ibp_algebra.specs.Combination.{combination};
ghost use Rattle.ibp_algebra.specs.Spans.{row_at};
ghost use Rattle.sparse_rows.specs.Rows.{SameRow};
ghost use Rattle.row_echelon.specs.KeptRows.{IsEchelon, reduced_rows, NoPivot};
ghost use Rattle.row_echelon.specs.Columns.{named, HasColumns};
ghost use Rattle.row_echelon.specs.Tables.{FitsTable, AnyTable, with_rest};

use crate::dense_row::DenseRow;
use crate::elimination::{Eliminated, eliminate, eliminate_leads};
use crate::kept::Kept;
use crate::table::{Table, eliminate_columns};
use ibp_base::{List, NoMemory};
use ibp_field::Residue;
use indexmap::IndexMap;
use sector_lattice::Integral;
use sparse_rows::Row;
use std::alloc::Global;

/// What is left of a row, and the table with it, where there still is one.
#[derive(Drop)]
pub struct Left {
    pub eliminated: Eliminated,
    pub table: Option<Table>,
}

/// Subtracts multiples of kept rows until the lead of what is left, where something is, is no lead of a kept
/// row. A row with an integral that has no column ends the table.
pub fn leads_left(
    alloc: Global,
    kept: &IndexMap<Integral, Kept>,
    table: Option<Table>,
    row: &Row,
) -> Result<Left, NoMemory>
    requires echelon { IsEchelon kept.now.entries }
    requires table { AnyTable table (reduced_rows kept.now.entries) }
    ensures sum { IfOk result (λ left. SameRow row.now (left.eliminated.rest ++ combination (row_at (reduced_rows kept.now.entries)) left.eliminated.steps.items)) }
    ensures places { IfOk result (λ left. AllKeys (λ place. place < length kept.now.entries) left.eliminated.steps.items) }
    ensures lead { IfOk result (λ left. IfSome (slice_get left.eliminated.rest 0) (λ term. NoPivot kept.now.entries term.0)) }
    ensures canonical { IfOk result (λ left. IsCanonical integral_cmp left.eliminated.rest) }
    ensures row { IfOk result (λ left. IsCanonical integral_cmp row.now) }
    ensures table { IfOk result (λ left. AnyTable left.table (with_rest (reduced_rows kept.now.entries) left.eliminated.rest)) }
{
    if let Some(table) = table {
        if let Some(terms) = table.columns.numbered(alloc, row)? {
            return leads_by_columns(alloc, kept, table, &terms);
        }
    }
    Ok(Left {
        eliminated: eliminate_leads(alloc, kept, row)?,
        table: None,
    })
}

// The same for the row of these terms, by the columns.
fn leads_by_columns(
    alloc: Global,
    kept: &IndexMap<Integral, Kept>,
    table: Table,
    terms: &[(u32, Residue)],
) -> Result<Left, NoMemory>
    requires echelon { IsEchelon kept.now.entries }
    requires fits { FitsTable table (reduced_rows kept.now.entries) }
    requires within { HasColumns table.columns terms.now }
    ensures sum { IfOk result (λ left. SameRow (named table.columns terms.now) (left.eliminated.rest ++ combination (row_at (reduced_rows kept.now.entries)) left.eliminated.steps.items)) }
    ensures places { IfOk result (λ left. AllKeys (λ place. place < length kept.now.entries) left.eliminated.steps.items) }
    ensures lead { IfOk result (λ left. IfSome (slice_get left.eliminated.rest 0) (λ term. NoPivot kept.now.entries term.0)) }
    ensures canonical { IfOk result (λ left. IsCanonical integral_cmp left.eliminated.rest) }
    ensures table { IfOk result (λ left. AnyTable left.table (with_rest (reduced_rows kept.now.entries) left.eliminated.rest)) }
{
    let Table {
        columns,
        mut rows,
        mut work,
    } = table;
    let _falls = columns.count();
    work.add_multiple(Residue::one(), terms);
    let left = eliminate_columns(alloc, kept, &columns, &rows, &mut work, false)?;
    let rest = columns.row_of(alloc, &left.terms)?;
    keep_terms(alloc, &mut rows, &left.terms)?;
    Ok(Left {
        eliminated: Eliminated {
            rest,
            steps: left.steps,
        },
        table: Some(Table {
            columns,
            rows,
            work,
        }),
    })
}

// Puts the terms at the end, where there are some, with no spare room.
fn keep_terms(
    alloc: Global,
    rows: &mut Vec<List<(u32, Residue)>>,
    terms: &[(u32, Residue)],
) -> Result<(), NoMemory>
    ensures { OnOk result (rows.new.items ≡ with_rest rows.old.items terms.now) }
{
    if !terms.is_empty() {
        rows.push(List::from_vec(terms.to_vec(alloc)?))?;
    }
    Ok(())
}

/// Subtracts multiples of kept rows until no integral of what is left is a lead of a kept row.
pub fn whole_left(
    alloc: Global,
    kept: &IndexMap<Integral, Kept>,
    table: &Option<Table>,
    row: &Row,
) -> Result<Eliminated, NoMemory>
    requires echelon { IsEchelon kept.now.entries }
    requires table { AnyTable table.now (reduced_rows kept.now.entries) }
    ensures sum { IfOk result (λ left. SameRow row.now (left.rest ++ combination (row_at (reduced_rows kept.now.entries)) left.steps.items)) }
    ensures places { IfOk result (λ left. AllKeys (λ place. place < length kept.now.entries) left.steps.items) }
    ensures reduced { IfOk result (λ left. AllKeys (NoPivot kept.now.entries) left.rest) }
    ensures canonical { IfOk result (λ left. IsCanonical integral_cmp left.rest) }
{
    if let Some(table) = table {
        if let Some(terms) = table.columns.numbered(alloc, row)? {
            return whole_by_columns(alloc, kept, table, &terms);
        }
    }
    eliminate(alloc, kept, row)
}

// The same for the row of these terms, by the columns.
fn whole_by_columns(
    alloc: Global,
    kept: &IndexMap<Integral, Kept>,
    table: &Table,
    terms: &[(u32, Residue)],
) -> Result<Eliminated, NoMemory>
    requires echelon { IsEchelon kept.now.entries }
    requires fits { FitsTable table.now (reduced_rows kept.now.entries) }
    requires within { HasColumns table.now.columns terms.now }
    ensures sum { IfOk result (λ left. SameRow (named table.now.columns terms.now) (left.rest ++ combination (row_at (reduced_rows kept.now.entries)) left.steps.items)) }
    ensures places { IfOk result (λ left. AllKeys (λ place. place < length kept.now.entries) left.steps.items) }
    ensures reduced { IfOk result (λ left. AllKeys (NoPivot kept.now.entries) left.rest) }
    ensures canonical { IfOk result (λ left. IsCanonical integral_cmp left.rest) }
{
    let mut work = DenseRow::zero(alloc, table.columns.count())?;
    work.add_multiple(Residue::one(), terms);
    let left = eliminate_columns(alloc, kept, &table.columns, &table.rows, &mut work, true)?;
    Ok(Eliminated {
        rest: table.columns.row_of(alloc, &left.terms)?,
        steps: left.steps,
    })
}
