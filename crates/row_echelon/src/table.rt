// The kept rows by columns, and the elimination in a row that has a residue for each column.
ghost use Rattle.std.specs.Prelude.{◌≡◌, ◌<◌, ◌≤◌, ◌^◌, [], length, IfOk, IfSome, IfNone, IsTrue, OnOk, slice_get, Some};
ghost use Rattle.row_echelon.specs.KeptRows.{IsEchelon, reduced_rows, NoPivot, by_place};
ghost use Rattle.row_echelon.specs.Columns.{integral_at, named, FitsColumns, IsZeroRow, ColumnsEliminated};
ghost use Rattle.row_echelon.specs.Tables.{AnyTable};

use crate::columns::Columns;
use crate::dense_row::DenseRow;
use crate::kept::Kept;
use ibp_base::{List, NoMemory};
use ibp_field::Residue;
use indexmap::IndexMap;
use sector_lattice::Integral;
use sparse_rows::Row;
use std::alloc::Global;

/// Columns, the kept rows by their numbers, and a row of zeros for the work.
#[derive(Drop)]
pub struct Table {
    pub columns: Columns,
    pub rows: Vec<List<(u32, Residue)>>,
    pub work: DenseRow,
}

/// What is left of a row by columns, and the multiples that were subtracted, by the places of the kept rows.
#[derive(Drop)]
pub struct ByColumns {
    pub terms: Vec<(u32, Residue)>,
    pub steps: Vec<(u32, Residue)>,
}

impl Table {
    /// The columns of these rows, where no row is kept. `None` where they are too many to have numbers.
    pub fn over(alloc: Global, rows: &[&Row]) -> Result<Option<Table>, NoMemory>
        ensures { IfOk result (λ found. AnyTable found []) }
    {
        match Columns::over(alloc, rows)? {
            None => Ok(None),
            Some(columns) => {
                let count = columns.count();
                Ok(Some(Table {
                    columns,
                    rows: Vec::new(alloc),
                    work: DenseRow::zero(alloc, count)?,
                }))
            }
        }
    }
}

// Whether a lead is looked for: at each column, or until the first term is found.
fn looks(whole: bool, terms: &[(u32, Residue)]) -> bool
    ensures whole { IsTrue whole → IsTrue result }
    ensures first { terms.now ≡ [] → IsTrue result }
{
    whole || terms.is_empty()
}

// The kept row with its lead at a column, where one is looked for.
fn pivot_of<'a>(
    kept: &'a IndexMap<Integral, Kept>,
    integral: &Integral,
    look: bool,
) -> Option<(u32, &'a Kept)>
    requires { length kept.now.entries ≤ 2 ^ 32 }
    ensures none { IfNone result (IsTrue look → NoPivot kept.now.entries integral.now) }
    ensures found { IfSome result (λ found. slice_get kept.now.entries found.0 ≡ Some (integral.now, found.1.now)) }
{
    if look {
        let (place, _, row) = kept.get_full(integral)?;
        return Some((place as u32, row));
    }
    None
}

/// Subtracts multiples of the kept rows from the row in `work`, column by column. Where the whole row is
/// wanted, no integral of what is left is a lead of a kept row; else its lead is none.
pub fn eliminate_columns(
    alloc: Global,
    kept: &IndexMap<Integral, Kept>,
    columns: &Columns,
    rows: &[List<(u32, Residue)>],
    work: &mut DenseRow,
    whole: bool,
) -> Result<ByColumns, NoMemory>
    requires echelon { IsEchelon kept.now.entries }
    requires fits { FitsColumns columns.now rows.now (reduced_rows kept.now.entries) }
    requires long { length work.old ≡ length columns.now }
    ensures left { IfOk result (λ left. ColumnsEliminated kept.now.entries columns.now whole (named columns.now (by_place 0 work.old)) left.terms.items left.steps.items) }
    ensures zero { OnOk result (IsZeroRow work.new) }
    ensures long { OnOk result (length work.new ≡ length work.old) }
{
    let mut left = ByColumns {
        terms: Vec::new(alloc),
        steps: Vec::new(alloc),
    };
    let mut at = 0;
    let _few = columns.count();
    while let Some(found) = work.next(at) {
        at = found.0 + 1;
        let integral = columns.integral(found.0);
        match pivot_of(kept, &integral, looks(whole, &left.terms)) {
            Some((place, row)) => {
                let factor = found.1.mul(row.inverse);
                work.add_multiple(factor.neg(), rows[place as usize].as_slice());
                left.steps.push((place, factor))?;
            }
            None => {
                work.clear(found.0);
                left.terms.push((found.0 as u32, found.1))?;
            }
        }
    }
    work.unmark();
    Ok(left)
}
