// Rows that are only referred to.
ghost use Rattle.std.specs.Prelude.{◌≡◌, IfOk};
ghost use Rattle.row_echelon.specs.References.{rows_of};

use ibp_base::NoMemory;
use sparse_rows::Row;
use std::alloc::Global;

/// A reference to each row, in their order.
pub fn references<'a>(alloc: Global, rows: &'a [Row]) -> Result<Vec<&'a Row>, NoMemory>
    ensures { IfOk result (λ found. rows_of found.items ≡ rows.now) }
{
    let mut found = Vec::new(alloc);
    for row in rows {
        found.push(row)?;
    }
    Ok(found)
}
