// The written candidates as relations.
ghost use Rattle.std.specs.Prelude.{◌≡◌, ◌<◌, IfOk, length, map, All};
ghost use Rattle.row_echelon.specs.References.{rows_of};
ghost use Rattle.neat_system.specs.Gathering.{label_views};
ghost use Rattle.neat_system.specs.System.{relation_at};

use crate::labels::Label;
use ibp_base::NoMemory;
use sparse_rows::Row;
use std::alloc::Global;
use system_text::Written;

/// The candidates at these places, as they are written.
pub fn relations_at(
    alloc: Global,
    labels: &[Label],
    candidates: &[&Row],
    places: &[u32],
) -> Result<Vec<Written>, NoMemory>
    requires labels { length labels.now ≡ length candidates.now }
    requires places { All (λ place. place < length candidates.now) places.now }
    ensures { IfOk result (λ relations. relations.items ≡ map (relation_at (label_views labels.now) (rows_of candidates.now)) places.now) }
{
    let mut relations = Vec::new(alloc);
    for place in places {
        let label = labels[*place as usize];
        let row = candidates[*place as usize].copy(alloc)?;
        relations.push(Written {
            sector: label.seed.sector(),
            seed: label.seed,
            field: label.field,
            row,
        })?;
    }
    Ok(relations)
}
