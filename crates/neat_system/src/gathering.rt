// The works of all pieces of a relay, gathered into the lists that a system is made from.
ghost use Rattle.std.specs.Prelude.{◌≡◌, ◌<◌, ◌++◌, length, IfOk, OnOk, All};
ghost use Rattle.row_echelon.specs.References.{rows_of};
ghost use Rattle.relation_pick.specs.Picking.{rows_at};
ghost use Rattle.neat_system.specs.Gathering.{IsWorkedPiece, Gains, Gathers};

use crate::labels::{Label, add_labels};
use ibp_base::NoMemory;
use relay_core::Piece;
use sector_job::{Outcome, SectorResult};
use sparse_rows::Row;
use std::alloc::Global;
use system_text::SectorBlock;

/// The sectors with their bases, and the candidates that all others are in the span of, with what they are made from,
/// in candidate order.
#[derive(Drop)]
pub struct Gathered<'a> {
    /// The sectors with their bases, in sector order.
    pub blocks: Vec<SectorBlock>,
    /// What each of these candidates is made from.
    pub labels: Vec<Label>,
    /// Those candidates of each sector that are not in the span of earlier ones of their sector. The pieces keep them.
    pub candidates: Vec<&'a Row>,
}

// Adds the candidates at these places, each by a reference.
fn add_rows<'a>(
    rows: &mut Vec<&'a Row>,
    candidates: &'a [Row],
    places: &[u32],
) -> Result<(), NoMemory>
    requires { All (λ place. place < length candidates.now) places.now }
    ensures { OnOk result (rows_of rows.new.items ≡ rows_of rows.old.items ++ rows_at candidates.now places.now) }
{
    for place in places {
        rows.push(&candidates[*place as usize])?;
    }
    Ok(())
}

// Adds what a piece comes to, which is worked.
fn add_piece<'a>(
    alloc: Global,
    piece: &'a SectorResult,
    gathered: &mut Gathered<'a>,
) -> Result<(), NoMemory>
    requires { IsWorkedPiece piece.now }
    ensures { OnOk result (Gains piece.now gathered.old gathered.new) }
{
    let Outcome::Worked {
        generators,
        candidates,
        ..
    } = piece.outcome()
    else {
        unreachable!()
    };
    let seeds = piece.seeds();
    let basis = piece.basis();
    add_labels(
        &mut gathered.labels,
        generators.fields().len(),
        seeds,
        basis,
    )?;
    add_rows(&mut gathered.candidates, candidates.as_slice(), basis)?;
    let fields = generators.copy_fields(alloc)?;
    gathered.blocks.push(SectorBlock {
        sector: piece.sector(),
        fields,
    })?;
    Ok(())
}

/// Gathers what the pieces come to, each of which is worked.
pub fn gather<'a>(alloc: Global, pieces: &'a [SectorResult]) -> Result<Gathered<'a>, NoMemory>
    requires { All IsWorkedPiece pieces.now }
    ensures { IfOk result (Gathers pieces.now) }
{
    let mut gathered = Gathered {
        blocks: Vec::new(alloc),
        labels: Vec::new(alloc),
        candidates: Vec::new(alloc),
    };
    for piece in pieces {
        add_piece(alloc, piece, &mut gathered)?;
    }
    Ok(gathered)
}
