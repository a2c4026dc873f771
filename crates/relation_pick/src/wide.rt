//! A pick by several threads.

ghost use Rattle.std.specs.Prelude.{◌<◌, ◌≤◌, ◌^◌, length, IfOk};
ghost use Rattle.sector_lattice.specs.Sectors.{integral_cmp};
ghost use Rattle.row_echelon.specs.References.{rows_of};
ghost use Rattle.relation_pick.specs.declared.parts.TheConstants.{PARTS};
ghost use Rattle.relation_pick.specs.Kept.{AnswersBy};
ghost use Rattle.relation_pick.specs.Picking.{IsPick, rows_at, IsIrredundant};

use crate::parts::{PARTS, piece_size};
use crate::picking::{Answers, Picked, basis_of, picked_by, reduce_each};
use ibp_base::NoMemory;
use row_echelon::{Echelon, references};
use sparse_rows::Row;
use std::alloc::Global;
use std::thread;
use std::thread::Threads;

// The answer for each target, where the targets are cut into so many consecutive pieces that are reduced at once.
fn reduce_at_once<R: Threads + Sync>(
    rt: &R,
    alloc: Global,
    echelon: &Echelon,
    targets: &[Row],
    parts: u32,
) -> Result<Answers, NoMemory>
    requires { 1 ≤ parts }
    ensures { IfOk result (λ answers. AnswersBy echelon.now targets.now answers.reductions.items answers.weights.items) }
{
    let size = piece_size(targets.len(), parts);
    let reduced = |_start: usize, piece: &[Row]| -> Result<Answers, NoMemory>
        ensures { IfOk result (λ answers. AnswersBy echelon.entry.now piece.now answers.reductions.items answers.weights.items) }
    { reduce_each(alloc, echelon, piece) };
    let pieces = thread::map_chunks(rt, alloc, targets, size, &reduced)?;
    let mut reductions = Vec::new(alloc);
    let mut weights = Vec::new(alloc);
    for piece in pieces {
        let Answers {
            reductions: mut forms,
            weights: mut others,
        } = piece?;
        reductions.append(&mut forms)?;
        weights.append(&mut others)?;
    }
    Ok(Answers {
        reductions,
        weights,
    })
}

/// The pick, as `pick` gives it. The candidates are inserted in their order; then the targets are cut into so many
/// consecutive pieces, which are reduced in threads of their own. It may wait for the threads that it starts.
pub fn pick_wide<R: Threads + Sync>(
    rt: &R,
    alloc: Global,
    candidates: &[Row],
    targets: &[Row],
    parts: u32,
) -> Result<Picked, NoMemory>
    requires few { length candidates.now < 2 ^ 32 }
    requires parts { (1 ≤ parts) × (parts ≤ PARTS) }
    ensures pick { IfOk result (λ picked. IsPick integral_cmp candidates.now targets.now picked.written picked.reductions picked.weights) }
    ensures irredundant { IfOk result (λ picked. IsIrredundant integral_cmp candidates.now targets.now (rows_at candidates.now picked.written)) }
{
    let rows = references(alloc, candidates)?;
    pick_wide_among(rt, alloc, &rows, targets, parts)
}

/// The pick, as `pick_wide` gives it, from candidates that are only referred to.
pub fn pick_wide_among<R: Threads + Sync>(
    rt: &R,
    alloc: Global,
    candidates: &[&Row],
    targets: &[Row],
    parts: u32,
) -> Result<Picked, NoMemory>
    requires few { length candidates.now < 2 ^ 32 }
    requires parts { (1 ≤ parts) × (parts ≤ PARTS) }
    ensures pick { IfOk result (λ picked. IsPick integral_cmp (rows_of candidates.now) targets.now picked.written picked.reductions picked.weights) }
    ensures irredundant { IfOk result (λ picked. IsIrredundant integral_cmp (rows_of candidates.now) targets.now (rows_at (rows_of candidates.now) picked.written)) }
{
    let basis = basis_of(alloc, candidates)?;
    let answers = reduce_at_once(rt, alloc, &basis.echelon, targets, parts)?;
    picked_by(alloc, candidates, targets, answers)
}
