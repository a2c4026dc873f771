// All seats of a desk at work.
ghost use Rattle.std.specs.Prelude.{◌<◌, ℕ, length, slice_index_or};
ghost use Rattle.neat_workers.specs.Seats.{KeepsParts};

use crate::shelf::Shelf;
use crate::worker::work_at;
use ibp_outside::Gate;
use relay_desk::{Desk, Seat};
use sector_job::{Plan, SectorResult};
use std::alloc::Global;
use std::sync::Wait;
use std::sync::ledger::Ledger;
use std::thread;
use std::thread::Threads;

/// Each seat works in a thread of its own, until all have ended.
pub fn work_at_all<
    L: Ledger + Send + Sync,
    C: Ledger + Send + Sync,
    R: Threads + Wait + Sync,
    G: Gate,
>(
    rt: &R,
    alloc: Global,
    plan: &Plan,
    desk: &Desk<SectorResult, L, C>,
    shelf: &Shelf,
    gate: &G,
    seats: &mut [Seat<L, C>],
)
    ensures { (i : ℕ) (d : _) → i < length seats.old → KeepsParts (slice_index_or seats.old i d) (slice_index_or seats.new i d) }
{
    let threads = seats.len().max(1);
    thread::for_each_mut(
        rt,
        seats,
        threads,
        &|_, seat| work_at(rt, alloc, plan, desk, shelf, gate, seat),
    );
}
