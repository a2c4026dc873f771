// What one worker does at its seat.
ghost use Rattle.std.specs.Prelude.{◌≡◌, ◌↔◌, IsTrue};
ghost use Rattle.neat_workers.specs.Seats.{KeepsParts};
ghost use Rattle.neat_workers.specs.Jobs.{FitsFamily};

use crate::bases::{basis_for, work_ahead};
use crate::portions::{Portion, portions_of};
use crate::shelf::Shelf;
use family::Family;
use ibp_outside::Gate;
use relay_core::{Job, Piece, Taken};
use relay_desk::{Desk, Seat};
use sector_job::{Plan, SectorResult, work_from};
use sector_lattice::Sector;
use std::alloc::Global;
use std::sync::Wait;
use std::sync::ledger::Ledger;
use std::thread::Threads;

// What a worker does next.
#[derive(Drop)]
enum Step {
    // To work on a job.
    Work(Job),
    // To work the basis of a claimed sector ahead.
    Ahead(Sector),
    // To end, since all is done or memory ran out.
    End,
}

// What the worker does next. Where no sector can be taken it claims one whose basis is surely needed, and where there is
// none it waits. The shelf's lock is taken under the desk's, never the other way round.
fn next_step<L: Ledger, C: Ledger, R: Wait>(
    rt: &R,
    desk: &Desk<SectorResult, L, C>,
    shelf: &Shelf,
    seat: &mut Seat<L, C>,
) -> Step
    ensures { KeepsParts seat.old seat.new }
{
    let mut guard = desk.locked.lock(rt);
    for _ in rt.forever() {
        match guard.take(seat) {
            Ok(Taken::Job(job)) => return Step::Work(job),
            Ok(Taken::NotYet) => {
                if let Some(sector) = shelf.claim(rt, guard.state()) {
                    return Step::Ahead(sector);
                }
                guard = desk.changed.wait(rt, guard);
            }
            Ok(Taken::Closed) | Err(_) => return Step::End,
        }
    }
    unreachable!()
}

// The next job. Until there is one the worker works bases ahead. None where all is done or memory ran out.
fn next_job<L: Ledger, C: Ledger, R: Wait>(
    rt: &R,
    alloc: Global,
    plan: &Plan,
    desk: &Desk<SectorResult, L, C>,
    shelf: &Shelf,
    seat: &mut Seat<L, C>,
) -> Option<Job>
    ensures { KeepsParts seat.old seat.new }
{
    for _ in rt.forever() {
        match next_step(rt, desk, shelf, seat) {
            Step::Work(job) => return Some(job),
            Step::Ahead(sector) => {
                if !work_ahead(rt, alloc, plan, shelf, sector) {
                    return None;
                }
            }
            Step::End => return None,
        }
    }
    unreachable!()
}

// Whether the job's targets have the family's powers, and its sector isn't zero. A lock tells nothing of whose plan the
// relay behind it has.
fn fits(family: &Family, job: &Job) -> bool
    ensures { IsTrue result ↔ FitsFamily family.now job.now }
{
    let n = family.n;
    !family.is_zero(job.sector) && job.targets.as_slice().iter().all(|target| target.n() == n)
}

// Into how many parts the work on a sector is split.
const PARTS_OF_A_SECTOR: u32 = 2;

// What comes of a job. None where it doesn't fit, or memory ran out.
fn worked<R: Threads + Wait + Sync>(
    rt: &R,
    alloc: Global,
    plan: &Plan,
    shelf: &Shelf,
    job: &Job,
) -> Option<SectorResult> {
    let basis = basis_for(rt, alloc, plan, shelf, job.sector)?;
    if basis.sector() != job.sector || !fits(basis.plan().family(), job) {
        return None;
    }
    work_from(rt, alloc, basis, job, PARTS_OF_A_SECTOR).ok()
}

// Posts a portion of the tails of a piece, and answers whether that went through.
fn post_portion<L: Ledger, C: Ledger, R: Wait>(
    rt: &R,
    desk: &Desk<SectorResult, L, C>,
    seat: &Seat<L, C>,
    piece: &SectorResult,
    portion: Portion,
) -> bool {
    let mut guard = desk.locked.lock(rt);
    guard.post(seat, piece, portion.first, portion.end).is_ok()
}

// Posts the tails of a piece, each portion in a holding of its own, and answers whether all went through.
fn post_tails<L: Ledger, C: Ledger, R: Wait>(
    rt: &R,
    alloc: Global,
    desk: &Desk<SectorResult, L, C>,
    seat: &Seat<L, C>,
    piece: &SectorResult,
) -> bool {
    let Ok(count) = u32::try_from(piece.tails().len()) else {
        return false;
    };
    let Ok(portions) = portions_of(alloc, count) else {
        return false;
    };
    for portion in portions.as_slice() {
        if !post_portion(rt, desk, seat, piece, *portion) {
            return false;
        }
        desk.changed.notify_all();
    }
    true
}

// Finishes a sector with its piece, and answers whether that went through.
fn finish_with<L: Ledger, C: Ledger, R: Wait>(
    rt: &R,
    desk: &Desk<SectorResult, L, C>,
    seat: &mut Seat<L, C>,
    piece: SectorResult,
) -> bool
    ensures { KeepsParts seat.old seat.new }
{
    desk.locked.lock(rt).finish(seat, piece).is_ok()
}

// Works on a job while no lock is held, posts its tails, and finishes its sector. Where any of these fails the answer is
// no.
fn work_on<L: Ledger, C: Ledger, R: Threads + Wait + Sync>(
    rt: &R,
    alloc: Global,
    plan: &Plan,
    desk: &Desk<SectorResult, L, C>,
    shelf: &Shelf,
    seat: &mut Seat<L, C>,
    job: &Job,
) -> bool
    ensures { KeepsParts seat.old seat.new }
{
    let Some(piece) = worked(rt, alloc, plan, shelf, job) else {
        return false;
    };
    if !post_tails(rt, alloc, desk, seat, &piece) {
        return false;
    }
    finish_with(rt, desk, seat, piece)
}

// Gives a sector back.
fn give_back<L: Ledger, C: Ledger, R: Wait>(
    rt: &R,
    desk: &Desk<SectorResult, L, C>,
    seat: &Seat<L, C>,
    sector: Sector,
) {
    let _ = desk.locked.lock(rt).give_back(seat, sector);
}

/// Takes a job, passes the gate, works, posts and finishes, until all is done. While no sector can be taken it works bases
/// ahead, or waits. A worker that cannot finish a job gives its sector back and ends, and the others go on.
pub fn work_at<L: Ledger, C: Ledger, R: Threads + Wait + Sync, G: Gate>(
    rt: &R,
    alloc: Global,
    plan: &Plan,
    desk: &Desk<SectorResult, L, C>,
    shelf: &Shelf,
    gate: &G,
    seat: &mut Seat<L, C>,
)
    ensures { KeepsParts seat.old seat.new }
{
    for _ in rt.forever() {
        let Some(job) = next_job(rt, alloc, plan, desk, shelf, seat) else {
            return;
        };
        desk.changed.notify_all();
        gate.pass(seat.worker(), job.sector.0);
        let finished = work_on(rt, alloc, plan, desk, shelf, seat, &job);
        if !finished {
            give_back(rt, desk, seat, job.sector);
        }
        desk.changed.notify_all();
        if !finished {
            return;
        }
    }
}
