// One thread calls a desk for two seats.
ghost use Rattle.std.specs.Prelude.{◌≡◌};
ghost use Rattle.neat_workers.specs.Seats.{KeepsParts};

use neat_system::opened;
use neat_workers::finish_alone;
use relay_core::{Job, RelayState, Taken};
use relay_desk::{Desk, Opened, Seat};
use sector_job::{Plan, SectorResult};
use sector_lattice::Sector;
use std::alloc::Global;
use std::marker::Brand;
use std::process::Abort;
use std::sync::Wait;
use std::sync::ledger::{Blank, Ledger};
use std::test::*;
use worked_texts::{QUAD, QUAD_SYSTEM, closes, plan_of, worked};

// The next job that the desk hands out.
fn next_job<L: Ledger, C: Ledger, R: Wait + Abort>(
    rt: &R,
    desk: &Desk<SectorResult, L, C>,
    seat: &mut Seat<L, C>,
) -> Job
    ensures { KeepsParts seat.old seat.new }
{
    let taken = desk.locked.lock(rt).take(seat).ok().expect(rt, "memory");
    match taken {
        Taken::Job(job) => job,
        Taken::NotYet | Taken::Closed => panic!(rt; "no job"),
    }
}

// The result of the next job that the desk hands out, which is of this sector.
fn next_result<L: Ledger, C: Ledger, R: Wait + Abort>(
    rt: &R,
    alloc: Global,
    plan: &Plan,
    desk: &Desk<SectorResult, L, C>,
    seat: &mut Seat<L, C>,
    number: u16,
) -> SectorResult
    ensures { KeepsParts seat.old seat.new }
{
    let job = next_job(rt, desk, seat);
    assert!(rt; job.sector == Sector(number), "another sector");
    worked(alloc, plan, &job).expect(rt, "a result")
}

// While the first seat holds sector 1 the second one must wait, and cannot give the sector back.
fn wait_for_the_first<L: Ledger, C: Ledger, R: Wait + Abort>(
    rt: &R,
    desk: &Desk<SectorResult, L, C>,
    second: &mut Seat<L, C>,
)
    ensures { KeepsParts second.old second.new }
{
    let waits = matches!(desk.locked.lock(rt).take(second), Ok(Taken::NotYet));
    assert!(rt; waits);
    assert!(rt; desk.locked.lock(rt).give_back(second, Sector(1)).is_err());
}

// The first seat posts the tail of sector 1, and gives the sector back.
fn post_and_give_back<L: Ledger, C: Ledger, R: Wait + Abort>(
    rt: &R,
    desk: &Desk<SectorResult, L, C>,
    first: &Seat<L, C>,
    piece: &SectorResult,
) {
    assert!(rt; desk.locked.lock(rt).post(first, piece, 0, 1).is_ok());
    assert!(rt; desk.locked.lock(rt).give_back(first, Sector(1)).is_ok());
}

// Whether the piece is taken in.
fn is_finished<L: Ledger, C: Ledger, R: Wait>(
    rt: &R,
    desk: &Desk<SectorResult, L, C>,
    seat: &mut Seat<L, C>,
    piece: SectorResult,
) -> bool
    ensures { KeepsParts seat.old seat.new }
{
    desk.locked.lock(rt).finish(seat, piece).is_ok()
}

// Takes this sector, works on it and finishes it.
fn finish_next<L: Ledger, C: Ledger, R: Wait + Abort>(
    rt: &R,
    alloc: Global,
    plan: &Plan,
    desk: &Desk<SectorResult, L, C>,
    seat: &mut Seat<L, C>,
    number: u16,
)
    ensures { KeepsParts seat.old seat.new }
{
    let piece = next_result(rt, alloc, plan, desk, seat, number);
    let finished = is_finished(rt, desk, seat, piece);
    assert!(rt; finished);
}

// Whether the seat is told that all is done.
fn sees_closed<L: Ledger, C: Ledger, R: Wait>(
    rt: &R,
    desk: &Desk<SectorResult, L, C>,
    seat: &mut Seat<L, C>,
) -> bool
    ensures { KeepsParts seat.old seat.new }
{
    matches!(desk.locked.lock(rt).take(seat), Ok(Taken::Closed))
}

// The first seat posts the tail of sector 1, gives the sector back, and then finishes both sectors.
fn finish_both<L: Ledger, C: Ledger, R: Wait + Abort>(
    rt: &R,
    alloc: Global,
    plan: &Plan,
    desk: &Desk<SectorResult, L, C>,
    first: &mut Seat<L, C>,
    second: &mut Seat<L, C>,
)
    ensures first { KeepsParts first.old first.new }
    ensures second { KeepsParts second.old second.new }
{
    let piece = next_result(rt, alloc, plan, desk, first, 1);
    wait_for_the_first(rt, desk, second);
    post_and_give_back(rt, desk, first, &piece);
    finish_next(rt, alloc, plan, desk, first, 1);
    finish_next(rt, alloc, plan, desk, first, 0);
    let closed = sees_closed(rt, desk, first);
    assert!(rt; closed);
}

// How many sectors the desk counts in the end.
fn count_of<L: Ledger, C: Ledger, R: Wait + Abort>(
    rt: &R,
    alloc: Global,
    finishes: Blank,
    closings: Blank,
) -> u64
    requires finishes { (finishes.name ≡ L.name) × (finishes.parts ≡ L.parts) × (L.parts ≡ 2) }
    requires closings { (closings.name ≡ C.name) × (closings.parts ≡ C.parts) × (C.parts ≡ 2) }
{
    let plan = plan_of(alloc, QUAD).expect(rt, "memory");
    let relay = opened(alloc, &plan).ok().expect(rt, "memory");
    let desk = Desk::<SectorResult, L, C>::open(alloc, relay, 2, finishes, closings);
    let Opened { desk, mut seats } = desk.ok().expect(rt, "memory");
    let (first, rest) = seats.as_mut_slice().split_at_mut(1);
    finish_both(rt, alloc, &plan, &desk, &mut first[0], &mut rest[0]);
    let (relay, count) = desk.into_state(seats);
    assert!(rt; relay.is_closed());
    count
}

#[test]
fn a_desk_counts_the_finished_sectors(rt: HostRuntime) {
    let alloc = rt.alloc();
    let count = count_of::<Brand, Brand, HostRuntime>(&rt, alloc, Blank::new(2), Blank::new(2));
    assert_eq!(rt; count, 2);
}

// The first seat takes sector 1 and gives it back.
fn take_and_give_back<L: Ledger, C: Ledger, R: Wait + Abort>(
    rt: &R,
    alloc: Global,
    plan: &Plan,
    desk: &Desk<SectorResult, L, C>,
    first: &mut Seat<L, C>,
    second: &mut Seat<L, C>,
)
    ensures first { KeepsParts first.old first.new }
    ensures second { KeepsParts second.old second.new }
{
    next_result(rt, alloc, plan, desk, first, 1);
    wait_for_the_first(rt, desk, second);
    assert!(rt; desk.locked.lock(rt).give_back(first, Sector(1)).is_ok());
}

// A relay whose sector 1 was taken and given back at a desk of two seats, and how many sectors the desk counts.
fn given_back<L: Ledger, C: Ledger, R: Wait + Abort>(
    rt: &R,
    alloc: Global,
    plan: &Plan,
    finishes: Blank,
    closings: Blank,
) -> (RelayState<SectorResult>, u64)
    requires finishes { (finishes.name ≡ L.name) × (finishes.parts ≡ L.parts) × (L.parts ≡ 2) }
    requires closings { (closings.name ≡ C.name) × (closings.parts ≡ C.parts) × (C.parts ≡ 2) }
{
    let relay = opened(alloc, plan).ok().expect(rt, "memory");
    let desk = Desk::<SectorResult, L, C>::open(alloc, relay, 2, finishes, closings);
    let Opened { desk, mut seats } = desk.ok().expect(rt, "memory");
    let (first, rest) = seats.as_mut_slice().split_at_mut(1);
    take_and_give_back(rt, alloc, plan, &desk, &mut first[0], &mut rest[0]);
    desk.into_state(seats)
}

#[test]
fn the_main_thread_works_what_was_given_back(rt: HostRuntime) {
    let alloc = rt.alloc();
    let plan = plan_of(alloc, QUAD).expect(&rt, "memory");
    let (relay, count) = given_back::<Brand, Brand, HostRuntime>(
        &rt,
        alloc,
        &plan,
        Blank::new(2),
        Blank::new(2),
    );
    assert_eq!(rt; count, 0);
    let done = finish_alone(alloc, &plan, relay).ok().expect(&rt, "memory");
    assert!(rt; closes(alloc, &done, QUAD_SYSTEM));
}
