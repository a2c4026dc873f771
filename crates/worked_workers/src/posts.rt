// What a worker leaves in the journal.
use ibp_outside::OpenGate;
use neat_workers::left_by_workers;
use relay_core::{Event, RelayState};
use sector_job::SectorResult;
use sector_lattice::Sector;
use std::alloc::Global;
use std::marker::Brand;
use std::process::Abort;
use std::sync::Wait;
use std::sync::ledger::Blank;
use std::thread::Threads;
use worked_texts::{QUAD, plan_of};

// The relay of the quad that one worker leaves.
fn left_by_one<R: Threads + Wait + Sync + Abort>(
    rt: &R,
    alloc: Global,
) -> RelayState<SectorResult> {
    let plan = plan_of(alloc, QUAD).expect(rt, "memory");
    let finishes = Blank::new(1);
    let closings = Blank::new(1);
    let relay = left_by_workers::<Brand, Brand, R, OpenGate>(
        rt, alloc, &plan, 1, &OpenGate, finishes, closings,
    );
    relay.ok().expect(rt, "memory")
}

#[test]
fn tails_are_posted_before_their_sector_is_finished(rt: HostRuntime) {
    let worker = 1;
    let events = [
        Event::Take {
            worker,
            sector: Sector(1),
        },
        Event::Post {
            worker,
            sector: Sector(1),
            first: 0,
            end: 1,
        },
        Event::Finish {
            worker,
            sector: Sector(1),
        },
        Event::Take {
            worker,
            sector: Sector(0),
        },
        Event::Finish {
            worker,
            sector: Sector(0),
        },
    ];
    let relay = left_by_one(&rt, rt.alloc());
    assert!(rt; relay.is_closed());
    assert!(rt; relay.journal() == events.as_slice());
}
