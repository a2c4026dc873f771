// The main thread finishes what workers left.
use neat_system::opened;
use neat_workers::finish_alone;
use relay_core::{Event, RelayState, Taken};
use sector_job::{Plan, SectorResult};
use std::alloc::Global;
use std::process::Abort;
use worked_texts::{PLANE, QUAD, QUAD_SYSTEM, closes, plan_of, worked};

// A relay of the quad in which the first worker holds sector 1, and has posted its tail.
fn posted(rt: &impl Abort, alloc: Global, plan: &Plan) -> RelayState<SectorResult> {
    let mut relay = opened(alloc, plan).ok().expect(rt, "memory");
    match relay.take(1) {
        Ok(Taken::Job(job)) => {
            let piece = worked(alloc, plan, &job).expect(rt, "a result");
            assert!(rt; relay.post(1, &piece, 0, 1) == Ok(()));
        }
        _ => panic!(rt; "no job"),
    }
    relay
}

// What happened in a relay.
fn events_of(rt: &impl Abort, alloc: Global, relay: &RelayState<SectorResult>) -> Vec<Event> {
    Vec::from_slice(alloc, relay.journal())
        .ok()
        .expect(rt, "memory")
}

#[test]
fn a_relay_of_the_plan_goes_on(rt: HostRuntime) {
    let alloc = rt.alloc();
    let plan = plan_of(alloc, QUAD).expect(&rt, "memory");
    let relay = posted(&rt, alloc, &plan);
    let before = events_of(&rt, alloc, &relay);
    let done = finish_alone(alloc, &plan, relay).ok().expect(&rt, "memory");
    assert!(rt; done.journal().starts_with(&before));
    assert!(rt; closes(alloc, &done, QUAD_SYSTEM));
}

#[test]
fn a_relay_of_another_plan_is_left(rt: HostRuntime) {
    let alloc = rt.alloc();
    let plan = plan_of(alloc, QUAD).expect(&rt, "memory");
    let other = opened(alloc, &plan_of(alloc, PLANE).expect(&rt, "memory"));
    let other = other.ok().expect(&rt, "memory");
    let done = finish_alone(alloc, &plan, other).ok().expect(&rt, "memory");
    assert!(rt; closes(alloc, &done, QUAD_SYSTEM));
}
