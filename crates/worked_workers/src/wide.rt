// Work on a sector and the close of a relay in several parts at once.
use neat_system::{close_wide, opened};
use relay_core::{Job, RelayState, Taken};
use sector_job::{Plan, SectorResult, work_wide};
use std::alloc::Global;
use std::process::Abort;
use std::thread::Threads;
use worked_texts::{PLANE, PLANE_SYSTEM, is_printed, plan_of};

// The result of a job, in so many parts.
fn worked<R: Threads + Sync + Abort>(
    rt: &R,
    alloc: Global,
    plan: &Plan,
    job: &Job,
    parts: u32,
) -> SectorResult {
    let family = plan.family();
    let n = family.n;
    assert!(rt; !family.is_zero(job.sector), "a zero sector");
    assert!(rt;
        job.targets.as_slice().iter().all(|target| target.n() == n),
        "other powers"
    );
    assert!(rt; 1 <= parts && parts <= 64, "other parts");
    work_wide(rt, alloc, plan, job, parts)
        .ok()
        .expect(rt, "memory")
}

// A relay of the plan whose three sectors one worker has finished, each in so many parts.
fn worked_through<R: Threads + Sync + Abort>(
    rt: &R,
    alloc: Global,
    plan: &Plan,
    parts: u32,
) -> RelayState<SectorResult> {
    let mut relay = opened(alloc, plan).ok().expect(rt, "memory");
    for _ in 0..3 {
        match relay.take(1) {
            Ok(Taken::Job(job)) => {
                let piece = worked(rt, alloc, plan, &job, parts);
                assert!(rt; relay.finish(1, piece).is_ok());
            }
            _ => panic!(rt; "no job"),
        }
    }
    relay
}

// Whether the relay is closed, and closes in so many parts to the system with this text.
fn closes<R: Threads + Sync + Abort>(
    rt: &R,
    alloc: Global,
    relay: &RelayState<SectorResult>,
    parts: u32,
    text: &str,
) -> bool {
    assert!(rt; relay.is_closed(), "open");
    assert!(rt; 1 <= parts && parts <= 64, "other parts");
    let system = close_wide(rt, alloc, relay, parts);
    let system = system.ok().expect(rt, "a system");
    is_printed(alloc, &system, text)
}

#[test]
fn each_number_of_parts_gives_the_system_of_the_plane(rt: HostRuntime) {
    let alloc = rt.alloc();
    let plan = plan_of(alloc, PLANE).expect(&rt, "memory");
    for parts in [1, 2, 3, 64] {
        let relay = worked_through(&rt, alloc, &plan, parts);
        assert!(rt; closes(&rt, alloc, &relay, parts, PLANE_SYSTEM));
    }
}
