// Relays over the results of sectors.
ghost use Rattle.std.specs.Prelude.{◌≡◌};

use relay_core::{Job, RelayState, Taken};
use sector_job::{Plan, SectorResult};
use std::alloc::Global;
use std::process::Abort;

fn shared(rt: &impl Abort, plan: &Plan) -> Plan
    ensures { result ≡ plan.now }
{
    match plan.share() {
        Ok(shared) => shared,
        Err(_) => panic!(rt; "no plan"),
    }
}

/// A relay on a plan without zero sectors.
pub fn opened(rt: &impl Abort, alloc: Global, plan: &Plan) -> RelayState<SectorResult> {
    let family = plan.family();
    if !family.zero.as_slice().is_empty() {
        panic!(rt; "a zero sector");
    }
    let relay = RelayState::open(alloc, shared(rt, plan), family.n, family.targets.as_slice());
    relay.ok().expect(rt, "memory")
}

/// The job that the relay gives to the worker.
pub fn job_of(rt: &impl Abort, relay: &mut RelayState<SectorResult>, worker: u32) -> Job {
    match relay.take(worker) {
        Ok(Taken::Job(job)) => job,
        _ => panic!(rt; "no job"),
    }
}
