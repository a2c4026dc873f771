// Families, what is written of them, and the work on a job.
use family::Family;
use family_file::{Need, read_family};
use neat_system::close;
use relay_core::{Job, RelayState};
use sector_job::{Plan, SectorResult, work};
use std::alloc::Global;
use system_text::{System, print_system};

/// The family of a file.
pub fn family_of(alloc: Global, file: &str) -> Option<Family> {
    read_family(alloc, file.as_bytes(), Need::Family).ok()
}

/// The plan of a file's family.
pub fn plan_of(alloc: Global, file: &str) -> Option<Plan> {
    Plan::of(alloc, family_of(alloc, file)?).ok()
}

/// The result of a job of this plan.
pub fn worked(alloc: Global, plan: &Plan, job: &Job) -> Option<SectorResult> {
    let family = plan.family();
    let n = family.n;
    if family.is_zero(job.sector) || !job.targets.as_slice().iter().all(|target| target.n() == n) {
        return None;
    }
    work(alloc, plan, job).ok()
}

/// Whether the system has this text.
pub fn is_printed(alloc: Global, system: &System, text: &str) -> bool {
    match print_system(alloc, system) {
        Ok(printed) => printed.as_slice() == text.as_bytes(),
        Err(_) => false,
    }
}

/// Whether the relay is closed and its system has this text.
pub fn closes(alloc: Global, relay: &RelayState<SectorResult>, text: &str) -> bool {
    if !relay.is_closed() {
        return false;
    }
    match close(alloc, relay) {
        Ok(system) => is_printed(alloc, &system, text),
        Err(_) => false,
    }
}
