// The system of a family by several workers.
ghost use Rattle.std.specs.Prelude.{◌≡◌, ◌≤◌};
ghost use Rattle.family.specs.FamilyView.{family_view};
ghost use Rattle.relay_desk.specs.declared.limits.TheConstants.{WORKERS};
ghost use Rattle.neat_system.specs.Answer.{IsAnswerFor};

use crate::finishing::finish_alone;
use crate::seats::work_at_all;
use crate::shelf::Shelf;
use family::Family;
use ibp_base::NoMemory;
use ibp_outside::Gate;
use neat_system::{SystemFault, close_wide, opened};
use relay_core::RelayState;
use relay_desk::{Desk, Opened};
use sector_job::{Plan, SectorResult};
use std::alloc::Global;
use std::marker::Brand;
use std::sync::Wait;
use std::sync::ledger::{Blank, Ledger};
use std::thread::Threads;
use system_text::System;

/// The relay that the workers leave. What it has is known by its own type alone.
pub fn left_by_workers<
    L: Ledger + Send + Sync,
    C: Ledger + Send + Sync,
    R: Threads + Wait + Sync,
    G: Gate,
>(
    rt: &R,
    alloc: Global,
    plan: &Plan,
    workers: u32,
    gate: &G,
    finishes: Blank,
    closings: Blank,
) -> Result<RelayState<SectorResult>, NoMemory>
    requires workers { (1 ≤ workers) × (workers ≤ WORKERS) }
    requires finishes { (finishes.name ≡ L.name) × (finishes.parts ≡ L.parts) × (L.parts ≡ workers) }
    requires closings { (closings.name ≡ C.name) × (closings.parts ≡ C.parts) × (C.parts ≡ workers) }
{
    let shelf = Shelf::of(alloc, plan.family())?;
    let state = opened(alloc, plan)?;
    let Opened { desk, mut seats } = Desk::<SectorResult, L, C>::open(
        alloc, state, workers, finishes, closings,
    )?;
    work_at_all(rt, alloc, plan, &desk, &shelf, gate, seats.as_mut_slice());
    let (state, _count) = desk.into_state(seats);
    Ok(state)
}

/// The system of a family, as `close` gives it, with the reached sectors worked by several workers at once. What
/// they leave undone the main thread works alone. Where a reached sector isn't worked, the first such sector in sector
/// order is the fault, whichever worker met one first.
pub fn run_workers<R: Threads + Wait + Sync, G: Gate>(
    rt: &R,
    alloc: Global,
    family: &Family,
    workers: u32,
    gate: &G,
) -> Result<System, SystemFault>
    requires { (1 ≤ workers) × (workers ≤ WORKERS) }
    ensures { IsAnswerFor (family_view family.now) result }
{
    let plan = Plan::of(alloc, family.copy(alloc)?)?;
    let parts = u64::from(workers);
    let finishes = Blank::new(parts);
    let closings = Blank::new(parts);
    let state = left_by_workers::<Brand, Brand, R, G>(
        rt, alloc, &plan, workers, gate, finishes, closings,
    )?;
    let state = finish_alone(alloc, &plan, state)?;
    close_wide(rt, alloc, &state, workers)
}
