// The system of a relay in which each reached sector is done.
ghost use denote.Param.Send.{IsSync};
ghost use Rattle.std.specs.Prelude.{◌≡◌, ◌<◌, ◌≤◌, ◌^◌, IfOk, length};
ghost use Rattle.sector_lattice.specs.Sectors.{integral_cmp};
ghost use Rattle.family.specs.FamilyView.{family_view};
ghost use Rattle.relay_core.specs.Relay.{AllDone};
ghost use Rattle.row_echelon.specs.References.{rows_of};
ghost use Rattle.relation_pick.specs.Picking.{IsPick};
ghost use Rattle.relation_pick.specs.declared.parts.TheConstants.{PARTS};
ghost use Rattle.neat_system.specs.Answer.{IsAnswer, IsAnswerFor};
ghost use Rattle.neat_system.specs.Gathering.{Writes};

use crate::fault::SystemFault;
use crate::faults::first_fault;
use crate::gathering::{Gathered, gather};
use crate::relations::relations_at;
use family::Family;
use ibp_base::{List, NoMemory};
use relation_pick::{AtOnce, InTurn, PARTS, Picked, pick_among, pick_wide_among};
use relay_core::RelayState;
use sector_job::SectorResult;
use sparse_rows::Row;
use std::alloc::Global;
use std::thread::Threads;
use system_text::System;
use target_rows::{declared_rows, reductions_of};

/// How the candidates that the targets need are picked.
pub trait Picking {
    // What is asked of what its threads share.
    ghost can_pick: { Type 0 };

    /// The candidates that are needed, and the answer for each target.
    fn pick(&self, alloc: Global, candidates: &[&Row], targets: &[Row]) -> Result<Picked, NoMemory>
        requires can { can_pick }
        requires few { length candidates.now < 2 ^ 32 }
        ensures pick { IfOk result (λ picked. IsPick integral_cmp (rows_of candidates.now) targets.now picked.written picked.reductions picked.weights) };
}

impl Picking for InTurn {
    ghost can_pick = { Unit {0} };

    fn pick(
        &self,
        alloc: Global,
        candidates: &[&Row],
        targets: &[Row],
    ) -> Result<Picked, NoMemory> {
        pick_among(alloc, candidates, targets)
    }
}

impl<'a, R: Threads + Sync> Picking for AtOnce<'a, R> {
    ghost can_pick = { IsSync R.row };

    fn pick(
        &self,
        alloc: Global,
        candidates: &[&Row],
        targets: &[Row],
    ) -> Result<Picked, NoMemory> {
        pick_wide_among(
            self.rt,
            alloc,
            candidates,
            targets,
            self.parts.max(1).min(PARTS),
        )
    }
}

// The system of what is gathered.
fn system_of<P: Picking>(
    alloc: Global,
    picking: &P,
    family: &Family,
    gathered: Gathered,
) -> Result<System, NoMemory>
    requires can { P.can_pick }
    requires few { length gathered.candidates.items < 2 ^ 31 }
    requires labels { length gathered.labels.items ≡ length gathered.candidates.items }
    ensures { IfOk result (Writes (family_view family.now) gathered.entry) }
{
    let Gathered {
        blocks,
        labels,
        candidates,
    } = gathered;
    let targets = declared_rows(alloc, family)?;
    let picked = picking.pick(alloc, &candidates, &targets)?;
    let relations = relations_at(alloc, &labels, &candidates, picked.written.as_slice())?;
    let reductions = reductions_of(alloc, family.targets.as_slice(), &picked)?;
    let name = family.name.copy(alloc)?;
    Ok(System {
        name,
        n: family.n,
        sectors: List::from_vec(blocks),
        relations: List::from_vec(relations),
        reductions: List::from_vec(reductions),
    })
}

// The answer for the family of a closed relay.
fn answer<P: Picking>(
    alloc: Global,
    picking: &P,
    state: &RelayState<SectorResult>,
) -> Result<System, SystemFault>
    requires can { P.can_pick }
    requires closed { AllDone state.now.progress }
    ensures { IsAnswer (family_view state.now.plan) result }
{
    prove!(state.is_closed());
    if let Some(fault) = first_fault(state.pieces()) {
        return Err(fault);
    }
    let family = state.plan().family();
    let gathered = gather(alloc, state.pieces())?;
    let system = system_of(alloc, picking, family, gathered)?;
    Ok(system)
}

/// The system of the family of a closed relay: the reached sectors with their bases, the candidates that the
/// declared targets need, and what each target is reduced to by them. Where a reached sector isn't worked, the first
/// such sector in sector order is the fault. After Wu, Boehm, Ma, Xu and Zhang, "NeatIBP 1.0, a package generating
/// small-size integration-by-parts relations for Feynman integrals" (2023).
pub fn close(alloc: Global, state: &RelayState<SectorResult>) -> Result<System, SystemFault>
    requires closed { AllDone state.now.progress }
    ensures { IsAnswerFor (family_view state.now.plan) result }
{
    answer(alloc, &InTurn, state)
}

/// The system of the family of a closed relay, as `close` gives it. The targets are cut into so many consecutive pieces,
/// which are reduced in threads of their own. It may wait for the threads that it starts.
pub fn close_wide<R: Threads + Sync>(
    rt: &R,
    alloc: Global,
    state: &RelayState<SectorResult>,
    parts: u32,
) -> Result<System, SystemFault>
    requires closed { AllDone state.now.progress }
    requires parts { (1 ≤ parts) × (parts ≤ PARTS) }
    ensures { IsAnswerFor (family_view state.now.plan) result }
{
    answer(alloc, &AtOnce { rt, parts }, state)
}
