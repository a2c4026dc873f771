// What the main thread makes good of a relay that workers left.
ghost use Rattle.std.specs.Prelude.{◌≡◌, [], Some, MatchOption, IfOk};
ghost use Rattle.family.specs.FamilyView.{family_view};
ghost use Rattle.relay_core.specs.Relay.{AllDone, holder_of};
ghost use Rattle.neat_system.specs.Running.{IsUnderWay, Continues};

use ibp_base::NoMemory;
use neat_system::{opened, work_all};
use relay_core::{Holding, RelayState};
use sector_job::laws::are_equal;
use sector_job::{Plan, SectorResult};
use std::alloc::Global;

// A sector that is held, with its worker.
fn some_holding(state: &RelayState<SectorResult>) -> Option<Holding>
    ensures { MatchOption result (state.now.progress.held ≡ []) (λ holding. holder_of holding.sector.0 state.now.progress.held ≡ Some holding.worker) }
{
    state.held().first().copied()
}

// Gives each sector back that is held.
fn give_all_back(state: &mut RelayState<SectorResult>)
    ensures free { state.new.progress.held ≡ [] }
    ensures plan { state.new.plan ≡ state.old.plan }
    ensures journal { Continues state.old.journal state.new.journal }
{
    while let Some(holding) = some_holding(state) {
        let Ok(()) = state.give_back(holding.worker, holding.sector) else {
            unreachable!()
        };
    }
}

// The plan of a relay in which no sector is held, whose journal leads from the plan's opening to the relay.
fn own_plan(state: &RelayState<SectorResult>) -> Result<Plan, NoMemory>
    requires { state.now.progress.held ≡ [] }
    ensures { IfOk result (λ plan. IsUnderWay plan state.now) }
{
    let _events = state.journal();
    state.plan().share()
}

// Goes on with a relay from where it stands.
fn gone_on(
    alloc: Global,
    mut state: RelayState<SectorResult>,
) -> Result<RelayState<SectorResult>, NoMemory>
    ensures closed { IfOk result (λ done. AllDone done.progress) }
    ensures plan { IfOk result (λ done. done.plan ≡ state.plan) }
    ensures journal { IfOk result (λ done. Continues state.journal done.journal) }
{
    give_all_back(&mut state);
    let plan = own_plan(&state)?;
    work_all(alloc, &plan, &mut state)?;
    Ok(state)
}

// Begins a relay of the plan, and works it through.
fn started_afresh(alloc: Global, plan: &Plan) -> Result<RelayState<SectorResult>, NoMemory>
    ensures closed { IfOk result (λ done. AllDone done.progress) }
    ensures plan { IfOk result (λ done. done.plan ≡ plan.now) }
{
    let mut state = opened(alloc, plan)?;
    work_all(alloc, plan, &mut state)?;
    Ok(state)
}

/// A relay of the plan in which each reached sector is done. Where the relay at hand is of this plan, it goes on: what is
/// still held is given back, and what is left is worked, so that its journal is the front of the new one. Else a new
/// relay is worked through.
pub fn finish_alone(
    alloc: Global,
    plan: &Plan,
    state: RelayState<SectorResult>,
) -> Result<RelayState<SectorResult>, NoMemory>
    ensures closed { IfOk result (λ done. AllDone done.progress) }
    ensures family { IfOk result (λ done. family_view done.plan ≡ family_view plan.now) }
    ensures kept { family_view state.plan ≡ family_view plan.now → IfOk result (λ done. Continues state.journal done.journal) }
{
    if are_equal(state.plan(), plan) {
        gone_on(alloc, state)
    } else {
        started_afresh(alloc, plan)
    }
}
