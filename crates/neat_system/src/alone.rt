// A relay whose sectors are worked by one worker alone.
ghost use Rattle.std.specs.Prelude.{◌≡◌, [], IfOk, OnOk};
ghost use Rattle.std.specs.Bool.{OnTrue, OnFalse};
ghost use Rattle.relay_core.specs.Relay.{AllDone};
ghost use Rattle.neat_system.specs.Running.{IsUnderWay, Advances, Continues};

use crate::declared::opening_targets;
use ibp_base::NoMemory;
use relay_core::{FinishFault, RelayState, Taken};
use sector_job::{Plan, SectorResult, work};
use std::alloc::Global;

/// The relay of a plan, which opens with the declared targets that are in no zero sector.
pub fn opened(alloc: Global, plan: &Plan) -> Result<RelayState<SectorResult>, NoMemory>
    ensures under_way { IfOk result (IsUnderWay plan.now) }
    ensures fresh { IfOk result (λ state. state.journal ≡ []) }
{
    let targets = opening_targets(alloc, plan.family())?;
    let state = RelayState::open(alloc, plan.share()?, plan.family().n, &targets)?;
    Ok(state)
}

// The number of the one worker.
const WORKER: u32 = 1;

// Works on the next sector. False where none is left.
fn work_next(
    alloc: Global,
    plan: &Plan,
    state: &mut RelayState<SectorResult>,
) -> Result<bool, NoMemory>
    requires { IsUnderWay plan.now state.old }
    ensures journal { OnOk result (Continues state.old.journal state.new.journal) }
    ensures more { IfOk result (λ more. OnTrue more (Advances plan.now state.old state.new)) }
    ensures closed { IfOk result (λ more. OnFalse more ((state.new ≡ state.old) × AllDone state.new.progress)) }
{
    match state.take(WORKER)? {
        Taken::Closed => Ok(false),
        Taken::NotYet => unreachable!(),
        Taken::Job(job) => {
            let piece = work(alloc, plan, &job)?;
            match state.finish(WORKER, piece) {
                Ok(()) => Ok(true),
                Err(FinishFault::NoMemory(_)) => Err(NoMemory),
                Err(FinishFault::NotHeld(_)) => unreachable!(),
                Err(FinishFault::Stranger(_)) => unreachable!(),
            }
        }
    }
}

/// Works on all sectors that are left, one after another. What happened before stays in the journal.
pub fn work_all(
    alloc: Global,
    plan: &Plan,
    state: &mut RelayState<SectorResult>,
) -> Result<(), NoMemory>
    requires { IsUnderWay plan.now state.old }
    ensures journal { OnOk result (Continues state.old.journal state.new.journal) }
    ensures under_way { OnOk result (IsUnderWay plan.now state.new) }
    ensures closed { OnOk result (AllDone state.new.progress) }
{
    while work_next(alloc, plan, state)? {}
    Ok(())
}
