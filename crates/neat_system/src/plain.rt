// The system of a family, worked out on one thread.
ghost use Rattle.std.specs.Prelude.{◌≡◌, IfOk};
ghost use Rattle.family.specs.FamilyView.{family_view};
ghost use Rattle.relay_core.specs.Relay.{AllDone};
ghost use Rattle.neat_system.specs.Answer.{IsAnswerFor};

use crate::alone::{opened, work_all};
use crate::closing::close;
use crate::fault::SystemFault;
use family::Family;
use ibp_base::NoMemory;
use relay_core::RelayState;
use sector_job::{Plan, SectorResult};
use std::alloc::Global;
use system_text::System;

/// The relay of the family, with each reached sector done.
pub fn worked_through(alloc: Global, family: &Family) -> Result<RelayState<SectorResult>, NoMemory>
    ensures closed { IfOk result (λ state. AllDone state.progress) }
    ensures family { IfOk result (λ state. family_view state.plan ≡ family_view family.now) }
{
    let plan = Plan::of(alloc, family.copy(alloc)?)?;
    let mut state = opened(alloc, &plan)?;
    work_all(alloc, &plan, &mut state)?;
    Ok(state)
}

/// The system of a family, as `close` gives it, with all reached sectors worked on one thread. Where a reached sector
/// isn't worked, the first such sector in sector order is the fault.
pub fn run_plain(alloc: Global, family: &Family) -> Result<System, SystemFault>
    ensures { IsAnswerFor (family_view family.now) result }
{
    let state = worked_through(alloc, family)?;
    close(alloc, &state)
}
