// What `system` writes of a file.
ghost use Rattle.std.specs.Prelude.{◌≡◌, ◌≤◌};
ghost use Rattle.family.specs.FamilyView.{family_view};
ghost use Rattle.relay_desk.specs.declared.limits.TheConstants.{WORKERS};
ghost use Rattle.commands.specs.Answers.{IsAnswer};
ghost use Rattle.commands.specs.Causes.{given_of, Answers};
ghost use Rattle.commands.specs.Plain.{IsSystemText, RefusesPlain};
ghost use Rattle.commands.specs.declared.words.Command.TheVariants as command;

use commands::Refusal;
use family::Family;
use family_file::{Need, read_family};
use ibp_outside::Gate;
use neat_workers::run_workers;
use std::alloc::Global;
use std::sync::Wait;
use std::thread::Threads;
use system_text::print_system;

// The text of the family's system.
fn system_text<R: Threads + Wait + Sync, G: Gate>(
    rt: &R,
    alloc: Global,
    family: &Family,
    workers: u32,
    gate: &G,
) -> Result<Vec<u8>, Refusal>
    requires { (1 ≤ workers) × (workers ≤ WORKERS) }
    ensures { IsAnswer (IsSystemText (family_view family.now)) (RefusesPlain (family_view family.now)) result }
{
    match run_workers(rt, alloc, family, workers, gate) {
        Ok(system) => Ok(print_system(alloc, &system)?.into_vec()),
        Err(fault) => Err(Refusal::from(fault)),
    }
}

/// The text of a file's system, worked out by several workers.
pub fn text_of<R: Threads + Wait + Sync, G: Gate>(
    rt: &R,
    alloc: Global,
    bytes: &[u8],
    workers: u32,
    gate: &G,
) -> Result<Vec<u8>, Refusal>
    requires { (1 ≤ workers) × (workers ≤ WORKERS) }
    ensures { Answers command.Plain (given_of command.Plain bytes.now) result }
{
    let family = read_family(alloc, bytes, Need::Family)?;
    system_text(rt, alloc, &family, workers, gate)
}
