//! What `plain` writes of a family.

ghost use Rattle.family.specs.FamilyView.{family_view};
ghost use Rattle.commands.specs.Answers.{IsAnswer};
ghost use Rattle.commands.specs.Plain.{IsSystemText, RefusesPlain};

use crate::refusal::Refusal;
use family::Family;
use neat_system::run_plain;
use std::alloc::Global;
use system_text::print_system;

/// The text of the family's system.
pub fn plain_text(alloc: Global, family: &Family) -> Result<Vec<u8>, Refusal>
    ensures { IsAnswer (IsSystemText (family_view family.now))
        (RefusesPlain (family_view family.now)) result }
{
    match run_plain(alloc, family) {
        Ok(system) => Ok(print_system(alloc, &system)?.into_vec()),
        Err(fault) => Err(Refusal::from(fault)),
    }
}
