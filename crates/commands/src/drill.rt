//! What `drill` writes of a family and its number.

ghost use Rattle.family.specs.FamilyView.{family_view};
ghost use Rattle.commands.specs.Answers.{IsAnswer};
ghost use Rattle.commands.specs.Drill.{IsSummaryText};
ghost use Rattle.commands.specs.Plain.{RefusesPlain};

use crate::refusal::Refusal;
use family::Family;
use neat_system::run_plain;
use std::alloc::Global;
use system_text::print_summary;

/// The summary of the family's system, as that of a drill with this number.
pub fn summary_text(alloc: Global, family: &Family, number: u16) -> Result<Vec<u8>, Refusal>
    ensures { IsAnswer (IsSummaryText (family_view family.now) number)
        (RefusesPlain (family_view family.now)) result }
{
    match run_plain(alloc, family) {
        Ok(system) => Ok(print_summary(alloc, u32::from(number), &system)?.into_vec()),
        Err(fault) => Err(Refusal::from(fault)),
    }
}
