//! What `fold` writes of a family.

ghost use Rattle.family.specs.FamilyView.{family_view};
ghost use Rattle.commands.specs.Answers.{IsAnswer};
ghost use Rattle.commands.specs.Fold.{IsFoldText, RefusesFold};

use crate::refusal::Refusal;
use family::Family;
use neat_system::run_plain;
use std::alloc::Global;
use symmetry_fold::{first_broken, fold};
use system_text::print_fold;

/// The text of the folded system of the family, whose permutations are tested before the system is worked out.
pub fn folded_text(alloc: Global, family: &Family) -> Result<Vec<u8>, Refusal>
    ensures { IsAnswer (IsFoldText (family_view family.now)) (RefusesFold (family_view family.now)) result }
{
    if let Some(number) = first_broken(alloc, family)? {
        return Err(Refusal::NotSymmetric(number));
    }
    match run_plain(alloc, family) {
        Ok(system) => {
            let folded = fold(alloc, family, &system)?;
            Ok(print_fold(alloc, &folded)?.into_vec())
        }
        Err(fault) => Err(Refusal::from(fault)),
    }
}
