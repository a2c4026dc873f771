// Checks of a text.
ghost use Rattle.std.specs.Prelude.{◌≡◌, ◌≢◌, OnOk, Ok, Err};
ghost use Rattle.family.specs.FamilyView.{family_view};
ghost use Rattle.system_text.specs.SystemValues.{IsSystemValue};
ghost use Rattle.system_check.specs.declared.fault.CheckAnswer.{CheckAnswer};
ghost use Rattle.system_check.specs.declared.fault.CheckFault.{CheckFault};
ghost use Rattle.system_check.specs.Rightness.{IsRight, IsRightSystem};
ghost use Rattle.system_check.specs.Checking.{IsCause, IsFault};

use crate::blocks::first_outside;
use crate::fault::{CheckAnswer, CheckFault};
use crate::limits::TEXT_LIMIT;
use crate::reductions::{are_targets, first_unreduced};
use crate::relations::first_other;
use family::Family;
use std::alloc::Global;
use system_text::{System, read_system};

// Whether the system is right for the family, or the first cause that it isn't.
fn check_system(alloc: Global, family: &Family, system: &System) -> Result<(), CheckAnswer>
    requires { IsSystemValue family.now.n system.now }
    ensures right { OnOk result (IsRightSystem (family_view family.now) system.now) }
    ensures fault { (fault : CheckFault) → result ≡ Err (CheckAnswer.No fault) → IsCause (family_view family.now) system.now fault }
{
    if system.name != family.name {
        return Err(CheckAnswer::No(CheckFault::BadName));
    }
    let blocks = system.sectors.as_slice();
    let relations = system.relations.as_slice();
    let reductions = system.reductions.as_slice();
    if let Some((sector, field)) = first_outside(alloc, family, blocks)? {
        return Err(CheckAnswer::No(CheckFault::BadField { sector, field }));
    }
    if let Some(number) = first_other(alloc, family, blocks, relations)? {
        return Err(CheckAnswer::No(CheckFault::BadRelation(number)));
    }
    if !are_targets(reductions, family.targets.as_slice()) {
        return Err(CheckAnswer::No(CheckFault::BadTargets));
    }
    if let Some(number) = first_unreduced(alloc, family, relations, reductions)? {
        return Err(CheckAnswer::No(CheckFault::BadReduction(number)));
    }
    Ok(())
}

/// Whether a written text is right for a family. No basis is computed: each field is tested by the two conditions,
/// each relation is made again from its field and seed, and each reduction is added up from its weights.
pub fn check(alloc: Global, family: &Family, written: &[u8]) -> Result<(), CheckAnswer>
    ensures right { OnOk result (IsRight (family_view family.now) written.now) }
    ensures accepted { IsRight (family_view family.now) written.now → result ≢ Err CheckAnswer.NoMemory → result ≡ Ok tt }
    ensures fault { (fault : CheckFault) → result ≡ Err (CheckAnswer.No fault) → IsFault (family_view family.now) written.now fault }
    ensures refused { (fault : CheckFault) → IsFault (family_view family.now) written.now fault → result ≢ Err CheckAnswer.NoMemory → result ≡ Err (CheckAnswer.No fault) }
{
    if written.len() > TEXT_LIMIT {
        return Err(CheckAnswer::No(CheckFault::TooLong));
    }
    let system = read_system(alloc, written, family.n)?;
    check_system(alloc, family, &system)
}
