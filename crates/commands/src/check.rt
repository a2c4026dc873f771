//! What `check` writes of a family and a written text.

ghost use Rattle.std.specs.Prelude.{◌≡◌, IfOk, codes};
ghost use Rattle.family.specs.FamilyView.{family_view};
ghost use Rattle.commands.specs.Answers.{IsAnswer};
ghost use Rattle.commands.specs.Check.{IsCheckText, RefusesCheck};

use crate::refusal::Refusal;
use family::Family;
use ibp_base::NoMemory;
use std::alloc::Global;
use system_check::check;

// The text of a yes.
fn yes(alloc: Global) -> Result<Vec<u8>, NoMemory>
    ensures { IfOk result (λ text. text.items ≡ codes "yes\n") }
{
    let mut text = Vec::new(alloc);
    text.extend_from_slice(b"yes\n")?;
    Ok(text)
}

/// The line `yes` where the written text is right for the family.
pub fn check_text(alloc: Global, family: &Family, written: &[u8]) -> Result<Vec<u8>, Refusal>
    ensures { IsAnswer (IsCheckText (family_view family.now) written.now) (RefusesCheck (family_view family.now) written.now) result }
{
    check(alloc, family, written)?;
    Ok(yes(alloc)?)
}
