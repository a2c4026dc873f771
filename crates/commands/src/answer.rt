//! What a command writes of its input, and a drill of its number.

ghost use Rattle.std.specs.Prelude.{◌≡◌, ◌≤◌, length};
ghost use Rattle.family.specs.FamilyView.{family_view};
ghost use Rattle.family_file.specs.Reading.{Gives};
ghost use Rattle.commands.specs.Causes.{family_for, file_of, given_of, most_of, need_of, written_of, Answers, AnswersFor, HasFile, IsWithinDrills};

use crate::basis::basis_text;
use crate::check::check_text;
use crate::check_input::parts_of;
use crate::cut::cut_text;
use crate::drill::summary_text;
use crate::fold::folded_text;
use crate::identity::identity_text;
use crate::meet::meet_text;
use crate::plain::plain_text;
use crate::refusal::Refusal;
use crate::words::Command;
use family::Family;
use family_file::{FamilyFault, Need, drill_family, read_family};
use std::alloc::Global;

// What a command needs of a file beside the family.
fn need_of(command: Command) -> Need
    ensures { result ≡ need_of command }
{
    match command {
        Command::Identity => Need::Probe,
        Command::Basis(number) => Need::Sector(u32::from(number)),
        Command::Plain => Need::Family,
        Command::Check => Need::Family,
        Command::Meet(number) => Need::Sector(u32::from(number)),
        Command::Cut(number) => Need::Sector(u32::from(number)),
        Command::Fold => Need::Family,
        Command::Drill(_) => Need::Family,
    }
}

// The file in the input of a command, and the written text behind it, which `check` alone has.
fn parts_for(command: Command, input: &[u8]) -> (&[u8], &[u8])
    requires { length input.now ≤ most_of command }
    ensures file { result.0.now ≡ file_of command input.now }
    ensures written { result.1.now ≡ written_of command input.now }
{
    match command {
        Command::Check => parts_of(input),
        _ => (input, &[]),
    }
}

// The family of the file, or of a drill, whatever the file.
fn family_for(alloc: Global, command: Command, file: &[u8]) -> Result<Family, FamilyFault>
    requires { IsWithinDrills command }
    ensures { Gives family_view result (family_for command file.now) }
{
    match command {
        Command::Drill(number) => Ok(drill_family(alloc, u32::from(number))?),
        _ => read_family(alloc, file, need_of(command)),
    }
}

// The text that a command writes of a family, and of a written text.
fn text_for(
    alloc: Global,
    command: Command,
    family: &Family,
    written: &[u8],
) -> Result<Vec<u8>, Refusal>
    requires { HasFile command (family_view family.now) }
    ensures { AnswersFor command (record { family = family_view family.now; written = written.now }) result }
{
    match command {
        Command::Identity => identity_text(alloc, family),
        Command::Basis(number) => basis_text(alloc, family, number),
        Command::Plain => plain_text(alloc, family),
        Command::Check => check_text(alloc, family, written),
        Command::Meet(number) => meet_text(alloc, family, number),
        Command::Cut(number) => cut_text(alloc, family, number),
        Command::Fold => folded_text(alloc, family),
        Command::Drill(number) => summary_text(alloc, family, number),
    }
}

/// The text that a command writes of its input: a row on a line, the block of a sector, a system, or that a text is right;
/// for a drill the summary of the system of its family, whatever the bytes are. It is made whole, so that a refusal comes
/// before the first byte is written.
pub fn text_of(alloc: Global, command: Command, input: &[u8]) -> Result<Vec<u8>, Refusal>
    requires number { IsWithinDrills command }
    requires few { length input.now ≤ most_of command }
    ensures { Answers command (given_of command input.now) result }
{
    let (file, written) = parts_for(command, input);
    let family = family_for(alloc, command, file)?;
    text_for(alloc, command, &family, written)
}
