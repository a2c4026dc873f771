//! The bytes of a source, and what a command takes of them.

ghost use Rattle.std.specs.Prelude.{◌≡◌, ◌+◌, ◌^◌, ◌<◌, ◌≤◌, vec_len, IfOk, IsOk, IsErrOf};
ghost use Rattle.ibp_outside.specs.Causes.{Rose};
ghost use Rattle.commands.specs.Causes.{most_of, ReadsFile, Takes};
ghost use Rattle.commands.specs.Input.{TakesFront};
ghost use Rattle.commands.specs.declared.input.InputFault.TheVariants.{Failed as ReadFailed, NoMemory};

use crate::words::Command;
use family_file::MAX_FILE;
use ibp_outside::{Failed, Source};
use std::alloc::{AllocError, Global};
use system_check::TEXT_LIMIT;

/// Why the bytes of a source could not be read.
#[derive(Clone, Copy, Debug, PartialEq, Eq)]
pub enum InputFault {
    /// A call of the source failed, and was counted there.
    Failed,
    /// Memory ran out before the source's end.
    NoMemory,
}

impl From<Failed> for InputFault {
    ghost from_gives = { λ _ e. e ≡ ReadFailed };

    fn from(_e: Failed) -> InputFault {
        InputFault::Failed
    }
}

impl From<AllocError> for InputFault {
    ghost from_gives = { λ _ e. e ≡ NoMemory };

    fn from(_e: AllocError) -> InputFault {
        InputFault::NoMemory
    }
}

/// The bytes of a source to its end, or one more than the limit where there are more.
pub fn read_input<S: Source>(
    alloc: Global,
    source: &mut S,
    limit: usize,
) -> Result<Vec<u8>, InputFault>
    requires { limit < 2 ^ 63 }
    ensures bytes { IfOk result (λ v. TakesFront (limit + 1) (S.left source.old)
        (S.left source.new) v.items) }
    ensures few { IfOk result (λ v. vec_len v ≤ limit + 1) }
    ensures failed { IsErrOf result InputFault.Failed
        → Rose (S.faults source.old) (S.faults source.new) }
    ensures later { S.faults source.old ≤ S.faults source.new }
{
    let mut bytes = Vec::new(alloc);
    let mut buf = [0u8; 4096];
    while bytes.len() <= limit {
        let room = buf.len().min(limit + 1 - bytes.len());
        let count = source.read(&mut buf[..room])?;
        if count == 0 {
            break;
        }
        bytes.extend_from_slice(&buf[..count])?;
    }
    Ok(bytes)
}

/// What a command takes of a source: the bytes to its end, or one more than a file may have, and for `check` one more than
/// a file and a text may have; nothing for a drill, which leaves the source as it was.
pub fn input_of<S: Source>(
    alloc: Global,
    command: Command,
    source: &mut S,
) -> Result<Vec<u8>, InputFault>
    ensures bytes { IfOk result (λ v. Takes command (S.left source.old) (S.left source.new) v.items) }
    ensures few { IfOk result (λ v. vec_len v ≤ most_of command) }
    ensures given { ¬ ReadsFile command → IsOk result }
    ensures untouched { ¬ ReadsFile command → source.new ≡ source.old }
    ensures failed { IsErrOf result InputFault.Failed
        → Rose (S.faults source.old) (S.faults source.new) }
    ensures later { S.faults source.old ≤ S.faults source.new }
{
    match command {
        Command::Drill(_) => Ok(Vec::new(alloc)),
        Command::Check => read_input(alloc, source, MAX_FILE + TEXT_LIMIT),
        _ => read_input(alloc, source, MAX_FILE),
    }
}
