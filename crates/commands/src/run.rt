//! The top call.

ghost use Rattle.std.specs.Prelude.{◌≡◌, ◌≢◌, ◌≤◌, ◌+◌, ◌⊎◌, map, string_bytes, None, Some, IsOkAnd};
ghost use Rattle.std.specs.Io.KnownBytes.{Keeps};
ghost use Rattle.ibp_outside.specs.Causes.{Rose};
ghost use Rattle.commands.specs.Words.{command_of};
ghost use Rattle.commands.specs.Causes.{most_of, Accepts, IfGiven, IsAnswered, IsReached, IsReadThrough, IsRefused, ReadsFile, Tells};
ghost use Rattle.commands.specs.declared.words.Command.{Command};
ghost use Rattle.commands.specs.declared.status.Status.{Status};

use crate::answer::text_of;
use crate::input::input_of;
use crate::output::write_text;
use crate::status::Status;
use crate::words::command_of;
use ibp_outside::{Failed, Sink, Source};
use std::alloc::Global;

/// Does what the words ask for with the bytes of the source, and writes the text to the sink. A drill reads nothing.
/// The words have no name of a program in front.
pub fn run_calm<S: Source, K: Sink>(
    alloc: Global,
    words: &[String],
    source: &mut S,
    sink: &mut K,
) -> Status
    // Which words are commands. With others nothing is read.
    ensures usage { result ≡ Status.Usage → command_of (map string_bytes words.now) ≡ None }
    ensures no_command { command_of (map string_bytes words.now) ≡ None
        → (result ≡ Status.Usage) ⊎ (result ≡ Status.NoMemory) }
    ensures nothing_read { result ≡ Status.Usage → Keeps (S.left source.old) (S.left source.new) }

    // What the status tells of the file, or of the drill's family, and what the sink took.
    ensures told { (command : Command) → command_of (map string_bytes words.now) ≡ Some command →
        IfGiven command (S.left source.old) (λ given. Tells command given
        (K.taken sink.old) (K.taken sink.new) result) }

    // Where the file has a fault, or the command refuses its family, that is the answer.
    ensures refused { (command : Command) (status : Status)
        → command_of (map string_bytes words.now) ≡ Some command →
        IfGiven command (S.left source.old) (λ given.
        IsRefused command given status → IsAnswered status result) }

    // Only a run that is done, or that the sink stopped, writes.
    ensures nothing_written { result ≢ Status.Done → result ≢ Status.WriteFault →
        Keeps (K.taken sink.old) (K.taken sink.new) }

    // Every other status of a command that reads a file comes after the source was read to its end, or past the limit.
    ensures read_through { (command : Command) → command_of (map string_bytes words.now) ≡ Some command
        → ReadsFile command → IsReached result
        → IsReadThrough (most_of command) (S.left source.old) (S.left source.new) }

    // No other command touches the source, so none has a fault of reading.
    ensures no_file { (command : Command) → command_of (map string_bytes words.now) ≡ Some command
        → ¬ ReadsFile command → source.new ≡ source.old }
    ensures no_read_fault { (command : Command) → command_of (map string_bytes words.now) ≡ Some command
        → ¬ ReadsFile command → result ≢ Status.ReadFault }

    // A fault comes only where the object's own count rose.
    ensures read_fault { result ≡ Status.ReadFault
        → Rose (S.faults source.old) (S.faults source.new) }
    ensures write_fault { result ≡ Status.WriteFault
        → Rose (K.faults sink.old) (K.faults sink.new) }
    ensures read_later { S.faults source.old ≤ S.faults source.new }
    ensures write_later { K.faults sink.old ≤ K.faults sink.new }

    // A command that can work on the file is done, unless memory runs out or a fault is counted.
    ensures complete { (command : Command)
        → command_of (map string_bytes words.now) ≡ Some command →
        IfGiven command (S.left source.old) (λ given.
        IsOkAnd given (Accepts command)
        → ¬ Rose (S.faults source.old) (S.faults source.new)
        → ¬ Rose (K.faults sink.old) (K.faults sink.new)
        → (result ≡ Status.Done) ⊎ (result ≡ Status.NoMemory)) }
{
    let command = match command_of(alloc, words) {
        Ok(command) => command,
        Err(fault) => return Status::from(fault),
    };
    let bytes = match input_of(alloc, command, source) {
        Ok(bytes) => bytes,
        Err(fault) => return Status::from(fault),
    };
    let text = match text_of(alloc, command, &bytes) {
        Ok(text) => text,
        Err(refusal) => return Status::from(refusal),
    };
    match write_text(sink, &text) {
        Ok(()) => Status::Done,
        Err(Failed) => Status::WriteFault,
    }
}
