// The top call.
ghost use Rattle.std.specs.Prelude.{◌≡◌, ◌≢◌, ◌≤◌, ◌+◌, ◌⊎◌, map, string_bytes, None, Some, IfSome, IsOkAnd};
ghost use Rattle.std.specs.Io.KnownBytes.{Keeps};
ghost use Rattle.ibp_outside.specs.Causes.{Rose};
ghost use Rattle.relay_desk.specs.declared.limits.TheConstants.{WORKERS};
ghost use Rattle.commands.specs.Causes.{given_of, most_of, Accepts, IfGiven, IsAnswered, IsReached, IsReadThrough, IsRefused, ReadsFile, Tells};
ghost use Rattle.commands.specs.declared.words.Command.{Command};
ghost use Rattle.commands.specs.declared.words.Command.TheVariants as command;
ghost use Rattle.top_call.specs.Words.{asked_of};

use crate::system::text_of;
use crate::words::workers_of;
use commands::{Status, read_input, run_calm, write_text};
use family_file::MAX_FILE;
use ibp_base::NoMemory;
use ibp_outside::{Failed, Gate, Sink, Source};
use std::alloc::Global;
use std::sync::Wait;
use std::thread::Threads;

// Writes the system of the source's file, worked out by several workers.
fn run_system<R: Threads + Wait + Sync, S: Source, K: Sink, G: Gate>(
    rt: &R,
    alloc: Global,
    workers: u32,
    source: &mut S,
    sink: &mut K,
    gate: &G,
) -> Status
    requires { (1 ≤ workers) × (workers ≤ WORKERS) }
    ensures no_usage { result ≢ Status.Usage }
    ensures told { IfSome (S.left source.old) (λ input. Tells command.Plain (given_of command.Plain input) (K.taken sink.old) (K.taken sink.new) result) }
    ensures refused { (status : Status) → IfSome (S.left source.old) (λ input. IsRefused command.Plain (given_of command.Plain input) status → IsAnswered status result) }
    ensures nothing_written { result ≢ Status.Done → result ≢ Status.WriteFault → Keeps (K.taken sink.old) (K.taken sink.new) }
    ensures read_through { IsReached result → IsReadThrough (MAX_FILE + 1) (S.left source.old) (S.left source.new) }
    ensures read_fault { result ≡ Status.ReadFault → Rose (S.faults source.old) (S.faults source.new) }
    ensures write_fault { result ≡ Status.WriteFault → Rose (K.faults sink.old) (K.faults sink.new) }
    ensures read_later { S.faults source.old ≤ S.faults source.new }
    ensures write_later { K.faults sink.old ≤ K.faults sink.new }
    ensures complete { IfSome (S.left source.old) (λ input. IsOkAnd (given_of command.Plain input) (Accepts command.Plain) → ¬ Rose (S.faults source.old) (S.faults source.new) → ¬ Rose (K.faults sink.old) (K.faults sink.new) → (result ≡ Status.Done) ⊎ (result ≡ Status.NoMemory)) }
{
    let bytes = match read_input(alloc, source, MAX_FILE) {
        Ok(bytes) => bytes,
        Err(fault) => return Status::from(fault),
    };
    let text = match text_of(rt, alloc, &bytes, workers, gate) {
        Ok(text) => text,
        Err(refusal) => return Status::from(refusal),
    };
    match write_text(sink, &text) {
        Ok(()) => Status::Done,
        Err(Failed) => Status::WriteFault,
    }
}

/// Does what the words ask for with the bytes of the source, and writes the text to the sink, as `run_calm` does. It does
/// the words of `system` beside: they ask for what `plain` does, by so many workers, and each passes the gate before it
/// works on a sector. What is written is the same for each number of workers, and whichever sector each of them comes to
/// take. The words have no name of a program in front.
pub fn run_tool<R: Threads + Wait + Sync, S: Source, K: Sink, G: Gate>(
    rt: &R,
    alloc: Global,
    words: &[String],
    source: &mut S,
    sink: &mut K,
    gate: &G,
) -> Status
    // Which words ask for something. With others nothing is read.
    ensures usage { result ≡ Status.Usage → asked_of (map string_bytes words.now) ≡ None }
    ensures no_command { asked_of (map string_bytes words.now) ≡ None → (result ≡ Status.Usage) ⊎ (result ≡ Status.NoMemory) }
    ensures nothing_read { result ≡ Status.Usage → Keeps (S.left source.old) (S.left source.new) }

    // What the status tells of the file, or of the drill's family, and what the sink took.
    ensures told { (command : Command) → asked_of (map string_bytes words.now) ≡ Some command →
        IfGiven command (S.left source.old) (λ given. Tells command given (K.taken sink.old) (K.taken sink.new) result) }

    // Where the file has a fault, or the command refuses its family, that is the answer.
    ensures refused { (command : Command) (status : Status) → asked_of (map string_bytes words.now) ≡ Some command →
        IfGiven command (S.left source.old) (λ given. IsRefused command given status → IsAnswered status result) }

    // Only a run that is done, or that the sink stopped, writes.
    ensures nothing_written { result ≢ Status.Done → result ≢ Status.WriteFault → Keeps (K.taken sink.old) (K.taken sink.new) }

    // Every other status of a command that reads a file comes after the source was read to its end, or past the limit.
    ensures read_through { (command : Command) → asked_of (map string_bytes words.now) ≡ Some command → ReadsFile command → IsReached result → IsReadThrough (most_of command) (S.left source.old) (S.left source.new) }

    // No other command touches the source, so none has a fault of reading.
    ensures no_file { (command : Command) → asked_of (map string_bytes words.now) ≡ Some command → ¬ ReadsFile command → source.new ≡ source.old }
    ensures no_read_fault { (command : Command) → asked_of (map string_bytes words.now) ≡ Some command → ¬ ReadsFile command → result ≢ Status.ReadFault }

    // A fault comes only where the object's own count rose.
    ensures read_fault { result ≡ Status.ReadFault → Rose (S.faults source.old) (S.faults source.new) }
    ensures write_fault { result ≡ Status.WriteFault → Rose (K.faults sink.old) (K.faults sink.new) }
    ensures read_later { S.faults source.old ≤ S.faults source.new }
    ensures write_later { K.faults sink.old ≤ K.faults sink.new }

    // A command that can work on the file is done, unless memory runs out or a fault is counted.
    ensures complete { (command : Command) → asked_of (map string_bytes words.now) ≡ Some command →
        IfGiven command (S.left source.old) (λ given.
        IsOkAnd given (Accepts command)
        → ¬ Rose (S.faults source.old) (S.faults source.new)
        → ¬ Rose (K.faults sink.old) (K.faults sink.new)
        → (result ≡ Status.Done) ⊎ (result ≡ Status.NoMemory)) }
{
    match workers_of(alloc, words) {
        Ok(Some(workers)) => run_system(rt, alloc, workers, source, sink, gate),
        Ok(None) => run_calm(alloc, words, source, sink),
        Err(NoMemory) => Status::NoMemory,
    }
}
