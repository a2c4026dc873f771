//! The words of the command line.

ghost use Rattle.std.specs.Prelude.{◌≡◌, map, string_bytes, option_map, Some, None, IfOk, IsErrOf};
ghost use Rattle.std.specs.Char.{is_ascii_digit};
ghost use Rattle.std.specs.List.{list_all};
ghost use Rattle.clap.specs.Walk.{rows_of};
ghost use Rattle.clap.specs.Matches.{found_of};
ghost use Rattle.clap.specs.Simple.{app_of};
ghost use Rattle.commands.specs.Program.{program, rows_found};
ghost use Rattle.commands.specs.Words.{is_number, number_in, command_of_parts, command_of};

use clap::error::ErrorKind;
use clap::{Arg, ArgMatches};
use std::alloc::{AllocError, Global};

/// What the program is asked for.
#[derive(Clone, Copy, Debug, PartialEq, Eq)]
pub enum Command {
    /// The row of the identity of the file's probe.
    Identity,
    /// The reduced basis of the sector of this number.
    Basis(u16),
    /// The system.
    Plain,
    /// The reduced bases of the proper supersectors of the sector of this number and of itself, from one tangent
    /// module.
    Meet(u16),
    /// Whether the written text behind the file is right for its family.
    Check,
    /// The system where the variables of the sector of this number are cut.
    Cut(u16),
    /// The folded system.
    Fold,
    /// The summary of the system that the drill's family of this number has.
    Drill(u16),
}

/// Why the words are no command.
#[derive(Clone, Copy, Debug, PartialEq, Eq)]
pub enum WordsFault {
    /// They are not in the table of words.
    Usage,
    /// Memory ran out before they were read.
    NoMemory,
}

// The command line: a command, a number where the command has one, and the number of workers.
fn program<'a>(alloc: Global) -> Result<clap::Command<'a>, AllocError>
    ensures { IfOk result (λ c. app_of c ≡ program) }
{
    let command = Arg::new(alloc, "command").required(true);
    let number = Arg::new(alloc, "number");
    let workers = Arg::new(alloc, "workers").long("workers");
    clap::Command::new(alloc, "neatibp")
        .no_binary_name(true)
        .disable_help_flag(true)
        .disable_version_flag(true)
        .arg(command)?
        .arg(number)?
        .arg(workers)
}

/// What the words give to each argument: `command`, `number` and `workers`.
pub fn matches_of<'a>(alloc: Global, words: &'a [String]) -> Result<ArgMatches<'a>, WordsFault>
    ensures rows { IfOk result (λ m. rows_found (map string_bytes words.entry.now)
        ≡ Some (rows_of (found_of m))) }
    ensures usage { IsErrOf result WordsFault.Usage
        → rows_found (map string_bytes words.entry.now) ≡ None }
{
    let program = match program(alloc) {
        Ok(program) => program,
        Err(AllocError) => return Err(WordsFault::NoMemory),
    };
    match program.try_get_matches_from(words) {
        Ok(matches) => Ok(matches),
        Err(error) if error.kind() == ErrorKind::OutOfMemory => Err(WordsFault::NoMemory),
        Err(_) => Err(WordsFault::Usage),
    }
}

// The most digits of a number.
const MOST_DIGITS: usize = 4;

fn is_digit(byte: u8) -> bool
    ensures { result ≡ is_ascii_digit byte }
{
    byte.is_ascii_digit()
}

fn are_digits(word: &[u8]) -> bool
    ensures { result ≡ list_all is_ascii_digit word.now }
{
    word.iter().all(|byte| is_digit(*byte))
}

fn is_number(word: &[u8]) -> bool
    ensures { result ≡ is_number word.now }
{
    1 <= word.len() && word.len() <= MOST_DIGITS && are_digits(word)
}

/// The value of a number, which is one to four digits.
#[tactic(auto, unfolding(crate::specs::Words::number_in))]
pub fn number_in(word: &str) -> Option<u16>
    ensures { result ≡ number_in word.now }
{
    if is_number(word.as_bytes()) {
        word.parse().ok()
    } else {
        None
    }
}

fn command_of_parts(
    command: Option<&str>,
    number: Option<&str>,
    workers: Option<&str>,
) -> Option<Command>
    ensures { result ≡ command_of_parts (option_map (λ s. s.now) command.entry) (option_map
        (λ s. s.now) number.entry) (option_map (λ s. s.now) workers.entry) }
{
    match (command?, number, workers) {
        ("identity", None, None) => Some(Command::Identity),
        ("plain", None, None) => Some(Command::Plain),
        ("check", None, None) => Some(Command::Check),
        ("basis", Some(number), None) => Some(Command::Basis(number_in(number)?)),
        ("meet", Some(number), None) => Some(Command::Meet(number_in(number)?)),
        ("cut", Some(number), None) => Some(Command::Cut(number_in(number)?)),
        ("fold", None, None) => Some(Command::Fold),
        ("drill", Some(number), None) => Some(Command::Drill(number_in(number)?)),
        _ => None,
    }
}

/// The command of these words, which have no name of a program in front.
pub fn command_of(alloc: Global, words: &[String]) -> Result<Command, WordsFault>
    ensures command { IfOk result (λ c. command_of (map string_bytes words.now) ≡ Some c) }
    ensures usage { IsErrOf result WordsFault.Usage → command_of (map string_bytes words.now) ≡ None }
{
    let matches = matches_of(alloc, words)?;
    command_of_parts(
        matches.get_str("command"),
        matches.get_str("number"),
        matches.get_str("workers"),
    )
    .ok_or(WordsFault::Usage)
}
