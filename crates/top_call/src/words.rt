// The words of `system`.
ghost use Rattle.std.specs.Prelude.{◌≡◌, ◌≤◌, map, string_bytes, option_map, IfOk, IfSome};
ghost use Rattle.relay_desk.specs.declared.limits.TheConstants.{WORKERS};
ghost use Rattle.top_call.specs.Words.{in_range, workers_in, workers_of_parts, workers_of};

use commands::{WordsFault, matches_of, number_in};
use ibp_base::NoMemory;
use relay_desk::WORKERS;
use std::alloc::Global;

// The number, where it is one of workers.
fn in_range(number: u32) -> Option<u32>
    ensures value { result ≡ in_range number }
    ensures range { IfSome result (λ workers. (1 ≤ workers) × (workers ≤ WORKERS)) }
{
    if 1 <= number && number <= WORKERS {
        Some(number)
    } else {
        None
    }
}

// The most digits of a number of workers.
const MOST_DIGITS: usize = 2;

// The number of workers that the word is.
fn workers_in(word: &str) -> Option<u32>
    ensures value { result ≡ workers_in word.now }
    ensures range { IfSome result (λ workers. (1 ≤ workers) × (workers ≤ WORKERS)) }
{
    if word.len() > MOST_DIGITS {
        return None;
    }
    in_range(u32::from(number_in(word)?))
}

fn workers_of_parts(
    command: Option<&str>,
    number: Option<&str>,
    workers: Option<&str>,
) -> Option<u32>
    ensures value { result ≡ workers_of_parts (option_map (λ s. s.now) command.entry) (option_map (λ s. s.now) number.entry) (option_map (λ s. s.now) workers.entry) }
    ensures range { IfSome result (λ workers. (1 ≤ workers) × (workers ≤ WORKERS)) }
{
    match (command?, number, workers) {
        ("system", None, Some(workers)) => workers_in(workers),
        _ => None,
    }
}

/// How many workers the words ask for, where they are those of `system`.
pub fn workers_of(alloc: Global, words: &[String]) -> Result<Option<u32>, NoMemory>
    ensures value { IfOk result (λ workers. workers ≡ workers_of (map string_bytes words.now)) }
    ensures range { IfOk result (λ found. IfSome found (λ workers. (1 ≤ workers) × (workers ≤ WORKERS))) }
{
    let matches = match matches_of(alloc, words) {
        Ok(matches) => matches,
        Err(WordsFault::Usage) => return Ok(None),
        Err(WordsFault::NoMemory) => return Err(NoMemory),
    };
    Ok(workers_of_parts(
        matches.get_str("command"),
        matches.get_str("number"),
        matches.get_str("workers"),
    ))
}
