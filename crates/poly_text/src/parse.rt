//! Reading a text.

ghost use Rattle.std.specs.Prelude.{◌≡◌, ◌^◌, ◌<◌, ◌≤◌, length, map};
ghost use Rattle.mono_order.specs.declared.limits.TheConstants.{VARIABLES};
ghost use Rattle.poly_text.specs.Scanning.{tokens};
ghost use Rattle.poly_text.specs.Reading.{reading_of, read_tokens, first_reading, place_in, placed, read_text};
ghost use Rattle.poly_text.specs.Told.{Answers, Gives};
ghost use Rattle.poly_text.specs.PolyText.{value_in, IsTextAnswer, IsNumberAnswer, OrNoMemory, UpToFault};

use crate::fault::{TextFault, Unread};
use crate::numbers::Numbers;
use crate::reader::Reader;
use crate::scan::{further_bytes, is_blank, symbol_of};
use crate::step::{first_reader, read_end, read_next};
use ibp_field::Residue;
use sparse_poly::Poly;
use std::alloc::Global;

// A place as a fault has it, where the greatest one stands for those beyond it.
fn place_in(place: usize) -> u32
    ensures { result ≡ place_in place }
{
    place.min(u32::MAX as usize) as u32
}

// The reader behind all tokens of a text.
fn read_tokens(alloc: Global, text: &[u8], n: u8, numbers: &Numbers) -> Result<Reader, TextFault>
    requires { n ≤ VARIABLES }
    ensures { Gives reading_of result
        (read_tokens n (value_in numbers.now) first_reading (map placed (tokens text.now))) }
{
    let mut reader = first_reader(alloc);
    let mut rest = text;
    while let Some((first, others)) = rest.split_first() {
        if is_blank(*first) {
            rest = others;
        } else {
            let at = place_in(text.len() - rest.len());
            let more = further_bytes(*first, others);
            let symbol = symbol_of(*first, &rest[..more + 1], n, numbers);
            reader = read_next(alloc, reader, symbol, at)?;
            rest = &others[more..];
        }
    }
    Ok(reader)
}

// The answer to a text of any length.
fn read_text(alloc: Global, text: &str, n: u8, numbers: &Numbers) -> Result<Poly, TextFault>
    requires { n ≤ VARIABLES }
    ensures { Answers result (read_text n (value_in numbers.now) text.now) }
{
    let reader = read_tokens(alloc, text.as_bytes(), n, numbers)?;
    read_end(alloc, reader, place_in(text.len()))
}

/// The polynomial that a text stands for, in the variables z1 to zn and with these numbers. A fault has its
/// place in the text, in bytes: the first fault of its form, or else the first of its value.
pub fn parse_poly(alloc: Global, text: &str, n: u8, numbers: &Numbers) -> Result<Poly, TextFault>
    requires variables { n ≤ VARIABLES }
    requires short { length text.now < 2 ^ 32 }
    ensures { OrNoMemory (IsTextAnswer n (value_in numbers.now) text.now) result }
{
    read_text(alloc, text, n, numbers)
}

/// The polynomial that `parse_poly` gives, of a text of any length. Of a fault neither the kind nor the place is
/// said.
pub fn read_poly(alloc: Global, text: &str, n: u8, numbers: &Numbers) -> Result<Poly, Unread>
    requires { n ≤ VARIABLES }
    ensures { UpToFault (IsTextAnswer n (value_in numbers.now) text.now) result }
{
    match read_text(alloc, text, n, numbers) {
        Ok(value) => Ok(value),
        Err(fault) => Err(fault.unread()),
    }
}

/// The number that a text without variables and names stands for, as `read_poly` reads it.
pub fn read_number(alloc: Global, text: &str) -> Result<Residue, Unread>
    ensures { UpToFault (IsNumberAnswer text.now) result }
{
    let numbers = Numbers::empty(alloc);
    let value = read_poly(alloc, text, 0, &numbers)?;
    match value.terms().first() {
        Some(term) => Ok(term.1),
        None => Ok(Residue::zero()),
    }
}
