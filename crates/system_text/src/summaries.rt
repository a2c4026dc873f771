// The summary of a system.
ghost use Rattle.std.specs.Prelude.{◌≡◌, ◌++◌, IfOk, OnOk, codes};
ghost use Rattle.system_text.specs.Summaries.{field_count, number_line, summary_text, term_count};

use crate::numbers::{put_bytes, put_count};
use crate::value::{SectorBlock, System, Written};
use ibp_base::{List, NoMemory};
use itoa::Buffer;
use std::alloc::Global;

// The fields of all sectors together.
fn field_count(blocks: &[SectorBlock]) -> u128
    ensures { result ≡ field_count blocks.now }
{
    let mut count = 0u128;
    for block in blocks {
        count += block.fields.as_slice().len() as u128;
    }
    count
}

// The terms of all written rows together.
fn term_count(relations: &[Written]) -> u128
    ensures { result ≡ term_count relations.now }
{
    let mut count = 0u128;
    for relation in relations {
        count += relation.row.terms().len() as u128;
    }
    count
}

// A line with a word and a number.
fn put_number(text: &mut Vec<u8>, word: &[u8], number: u128) -> Result<(), NoMemory>
    ensures { OnOk result (text.new.items ≡ text.old.items ++ number_line word.now number) }
{
    let mut buffer = Buffer::new();
    put_bytes(text, word)?;
    put_bytes(text, b" ")?;
    put_bytes(text, buffer.format(number).as_bytes())?;
    put_bytes(text, b"\n")
}

fn put_summary(text: &mut Vec<u8>, number: u32, system: &System) -> Result<(), NoMemory>
    ensures { OnOk result (text.new.items ≡ text.old.items ++ summary_text number system.now) }
{
    let sectors = system.sectors.as_slice();
    let relations = system.relations.as_slice();
    put_number(text, b"drill", u128::from(number))?;
    put_count(text, b"sectors", sectors.len())?;
    put_number(text, b"fields", field_count(sectors))?;
    put_count(text, b"relations", relations.len())?;
    put_number(text, b"terms", term_count(relations))?;
    put_count(text, b"targets", system.reductions.as_slice().len())?;
    put_bytes(text, b"end\n")
}

/// The summary of the system of a drill with this number, each line with its end: how many sectors, fields of all
/// sectors, relations, terms of all written rows and targets there are.
pub fn print_summary(alloc: Global, number: u32, system: &System) -> Result<List<u8>, NoMemory>
    ensures { IfOk result (λ text. text ≡ summary_text number system.now) }
{
    let mut text = Vec::new(alloc);
    put_summary(&mut text, number, system)?;
    Ok(List::from_vec(text))
}
