// Integrals, and rows of them.
ghost use Rattle.std.specs.Prelude.{◌≡◌, ◌++◌, IfOk, OnOk, codes};
ghost use Rattle.std.specs.Fmt.{signed_decimal};
ghost use Rattle.std.specs.List.{flat_map};
ghost use Rattle.system_text.specs.Texts.{joined, integral_text, row_term_text, row_text};
ghost use Rattle.system_text.specs.Systems.{line};

use crate::numbers::{put_bytes, put_residue, put_signed};
use ibp_base::{List, NoMemory};
use ibp_field::Residue;
use sector_lattice::Integral;
use sparse_rows::Row;
use std::alloc::Global;

fn put_more_powers(text: &mut Vec<u8>, powers: &[i16]) -> Result<(), NoMemory>
    ensures { OnOk result (text.new.items ≡ text.old.items
        ++ flat_map (λ power. codes "," ++ signed_decimal power) powers.now) }
{
    for power in powers {
        put_bytes(text, b",")?;
        put_signed(text, *power)?;
    }
    Ok(())
}

fn put_powers(text: &mut Vec<u8>, powers: &[i16]) -> Result<(), NoMemory>
    ensures { OnOk result (text.new.items ≡ text.old.items
        ++ joined signed_decimal (codes ",") powers.now) }
{
    match powers {
        [] => Ok(()),
        [first, others @ ..] => {
            put_signed(text, *first)?;
            put_more_powers(text, others)
        }
    }
}

/// The powers in square brackets, with a comma between each two.
pub fn put_integral(text: &mut Vec<u8>, integral: &Integral) -> Result<(), NoMemory>
    ensures { OnOk result (text.new.items ≡ text.old.items ++ integral_text integral.now) }
{
    put_bytes(text, b"[")?;
    put_powers(text, integral.powers())?;
    put_bytes(text, b"]")
}

fn put_row_term(text: &mut Vec<u8>, term: &(Integral, Residue)) -> Result<(), NoMemory>
    ensures { OnOk result (text.new.items ≡ text.old.items ++ row_term_text term.now) }
{
    put_residue(text, term.1)?;
    put_bytes(text, b"*I")?;
    put_integral(text, &term.0)
}

fn put_more_row_terms(text: &mut Vec<u8>, terms: &[(Integral, Residue)]) -> Result<(), NoMemory>
    ensures { OnOk result (text.new.items ≡ text.old.items
        ++ flat_map (λ term. codes " " ++ row_term_text term) terms.now) }
{
    for term in terms {
        put_bytes(text, b" ")?;
        put_row_term(text, term)?;
    }
    Ok(())
}

fn put_row_terms(text: &mut Vec<u8>, terms: &[(Integral, Residue)]) -> Result<(), NoMemory>
    ensures { OnOk result (text.new.items ≡ text.old.items ++ row_text terms.now) }
{
    match terms {
        [] => put_bytes(text, b"0"),
        [first, others @ ..] => {
            put_row_term(text, first)?;
            put_more_row_terms(text, others)
        }
    }
}

/// The terms of a row, or `0`.
pub fn put_row(text: &mut Vec<u8>, row: &Row) -> Result<(), NoMemory>
    ensures { OnOk result (text.new.items ≡ text.old.items ++ row_text row.now) }
{
    put_row_terms(text, row.terms())
}

/// A line with a word and a row.
pub fn put_row_line(text: &mut Vec<u8>, word: &[u8], row: &Row) -> Result<(), NoMemory>
    ensures { OnOk result (text.new.items ≡ text.old.items
        ++ line (word.now ++ row_text row.now)) }
{
    put_bytes(text, word)?;
    put_row(text, row)?;
    put_bytes(text, b"\n")
}

/// The text of a row: its terms, highest integral first, as `5*I[2,-1]`, with a space between each
/// two. The empty row is `0`. There is no line end.
pub fn print_row(alloc: Global, row: &Row) -> Result<List<u8>, NoMemory>
    ensures { IfOk result (λ text. text ≡ row_text row.now) }
{
    let mut text = Vec::new(alloc);
    put_row(&mut text, row)?;
    Ok(List::from_vec(text))
}
