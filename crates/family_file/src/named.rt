//! The numbers of a file, each with its name.

ghost use Rattle.std.specs.Prelude.{◌≡◌, length, option_map};
ghost use Rattle.std.specs.FinMap as map;
ghost use Rattle.toml.specs.View.{view, table_view};
ghost use Rattle.family_file.specs.Accumulated.{numbers_after};
ghost use Rattle.family_file.specs.Reading.{Gives, collect};
ghost use Rattle.family_file.specs.Table.{entries_list};
ghost use Rattle.family_file.specs.Polynomials.{named_number, numbers_in, numbers_of};

use crate::fault::{FamilyFault, FileFault};
use crate::limits::NUMBER_LIMIT;
use crate::polynomials::residue_in;
use crate::table::number;
use ibp_field::Residue;
use poly_text::{Numbers, is_number_name};
use std::alloc::Global;
use toml::Table;
use toml::value::Value;

#[tactic(auto, unfolding(crate::specs::Polynomials::named_number))]
fn named_number(alloc: Global, name: &str, value: &Value) -> Result<Residue, FamilyFault>
    ensures { Gives (λ r. (name.now, r)) result (named_number (name.now, view value.now)) }
{
    if !is_number_name(name.as_bytes()) {
        return Err(FamilyFault::File(FileFault::Number));
    }
    let number = number(value, FileFault::Number)?;
    residue_in(alloc, number, FileFault::Number)
}

fn collect_numbers(alloc: Global, table: &Table) -> Result<Numbers, FamilyFault>
    ensures { Gives (λ m. m) result
        (numbers_after map.empty (collect named_number (entries_list (table_view table.now)))) }
{
    let mut numbers = Numbers::empty(alloc);
    for (name, value) in table {
        let number = named_number(alloc, name.as_str(), value)?;
        numbers.insert(name.as_str(), number)?;
    }
    Ok(numbers)
}

#[tactic(auto, unfolding(crate::specs::Polynomials::numbers_in))]
fn numbers_in(alloc: Global, table: &Table) -> Result<Numbers, FamilyFault>
    ensures { Gives (λ m. m) result (numbers_in (table_view table.now)) }
{
    if count_of(table) > NUMBER_LIMIT {
        return Err(FamilyFault::File(FileFault::Number));
    }
    collect_numbers(alloc, table)
}

// How many entries the table has.
fn count_of(table: &Table) -> usize
    ensures { result ≡ length (entries_list (table_view table.now)) }
{
    table.len()
}

/// The numbers of a table that may be missing.
pub fn numbers_of(alloc: Global, table: Option<&Table>) -> Result<Numbers, FamilyFault>
    ensures { Gives (λ m. m) result
        (numbers_of (option_map (λ t. table_view t.now) table.entry)) }
{
    match table {
        None => Ok(Numbers::empty(alloc)),
        Some(table) => numbers_in(alloc, table),
    }
}
