//! Permutations of the variables, which stand in arrays.

ghost use Rattle.std.specs.Prelude.{◌≡◌, ◌≤◌, map, option_map};
ghost use Rattle.toml.specs.View.{view};
ghost use Rattle.mono_order.specs.declared.limits.TheConstants.{VARIABLES};
ghost use Rattle.family_file.specs.declared.fault.FileFault.TheVariants.{Symmetries};
ghost use Rattle.family_file.specs.Reading.{Returns, Gives, collect};
ghost use Rattle.family_file.specs.Arrays.{place_in};
ghost use Rattle.family_file.specs.Symmetries.{permutation_of, permutation_in, unless_open, symmetries_of};

use crate::arrays::{integer_in, list_in};
use crate::fault::{FamilyFault, FileFault};
use family::{Permutation, SYMMETRY_LIMIT, are_closed};
use std::alloc::Global;
use toml::value::{Array, Value};

#[tactic(auto, unfolding(crate::specs::Arrays::place_in))]
fn number_in(value: &Value, n: u8) -> Result<u8, FileFault>
    ensures { Returns (λ i. i) result (place_in Symmetries n (view value.now)) }
{
    match u8::try_from(integer_in(value, FileFault::Symmetries)?) {
        Ok(number) if 1 <= number && number <= n => Ok(number),
        _ => Err(FileFault::Symmetries),
    }
}

fn collect_numbers(alloc: Global, values: &[Value], n: u8) -> Result<Vec<u8>, FamilyFault>
    ensures { Gives (λ v. v.items) result (collect (place_in Symmetries n) (map view values.now)) }
{
    let mut numbers = Vec::new(alloc);
    for value in values {
        numbers.push(number_in(value, n)?)?;
    }
    Ok(numbers)
}

fn permutation_of(alloc: Global, numbers: &[u8], n: u8) -> Result<Permutation, FamilyFault>
    ensures { Gives (λ p. p) result (permutation_of n numbers.now) }
{
    if numbers.len() != usize::from(n) {
        return Err(FamilyFault::File(FileFault::Symmetries));
    }
    match Permutation::from_slice(alloc, numbers)? {
        Some(permutation) => Ok(permutation),
        None => Err(FamilyFault::File(FileFault::Symmetries)),
    }
}

#[tactic(auto, unfolding(crate::specs::Symmetries::permutation_in))]
fn permutation_in(alloc: Global, value: &Value, n: u8) -> Result<Permutation, FamilyFault>
    ensures { Gives (λ p. p) result (permutation_in n (view value.now)) }
{
    let values = list_in(value, FileFault::Symmetries)?;
    let numbers = collect_numbers(alloc, values, n)?;
    permutation_of(alloc, &numbers, n)
}

fn collect_permutations(
    alloc: Global,
    values: &[Value],
    n: u8,
) -> Result<Vec<Permutation>, FamilyFault>
    ensures { Gives (λ v. v.items) result (collect (permutation_in n) (map view values.now)) }
{
    let mut entries = Vec::new(alloc);
    for value in values {
        entries.push(permutation_in(alloc, value, n)?)?;
    }
    Ok(entries)
}

fn unless_open(n: u8, entries: Vec<Permutation>) -> Result<Vec<Permutation>, FileFault>
    requires { n ≤ VARIABLES }
    ensures { Returns (λ v. v.items) result (unless_open n entries.items) }
{
    if are_closed(n, &entries) {
        Ok(entries)
    } else {
        Err(FileFault::Symmetries)
    }
}

/// The permutations of an array that may be missing.
#[tactic(auto, unfolding(crate::specs::Symmetries::symmetries_of))]
pub fn symmetries_of(
    alloc: Global,
    values: Option<&Array>,
    n: u8,
) -> Result<Vec<Permutation>, FamilyFault>
    requires { n ≤ VARIABLES }
    ensures { Gives (λ v. v.items) result
        (symmetries_of n (option_map (λ v. map view v.now.items) values.entry)) }
{
    let Some(values) = values else {
        return Ok(Vec::new(alloc));
    };
    if values.len() > SYMMETRY_LIMIT {
        return Err(FamilyFault::File(FileFault::Symmetries));
    }
    let entries = collect_permutations(alloc, values, n)?;
    Ok(unless_open(n, entries)?)
}
