//! Sectors that stand in arrays of variables.

ghost use Rattle.std.specs.Prelude.{◌≡◌, ◌≤◌, ◌<◌, ◌^◌, nat_eq, map, option_map};
ghost use Rattle.std.specs.List.{list_any};
ghost use Rattle.toml.specs.View.{view};
ghost use Rattle.mono_order.specs.declared.limits.TheConstants.{VARIABLES};
ghost use Rattle.family_file.specs.declared.fault.FileFault.TheVariants.{ZeroSectors};
ghost use Rattle.family_file.specs.Reading.{Returns, Gives, collect};
ghost use Rattle.family_file.specs.Arrays.{place_in, are_distinct, sector_number, sector_of_places, sector_in, zero_sectors_of};

use crate::arrays::{integer_in, list_in};
use crate::fault::{FamilyFault, FileFault};
use crate::numbers::natural;
use family::SECTOR_LIMIT;
use sector_lattice::Sector;
use std::alloc::Global;
use toml::value::{Array, Value};

#[tactic(auto, unfolding(crate::specs::Arrays::place_in))]
fn place_in(value: &Value, n: u8, fault: FileFault) -> Result<u32, FileFault>
    ensures { Returns (λ i. i) result (place_in fault n (view value.now)) }
{
    natural(integer_in(value, fault)?, 1, u32::from(n), fault)
}

fn collect_places(
    alloc: Global,
    values: &[Value],
    n: u8,
    fault: FileFault,
) -> Result<Vec<u32>, FamilyFault>
    ensures { Gives (λ v. v.items) result (collect (place_in fault n) (map view values.now)) }
{
    let mut places = Vec::new(alloc);
    for value in values {
        places.push(place_in(value, n, fault)?)?;
    }
    Ok(places)
}

fn is_among(places: &[u32], place: u32) -> bool
    ensures { result ≡ list_any (nat_eq place) places.now }
{
    places.iter().any(|other| place == *other)
}

fn are_distinct(places: &[u32]) -> bool
    ensures { result ≡ are_distinct nat_eq places.now }
{
    match places {
        [] => true,
        [first, others @ ..] => !is_among(others, *first) && are_distinct(others),
    }
}

fn sector_number(n: u8, places: &[u32]) -> u16
    requires { n ≤ VARIABLES }
    ensures value { result ≡ sector_number n places.now }
    ensures bound { result < 2 ^ n }
{
    if n == 0 {
        return 0;
    }
    let others = sector_number(n - 1, places);
    if is_among(places, u32::from(n)) {
        others + (1 << (n - 1))
    } else {
        others
    }
}

fn sector_of_places(n: u8, places: &[u32], fault: FileFault) -> Result<Sector, FileFault>
    requires { n ≤ VARIABLES }
    ensures { Returns (λ s. s) result (sector_of_places fault n places.now) }
{
    if are_distinct(places) {
        Ok(Sector(sector_number(n, places)))
    } else {
        Err(fault)
    }
}

/// A sector, as an array of its variables, in a place that has this fault.
#[tactic(auto, unfolding(crate::specs::Arrays::sector_in))]
pub fn sector_in(
    alloc: Global,
    value: &Value,
    n: u8,
    fault: FileFault,
) -> Result<Sector, FamilyFault>
    requires { n ≤ VARIABLES }
    ensures { Gives (λ s. s) result (sector_in fault n (view value.now)) }
{
    let values = list_in(value, fault)?;
    let places = collect_places(alloc, values, n, fault)?;
    Ok(sector_of_places(n, &places, fault)?)
}

fn collect_sectors(alloc: Global, values: &[Value], n: u8) -> Result<Vec<Sector>, FamilyFault>
    requires { n ≤ VARIABLES }
    ensures { Gives (λ v. v.items) result (collect (sector_in ZeroSectors n) (map view values.now)) }
{
    let mut sectors = Vec::new(alloc);
    for value in values {
        sectors.push(sector_in(alloc, value, n, FileFault::ZeroSectors)?)?;
    }
    Ok(sectors)
}

/// The zero sectors of an array that may be missing.
#[tactic(auto, unfolding(crate::specs::Arrays::zero_sectors_of))]
pub fn zero_sectors_of(
    alloc: Global,
    values: Option<&Array>,
    n: u8,
) -> Result<Vec<Sector>, FamilyFault>
    requires { n ≤ VARIABLES }
    ensures { Gives (λ v. v.items) result
        (zero_sectors_of n (option_map (λ v. map view v.now.items) values.entry)) }
{
    match values {
        None => Ok(Vec::new(alloc)),
        Some(values) => {
            if values.len() > SECTOR_LIMIT {
                Err(FamilyFault::File(FileFault::ZeroSectors))
            } else {
                collect_sectors(alloc, values, n)
            }
        }
    }
}
