//! Integrals that stand in arrays.

ghost use Rattle.std.specs.Prelude.{◌≤◌, map};
ghost use Rattle.toml.specs.View.{view};
ghost use Rattle.mono_order.specs.declared.limits.TheConstants.{VARIABLES};
ghost use Rattle.family_file.specs.Reading.{Returns, Gives, collect};
ghost use Rattle.family_file.specs.Arrays.{integer_in, list_in, power_in, powers_from, powers_in, targets_in, targets_of};

use crate::fault::{FamilyFault, FileFault};
use crate::numbers::whole;
use crate::table::as_list;
use family::{GREATEST_POWER, LEAST_POWER, TARGET_LIMIT};
use indexmap::IndexSet;
use sector_lattice::Integral;
use std::alloc::Global;
use toml::value::{Array, Value};

/// An integer, in a place that has this fault.
pub fn integer_in(value: &Value, fault: FileFault) -> Result<i64, FileFault>
    ensures { Returns (λ z. z) result (integer_in fault (view value.now)) }
{
    value.as_integer().ok_or(fault)
}

/// The items of an array, in a place that has this fault.
pub fn list_in(value: &Value, fault: FileFault) -> Result<&Array, FileFault>
    ensures { Returns (λ v. map view v.now.items) result (list_in fault (view value.now)) }
{
    as_list(value).ok_or(fault)
}

#[tactic(auto, unfolding(crate::specs::Arrays::power_in))]
fn power_in(value: &Value, fault: FileFault) -> Result<i16, FileFault>
    ensures { Returns (λ z. z) result (power_in fault (view value.now)) }
{
    let power = integer_in(value, fault)?;
    whole(power, LEAST_POWER, GREATEST_POWER, fault)
}

fn collect_powers(
    alloc: Global,
    values: &[Value],
    fault: FileFault,
) -> Result<Vec<i16>, FamilyFault>
    ensures { Gives (λ v. v.items) result (collect (power_in fault) (map view values.now)) }
{
    let mut powers = Vec::new(alloc);
    for value in values {
        powers.push(power_in(value, fault)?)?;
    }
    Ok(powers)
}

#[tactic(auto, unfolding(crate::specs::Arrays::powers_from))]
fn powers_from(
    alloc: Global,
    values: &[Value],
    n: u8,
    fault: FileFault,
) -> Result<Vec<i16>, FamilyFault>
    ensures { Gives (λ v. v.items) result (powers_from fault n (map view values.now)) }
{
    if values.len() != usize::from(n) {
        return Err(FamilyFault::File(fault));
    }
    collect_powers(alloc, values, fault)
}

/// An integral of n variables.
pub fn integral_from(
    alloc: Global,
    values: &[Value],
    n: u8,
    fault: FileFault,
) -> Result<Integral, FamilyFault>
    requires some { 1 ≤ n }
    requires few { n ≤ VARIABLES }
    ensures { Gives (λ t. t) result (powers_from fault n (map view values.now)) }
{
    let powers = powers_from(alloc, values, n, fault)?;
    match Integral::new(&powers) {
        Some(integral) => Ok(integral),
        None => Err(FamilyFault::File(fault)),
    }
}

#[tactic(auto, unfolding(crate::specs::Arrays::powers_in))]
fn integral_in(
    alloc: Global,
    value: &Value,
    n: u8,
    fault: FileFault,
) -> Result<Integral, FamilyFault>
    requires some { 1 ≤ n }
    requires few { n ≤ VARIABLES }
    ensures { Gives (λ t. t) result (powers_in fault n (view value.now)) }
{
    integral_from(alloc, list_in(value, fault)?, n, fault)
}

fn collect_targets(alloc: Global, values: &[Value], n: u8) -> Result<Vec<Integral>, FamilyFault>
    requires some { 1 ≤ n }
    requires few { n ≤ VARIABLES }
    ensures { Gives (λ v. v.items) result (targets_in n (map view values.now)) }
{
    let mut targets = IndexSet::new(alloc);
    for value in values {
        let target = integral_in(alloc, value, n, FileFault::Targets)?;
        targets.insert(target)?;
    }
    Ok(targets.as_slice().to_vec(alloc)?)
}

/// The targets, each once, in the order in which the file first has them.
#[tactic(auto, unfolding(crate::specs::Arrays::targets_of))]
pub fn targets_of(alloc: Global, values: &[Value], n: u8) -> Result<Vec<Integral>, FamilyFault>
    requires some { 1 ≤ n }
    requires few { n ≤ VARIABLES }
    ensures { Gives (λ v. v.items) result (targets_of n (map view values.now)) }
{
    if values.len() > TARGET_LIMIT {
        return Err(FamilyFault::File(FileFault::Targets));
    }
    collect_targets(alloc, values, n)
}
