//! The caps of sectors, which stand in an array of tables.

ghost use Rattle.std.specs.Prelude.{◌≡◌, ◌≤◌, map, option_map};
ghost use Rattle.std.specs.List.{list_any};
ghost use Rattle.toml.specs.View.{view, table_view};
ghost use Rattle.mono_order.specs.declared.limits.TheConstants.{VARIABLES};
ghost use Rattle.family.specs.Caps.{have_one_sector};
ghost use Rattle.family_file.specs.Reading.{Returns, Gives, collect};
ghost use Rattle.family_file.specs.Arrays.{are_distinct};
ghost use Rattle.family_file.specs.Caps.{sector_at, cap_at, caps_at, caps_in, unless_repeated, caps_of};

use crate::arrays::integer_in;
use crate::fault::{FamilyFault, FileFault};
use crate::numbers::natural;
use crate::sectors::sector_in;
use crate::table::{has_only, member_in, table_in};
use family::{CAP_LIMIT, SECTOR_CAPS_LIMIT, SectorCaps};
use sector_lattice::Sector;
use std::alloc::Global;
use toml::Table;
use toml::value::{Array, Value};

const CAPS_NAMES: [&str; 3] = ["sector", "dots", "rank"];

#[tactic(auto, unfolding(crate::specs::Caps::sector_at))]
fn sector_at(alloc: Global, table: &Table, n: u8) -> Result<Sector, FamilyFault>
    requires { n ≤ VARIABLES }
    ensures { Gives (λ s. s) result (sector_at n (table_view table.now)) }
{
    let value = member_in(table, "sector", FileFault::Limits)?;
    sector_in(alloc, value, n, FileFault::Limits)
}

#[tactic(auto, unfolding(crate::specs::Caps::cap_at))]
fn cap_at(table: &Table, key: &str) -> Result<u32, FileFault>
    ensures { Returns (λ cap. cap) result (cap_at key.now (table_view table.now)) }
{
    let value = member_in(table, key, FileFault::Limits)?;
    let cap = integer_in(value, FileFault::Limits)?;
    natural(cap, 0, CAP_LIMIT, FileFault::Limits)
}

#[tactic(auto, unfolding(crate::specs::Caps::caps_at))]
fn caps_at(alloc: Global, table: &Table, n: u8) -> Result<SectorCaps, FamilyFault>
    requires { n ≤ VARIABLES }
    ensures { Gives (λ caps. caps) result (caps_at n (table_view table.now)) }
{
    let sector = sector_at(alloc, table, n)?;
    let dots = cap_at(table, "dots")?;
    let rank = cap_at(table, "rank")?;
    Ok(SectorCaps { sector, dots, rank })
}

#[tactic(auto, unfolding(crate::specs::Caps::caps_in))]
fn caps_in(alloc: Global, value: &Value, n: u8) -> Result<SectorCaps, FamilyFault>
    requires { n ≤ VARIABLES }
    ensures { Gives (λ caps. caps) result (caps_in n (view value.now)) }
{
    let table = table_in(value, FileFault::Limits)?;
    if has_only(table, &CAPS_NAMES) {
        caps_at(alloc, table, n)
    } else {
        Err(FamilyFault::File(FileFault::Limits))
    }
}

fn collect_caps(alloc: Global, values: &[Value], n: u8) -> Result<Vec<SectorCaps>, FamilyFault>
    requires { n ≤ VARIABLES }
    ensures { Gives (λ v. v.items) result (collect (caps_in n) (map view values.now)) }
{
    let mut caps = Vec::new(alloc);
    for value in values {
        caps.push(caps_in(alloc, value, n)?)?;
    }
    Ok(caps)
}

fn is_repeated(entry: SectorCaps, others: &[SectorCaps]) -> bool
    ensures { result ≡ list_any (have_one_sector entry) others.now }
{
    others.iter().any(|other| entry.sector == other.sector)
}

fn are_distinct(caps: &[SectorCaps]) -> bool
    ensures { result ≡ are_distinct have_one_sector caps.now }
{
    let mut rest = caps;
    while let [first, others @ ..] = rest {
        if is_repeated(*first, others) {
            return false;
        }
        rest = others;
    }
    true
}

fn unless_repeated(caps: Vec<SectorCaps>) -> Result<Vec<SectorCaps>, FileFault>
    ensures { Returns (λ v. v.items) result (unless_repeated caps.items) }
{
    if are_distinct(&caps) {
        Ok(caps)
    } else {
        Err(FileFault::Limits)
    }
}

/// The caps of sectors, of an array that may be missing.
#[tactic(auto, unfolding(crate::specs::Caps::caps_of))]
pub fn caps_of(alloc: Global, values: Option<&Array>, n: u8) -> Result<Vec<SectorCaps>, FamilyFault>
    requires { n ≤ VARIABLES }
    ensures { Gives (λ v. v.items) result
        (caps_of n (option_map (λ v. map view v.now.items) values.entry)) }
{
    let Some(values) = values else {
        return Ok(Vec::new(alloc));
    };
    if values.len() > SECTOR_CAPS_LIMIT {
        return Err(FamilyFault::File(FileFault::Limits));
    }
    let caps = collect_caps(alloc, values, n)?;
    Ok(unless_repeated(caps)?)
}
