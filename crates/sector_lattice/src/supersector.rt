// The proper supersectors of a sector.
ghost use Rattle.std.specs.Prelude.{◌≡◌, ◌-◌, ◌^◌, ◌<◌, ◌≤◌, ◌++◌, map, IfOk, OnOk};
ghost use Rattle.sector_lattice.specs.Ranges.{IsSectorOf};
ghost use Rattle.sector_lattice.specs.Sectors.{AreSupersectors};
ghost use Rattle.sector_lattice.specs.Above.{is_above, one_above, of_lines, all_above};

use crate::integral::LINES;
use crate::sector::{Sector, lines};
use ibp_base::{List, NoMemory};
use std::alloc::Global;

/// The proper supersectors among `n` places, in the sector order.
pub fn supersectors(alloc: Global, sector: Sector, n: u8) -> Result<List<Sector>, NoMemory>
    requires { IsSectorOf sector.0 n }
    ensures { IfOk result (λ found. AreSupersectors sector.0 n (map (λ s. s.0) found)) }
{
    Ok(List::from_vec(all_supersectors(alloc, sector, n)?))
}

fn all_supersectors(alloc: Global, sector: Sector, n: u8) -> Result<Vec<Sector>, NoMemory>
    requires few { n ≤ LINES }
    ensures { IfOk result (λ found. map (λ s. s.0) found.items ≡ all_above sector.0 n) }
{
    let mut found = Vec::new(alloc);
    for missing in 0..n + 1 {
        add_of_lines(&mut found, sector, n, n - missing)?;
    }
    Ok(found)
}

fn add_of_lines(found: &mut Vec<Sector>, sector: Sector, n: u8, members: u8) -> Result<(), NoMemory>
    requires few { n ≤ LINES }
    ensures { OnOk result (map (λ s. s.0) found.new.items ≡ map (λ s. s.0) found.old.items ++ of_lines sector.0 n members) }
{
    let count = sector_count(n);
    for below in 0..count {
        add_if_above(found, sector, Sector(count - 1 - below), members)?;
    }
    Ok(())
}

// How many sectors `n` places have.
fn sector_count(n: u8) -> u16
    requires few { n ≤ LINES }
    ensures value { result ≡ 2 ^ n }
    ensures bound { result ≤ 2 ^ LINES }
{
    2u16.pow(u32::from(n))
}

fn add_if_above(
    found: &mut Vec<Sector>,
    sector: Sector,
    outer: Sector,
    members: u8,
) -> Result<(), NoMemory>
    ensures { OnOk result (map (λ s. s.0) found.new.items ≡ map (λ s. s.0) found.old.items ++ one_above sector.0 members outer.0) }
{
    if stands_above(sector, outer, members) {
        found.push(outer)?;
    }
    Ok(())
}

// Whether the other sector has so many lines and is a proper supersector.
fn stands_above(sector: Sector, outer: Sector, members: u8) -> bool
    ensures { result ≡ is_above sector.0 members outer.0 }
{
    lines(outer) == members && outer.0 != sector.0 && sector.0 & outer.0 == sector.0
}
