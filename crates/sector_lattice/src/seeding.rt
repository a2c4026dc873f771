// The seeds of a sector, and their number.
ghost use Rattle.std.specs.Prelude.{◌≡◌, ◌+◌, ◌-◌, ◌*◌, ◌^◌, ◌<◌, ◌≤◌, ◌≤ℤ◌, neg_ℤ, ◌++◌, length, take, map, count_ones, ◌⊎◌, ◌↔◌, [], ◌∷◌, if◌then◌else◌, ◌==◌, IfOk, OnOk, IsTrue};
ghost use Rattle.sector_lattice.specs.Ranges.{AreSmall, InRange, HasSeedBounds};
ghost use Rattle.sector_lattice.specs.Seeds.{AreSeeds, binomial, seed_number};
ghost use Rattle.sector_lattice.specs.Layers.{joined, layer, layers, power_of, dots_left, rank_left, to_spend};

use crate::integral::{Integral, LINES, POWER, padded};
use crate::sector::{Sector, lines};
use ibp_base::{List, NoMemory};
use std::alloc::Global;

/// The most dots and the most rank of the seeds.
pub const SEED_LIMIT: u32 = 20;

/// The number of seeds: so many dots at most are spread over the lines, and so much rank at most
/// over the other variables.
pub fn seed_count(sector: Sector, n: u8, dots: u32, rank: u32) -> u64
    requires { HasSeedBounds sector.0 n dots rank }
    ensures { result ≡ seed_number sector.0 n dots rank }
{
    let members = lines(sector);
    spreads(members, dots) * spreads(n - members, rank)
}

// In how many ways at most so much is spread over some places.
fn spreads(places: u8, most: u32) -> u64
    requires few { places ≤ LINES }
    requires low { most ≤ SEED_LIMIT }
    ensures value { result ≡ binomial (places + most) most }
    ensures bound { result ≤ 2 ^ (LINES + SEED_LIMIT - 1) }
{
    let mut ways: u64 = 1;
    for spent in 0..u64::from(most) {
        ways = ways * (u64::from(places) + spent + 1) / (spent + 1);
    }
    ways
}

/// All integrals of the sector with `n` powers, at most so many dots and at most so much rank,
/// lowest first.
pub fn seeds(
    alloc: Global,
    sector: Sector,
    n: u8,
    dots: u32,
    rank: u32,
) -> Result<List<Integral>, NoMemory>
    requires { HasSeedBounds sector.0 n dots rank }
    ensures seeds { IfOk result (λ seeds. AreSeeds sector.0 n dots rank seeds) }
    ensures number { IfOk result (λ seeds. length seeds ≡ seed_number sector.0 n dots rank) }
{
    let mut all = [0; LINES as usize];
    let found = in_layers(alloc, &mut all[..usize::from(n)], sector.0, dots, rank)?;
    Ok(List::from_vec(found))
}

fn in_layers(
    alloc: Global,
    powers: &mut [i16],
    sector: u16,
    dots: u32,
    rank: u32,
) -> Result<Vec<Integral>, NoMemory>
    requires { HasSeedBounds sector (length powers.old) dots rank }
    ensures { IfOk result (λ seeds. seeds.items ≡ layers (length powers.old) sector dots rank) }
{
    let mut found = Vec::new(alloc);
    for spent in 0..dots + 1 {
        add_of_dots(&mut found, powers, sector, spent, rank)?;
    }
    Ok(found)
}

// Those with exactly so many dots.
fn add_of_dots(
    found: &mut Vec<Integral>,
    powers: &mut [i16],
    sector: u16,
    dots: u32,
    rank: u32,
) -> Result<(), NoMemory>
    requires { HasSeedBounds sector (length powers.old) dots rank }
    ensures { OnOk result (found.new.items ≡ found.old.items ++ joined (λ r. layer (length powers.old) sector dots r) (rank + 1)) }
{
    for spent in 0..rank + 1 {
        add_layer(found, powers, 0, sector, dots, spent)?;
    }
    Ok(())
}

// Those whose powers begin with the ones before `place`, with exactly so many dots and so much
// rank in the places from it on, of which `sector` tells the members.
fn add_layer(
    found: &mut Vec<Integral>,
    powers: &mut [i16],
    place: usize,
    sector: u16,
    dots: u32,
    rank: u32,
) -> Result<(), NoMemory>
    requires within { place ≤ length powers.old }
    requires some { 1 ≤ length powers.old }
    requires few { length powers.old ≤ LINES }
    requires small { AreSmall (take place powers.old) }
    requires below { sector < 2 ^ (length powers.old - place) }
    requires few_dots { dots ≤ SEED_LIMIT }
    requires low_rank { rank ≤ SEED_LIMIT }
    ensures listed { OnOk result (found.new.items ≡ found.old.items ++ map (λ rest. take place powers.old ++ rest) (layer (length powers.old - place) sector dots rank)) }
    ensures kept { OnOk result (take place powers.new ≡ take place powers.old) }
{
    if place == powers.len() {
        return add_complete(found, powers, dots + rank);
    }
    if is_stuck(powers.len() - place, sector, dots, rank) {
        return Ok(());
    }
    let member = sector % 2 == 1;
    for spent in 0..available(member, dots, rank) + 1 {
        powers[place] = power_spending(member, spent);
        let dots_after = dots_after(member, dots, spent);
        let rank_after = rank_after(member, rank, spent);
        add_layer(found, powers, place + 1, sector / 2, dots_after, rank_after)?;
    }
    Ok(())
}

// Whether dots are left and no member, or rank is left and no other place.
fn is_stuck(places: usize, sector: u16, dots: u32, rank: u32) -> bool
    ensures { IsTrue result ↔ (((count_ones sector ≡ 0) × (0 < dots)) ⊎ ((count_ones sector ≡ places) × (0 < rank))) }
{
    let members = usize::from(lines(Sector(sector)));
    (members == 0 && dots > 0) || (members == places && rank > 0)
}

// All powers stand: an integral where nothing is left to spend.
fn add_complete(found: &mut Vec<Integral>, powers: &[i16], left: u32) -> Result<(), NoMemory>
    requires within { InRange powers.now }
    ensures { OnOk result (found.new.items ≡ found.old.items ++ (if left == 0 then powers.now ∷ [] else [])) }
{
    if left == 0 {
        found.push(padded(powers))?;
    }
    Ok(())
}

// What a place may spend: a member's dots, another's rank.
#[tactic(auto, unfolding(crate::specs::Layers::to_spend))]
fn available(member: bool, dots: u32, rank: u32) -> u32
    requires few_dots { dots ≤ SEED_LIMIT }
    requires low_rank { rank ≤ SEED_LIMIT }
    ensures value { result ≡ to_spend member dots rank }
    ensures bound { result ≤ SEED_LIMIT }
{
    if member { dots } else { rank }
}

#[tactic(auto, unfolding(crate::specs::Layers::power_of))]
fn power_spending(member: bool, spent: u32) -> i16
    requires { spent ≤ SEED_LIMIT }
    ensures value { result ≡ power_of member spent }
    ensures least { neg_ℤ POWER ≤ℤ result }
    ensures greatest { result ≤ℤ POWER }
{
    if member {
        spent as i16 + 1
    } else {
        -(spent as i16)
    }
}

#[tactic(auto, unfolding(crate::specs::Layers::dots_left))]
fn dots_after(member: bool, dots: u32, spent: u32) -> u32
    ensures value { result ≡ dots_left member dots spent }
    ensures fewer { result ≤ dots }
{
    if member {
        dots.saturating_sub(spent)
    } else {
        dots
    }
}

#[tactic(auto, unfolding(crate::specs::Layers::rank_left))]
fn rank_after(member: bool, rank: u32, spent: u32) -> u32
    ensures value { result ≡ rank_left member rank spent }
    ensures less { result ≤ rank }
{
    if member {
        rank
    } else {
        rank.saturating_sub(spent)
    }
}
