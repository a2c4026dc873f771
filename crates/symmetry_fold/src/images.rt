// Images of integrals and of sectors under a permutation.
ghost use Rattle.std.specs.Prelude.{◌≡◌, ◌+◌, ◌<◌, ◌≤◌, ◌^◌, ◌++◌, nat_eq, map, length, OnOk, IfOk};
ghost use Rattle.std.specs.Int.{bit_at};
ghost use Rattle.std.specs.List.{position_or_len};
ghost use Rattle.ibp_algebra.specs.Laurent.{power_at};
ghost use Rattle.sector_lattice.specs.declared.integral.TheConstants.{LINES};
ghost use Rattle.family.specs.Permutation.{numbers_from};
ghost use Rattle.symmetry_fold.specs.Images.{place_of, power_before, image, image_sector, is_lower, lowest};

use family::Permutation;
use ibp_base::NoMemory;
use sector_lattice::{Integral, LINES, Sector};
use std::alloc::Global;
use std::cmp::Ordering;

// The place, from 0, at which the number stands, or the length where it does not.
fn place_of(numbers: &[u8], number: u8) -> usize
    ensures value { result ≡ place_of numbers.now number }
    ensures bound { result ≤ length numbers.now }
{
    match numbers {
        [] => 0,
        [first, others @ ..] => {
            if number == *first {
                0
            } else {
                1 + place_of(others, number)
            }
        }
    }
}

// The power of the variable that becomes this one.
fn power_before(numbers: &[u8], powers: &[i16], number: u8) -> i16
    ensures { result ≡ power_before numbers.now powers.now number }
{
    let place = place_of(numbers, number);
    powers.get(place).copied().unwrap_or(0)
}

// Puts the powers of so many variables of the image at the end, from this variable on.
fn put_image(
    into: &mut Vec<i16>,
    numbers: &[u8],
    powers: &[i16],
    first: u8,
    count: u8,
) -> Result<(), NoMemory>
    requires { first + count < 2 ^ 8 }
    ensures { OnOk result (into.new.items ≡ into.old.items ++ map (power_before numbers.now powers.now) (numbers_from first count)) }
{
    if count > 0 {
        into.push(power_before(numbers, powers, first))?;
        put_image(into, numbers, powers, first + 1, count - 1)?;
    }
    Ok(())
}

// The image of the integral.
fn image(alloc: Global, numbers: &[u8], integral: &Integral) -> Result<Integral, NoMemory>
    ensures { IfOk result (λ i. i ≡ image numbers.now integral.now) }
{
    let mut powers = Vec::new(alloc);
    put_image(&mut powers, numbers, integral.powers(), 1, integral.n())?;
    match Integral::new(&powers) {
        Some(image) => Ok(image),
        None => unreachable!(),
    }
}

fn is_lower(left: &Integral, right: &Integral) -> bool
    ensures { result ≡ is_lower left.now right.now }
{
    left.compare(right) == Ordering::Less
}

/// The lowest of the integral and its images under the permutations.
pub fn lowest(
    alloc: Global,
    entries: &[Permutation],
    integral: &Integral,
) -> Result<Integral, NoMemory>
    ensures { IfOk result (λ i. i ≡ lowest entries.now integral.now) }
{
    let mut best = *integral;
    for entry in entries {
        let other = image(alloc, entry.as_slice(), integral)?;
        if is_lower(&other, &best) {
            best = other;
        }
    }
    Ok(best)
}

// The digit at a place, counted from 0.
fn digit_at(sector: u16, place: usize) -> u16
    ensures value { result ≡ bit_at sector place }
    ensures bound { result < 2 }
{
    if place < 16 { sector >> place & 1 } else { 0 }
}

fn image_number(n: u8, numbers: &[u8], sector: u16) -> u16
    requires { n ≤ LINES }
    ensures value { result ≡ image_sector n numbers.now sector }
    ensures bound { result < 2 ^ n }
{
    if n == 0 {
        return 0;
    }
    let others = image_number(n - 1, numbers, sector);
    others + digit_at(sector, place_of(numbers, n)) * (1 << (n - 1))
}

/// The sector of what the members become, among n variables.
pub fn image_sector(n: u8, numbers: &[u8], sector: Sector) -> Sector
    requires { n ≤ LINES }
    ensures { result.0 ≡ image_sector n numbers.now sector.0 }
{
    Sector(image_number(n, numbers, sector.0))
}
