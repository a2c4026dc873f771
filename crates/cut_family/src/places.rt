// What stands at the places of a cut and at the others.
ghost use Rattle.std.specs.Prelude.{◌≡◌, ◌<◌, ◌≤◌, ◌^◌, ◌++◌, OnOk, nat_lt, int_lt, pos, drop, slice_index_or, if◌then◌else◌};
ghost use Rattle.std.specs.Ordering.{int_eq};
ghost use Rattle.std.specs.List.{list_all, list_any};
ghost use Rattle.sector_lattice.specs.declared.integral.TheConstants.{LINES};
ghost use Rattle.cut_family.specs.Places.{outside, inside, filled, is_cut, without_cut, with_cut};

use ibp_base::NoMemory;
use sector_lattice::LINES;

/// Whether the first of the places is a member of the cut.
pub fn is_cut(cut: u16) -> bool
    ensures { result ≡ is_cut cut }
{
    cut % 2 == 1
}

/// Puts what stands outside the cut at the end.
pub fn put_outside<T: Copy>(into: &mut Vec<T>, cut: u16, entries: &[T]) -> Result<(), NoMemory>
    ensures { OnOk result (into.new.items ≡ into.old.items ++ outside cut entries.now) }
{
    if let Some((first, others)) = entries.split_first() {
        if !is_cut(cut) {
            into.push(*first)?;
        }
        put_outside(into, cut / 2, others)?;
    }
    Ok(())
}

// What stands at the first of the places.
fn first_entry<T: Copy>(fill: T, cut: u16, entries: &[T]) -> T
    ensures { result ≡ (if is_cut cut then fill else slice_index_or entries.now 0 fill) }
{
    if is_cut(cut) {
        return fill;
    }
    match entries.first() {
        Some(first) => *first,
        None => fill,
    }
}

/// The entries that stand at the places after the first one.
pub fn later_entries<T>(cut: u16, entries: &[T]) -> &[T]
    ensures { result.now ≡ (if is_cut cut then entries.now else drop 1 entries.now) }
{
    if is_cut(cut) || entries.is_empty() {
        return entries;
    }
    &entries[1..]
}

/// Puts n entries at the end: `fill` at each member of the cut, and the entries in order at the other places.
#[tactic(auto, unfolding(crate::specs::Places::filled))]
pub fn put_filled<T: Copy>(
    into: &mut Vec<T>,
    fill: T,
    n: u8,
    cut: u16,
    entries: &[T],
) -> Result<(), NoMemory>
    ensures { OnOk result (into.new.items ≡ into.old.items ++ filled fill n cut entries.now) }
{
    if n > 0 {
        into.push(first_entry(fill, cut, entries))?;
        put_filled(into, fill, n - 1, cut / 2, later_entries(cut, entries))?;
    }
    Ok(())
}

/// Whether a variable of the cut occurs in the exponents.
pub fn meets_cut(cut: u16, exponents: &[u16]) -> bool
    ensures { result ≡ list_any (nat_lt 0) (inside cut exponents.now) }
{
    match exponents {
        [] => false,
        [first, others @ ..] => (is_cut(cut) && *first > 0) || meets_cut(cut / 2, others),
    }
}

/// Whether the power is 1 at each member of the cut.
pub fn is_on_cut(cut: u16, powers: &[i16]) -> bool
    ensures { result ≡ list_all (λ power. int_eq power (pos 1)) (inside cut powers.now) }
{
    match powers {
        [] => true,
        [first, others @ ..] => (!is_cut(cut) || *first == 1) && is_on_cut(cut / 2, others),
    }
}

/// Whether a power is above 1 at a member of the cut.
pub fn rises_on_cut(cut: u16, powers: &[i16]) -> bool
    ensures { result ≡ list_any (λ power. int_lt (pos 1) power) (inside cut powers.now) }
{
    match powers {
        [] => false,
        [first, others @ ..] => (is_cut(cut) && *first > 1) || rises_on_cut(cut / 2, others),
    }
}

/// The sector without the members of the cut, in the new numbers.
pub fn without_cut(n: u8, cut: u16, sector: u16) -> u16
    requires { n ≤ LINES }
    ensures value { result ≡ without_cut n cut sector }
    ensures bound { result < 2 ^ n }
{
    if n == 0 {
        return 0;
    }
    let others = without_cut(n - 1, cut / 2, sector / 2);
    if is_cut(cut) {
        others
    } else {
        sector % 2 + 2 * others
    }
}

/// The sector in the old numbers, with the members of the cut.
pub fn with_cut(n: u8, cut: u16, sector: u16) -> u16
    requires { n ≤ LINES }
    ensures value { result ≡ with_cut n cut sector }
    ensures bound { result < 2 ^ n }
{
    if n == 0 {
        return 0;
    }
    if is_cut(cut) {
        return 1 + 2 * with_cut(n - 1, cut / 2, sector);
    }
    sector % 2 + 2 * with_cut(n - 1, cut / 2, sector / 2)
}
