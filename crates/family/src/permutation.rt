//! Permutations of variables.

ghost use Rattle.std.specs.Prelude.{◌≡◌, ◌≤◌, IfOk, true, nat_eq, length, ◌∷◌, List, ℕ};
ghost use Rattle.std.specs.Cmp.{partial_equiv_from_equiv};
ghost use Rattle.std.specs.Cmp.Lexicographic.{nat_list_eq_equiv, pointwise};
ghost use Rattle.std.specs.List.{list_any, list_all};
ghost use Rattle.mono_order.specs.declared.limits.TheConstants.{VARIABLES};
ghost use Rattle.family.specs.Name.{is_between};
ghost use Rattle.family.specs.Permutation.{are_distinct, is_permutation, permutation_of, image_of, product, identity, is_among, are_closed};

use ibp_base::{List, NoMemory};
use mono_order::VARIABLES;
use std::alloc::Global;
use std::marker::Model;

/// A permutation of the variables `z_1` to `z_n`, seen as the list of its n numbers: at place i stands the
/// number of the variable that `z_i` becomes.
#[derive(Drop)]
pub struct Permutation {
    numbers: Vec<u8>,
}

impl Model for Permutation {
    ghost use Rattle.std.specs.Prelude.{◌≡◌, true, List, ℕ, length};
    ghost use Rattle.family.specs.Permutation.{is_permutation};

    ghost Value = { List ℕ };

    ghost view = { λ p. p.numbers.items };

    ghost invariant = { λ p. is_permutation (length p.numbers.items) p.numbers.items ≡ true };
}

/// The variables by their numbers, each in its own place.
const IN_PLACE: [u8; VARIABLES] = [1, 2, 3, 4, 5, 6, 7, 8, 9, 10, 11, 12];

fn is_listed(number: u8, numbers: &[u8]) -> bool
    ensures { result ≡ list_any (nat_eq number) numbers.now }
{
    numbers.iter().any(|other| number == *other)
}

fn are_distinct(numbers: &[u8]) -> bool
    ensures { result ≡ are_distinct nat_eq numbers.now }
{
    match numbers {
        [] => true,
        [first, others @ ..] => !is_listed(*first, others) && are_distinct(others),
    }
}

fn are_within(numbers: &[u8], n: usize) -> bool
    ensures { result ≡ list_all (is_between 1 n) numbers.now }
{
    numbers
        .iter()
        .all(|number| 1 <= *number && usize::from(*number) <= n)
}

fn is_permutation(numbers: &[u8]) -> bool
    ensures { result ≡ is_permutation (length numbers.now) numbers.now }
{
    are_within(numbers, numbers.len()) && are_distinct(numbers)
}

// The number that `number`, which is at least 1, becomes.
fn image_of(numbers: &[u8], number: u8) -> u8
    ensures { result ≡ image_of numbers.now number }
{
    let place = usize::from(number).saturating_sub(1);
    numbers.get(place).copied().unwrap_or(0)
}

fn is_product(first: &[u8], second: &[u8], third: &[u8]) -> bool
    ensures { result ≡ pointwise nat_eq (product first.now second.now) third.now }
{
    match (first, third) {
        ([], []) => true,
        ([number, first @ ..], [image, third @ ..]) => {
            image_of(second, *number) == *image && is_product(first, second, third)
        }
        _ => false,
    }
}

impl Permutation {
    /// The permutation of these numbers; `None` where they are not each number from 1 to their count once.
    pub fn from_slice(alloc: Global, numbers: &[u8]) -> Result<Option<Permutation>, NoMemory>
        ensures { IfOk result (λ permutation. permutation ≡ permutation_of numbers.now) }
    {
        if !is_permutation(numbers) {
            return Ok(None);
        }
        let numbers = Vec::from_slice(alloc, numbers)?;
        Ok(Some(Permutation { numbers }))
    }

    /// An equal permutation.
    pub fn copy(&self, alloc: Global) -> Result<Permutation, NoMemory>
        ensures { IfOk result (λ permutation. permutation ≡ self.now) }
    {
        let numbers = Vec::from_slice(alloc, &self.numbers)?;
        Ok(Permutation { numbers })
    }

    /// At place i, from 0, the number of the variable that `z_(i+1)` becomes.
    pub fn as_slice(&self) -> &[u8]
        ensures value { result.now ≡ self.now }
        ensures form { is_permutation (length result.now) result.now ≡ true }
    {
        self.numbers.as_slice()
    }
}

/// The same permutations, in the same order.
pub fn copy_permutations(
    alloc: Global,
    permutations: &[Permutation],
) -> Result<List<Permutation>, NoMemory>
    ensures { IfOk result (λ copies. copies ≡ permutations.now) }
{
    let mut copies = Vec::new(alloc);
    for permutation in permutations {
        copies.push(permutation.copy(alloc)?)?;
    }
    Ok(List::from_vec(copies))
}

fn is_product_among(entries: &[Permutation], first: &[u8], second: &[u8]) -> bool
    ensures { result ≡ is_among entries.now (product first.now second.now) }
{
    entries
        .iter()
        .any(|entry| is_product(first, second, entry.as_slice()))
}

fn is_product_held(n: u8, entries: &[Permutation], first: &[u8], second: &[u8]) -> bool
    requires { n ≤ VARIABLES }
    ensures { result ≡ is_among (identity n ∷ entries.now) (product first.now second.now) }
{
    is_product(first, second, &IN_PLACE[..usize::from(n)])
        || is_product_among(entries, first, second)
}

fn are_products_held(n: u8, entries: &[Permutation], first: &[u8]) -> bool
    requires { n ≤ VARIABLES }
    ensures { result ≡ list_all (λ second. is_among (identity n ∷ entries.now) (product first.now second)) entries.now }
{
    entries.iter().all(|second| is_product_held(n, entries, first, second.as_slice()))
}

/// Whether these permutations of the numbers 1 to n hold, with the identity added, the product of each two of
/// them: whether they are a group.
pub fn are_closed(n: u8, entries: &[Permutation]) -> bool
    requires { n ≤ VARIABLES }
    ensures { result ≡ are_closed n entries.now }
{
    entries
        .iter()
        .all(|first| are_products_held(n, entries, first.as_slice()))
}

impl PartialEq for Permutation {
    ghost eq = { pointwise nat_eq };

    ghost laws = { partial_equiv_from_equiv nat_list_eq_equiv };

    fn eq(&self, other: &Permutation) -> bool {
        self.as_slice() == other.as_slice()
    }
}

impl Eq for Permutation {
    ghost laws = { nat_list_eq_equiv };
}
