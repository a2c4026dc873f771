// Lists of entries in front of bytes.
ghost use Rattle.std.specs.Prelude.{◌≡◌, ◌≢◌, ◌<◌, ◌≤◌, ◌++◌, ◌∷◌, ℕ, List, length, IfOk, IfSome};
ghost use Rattle.std.specs.List.{AllByRecursion};
ghost use Rattle.sector_lattice.specs.declared.integral.TheConstants.{LINES};
ghost use Rattle.line_reader.specs.Fronts.{IsSomeWith};
ghost use Rattle.line_reader.specs.Entries.{separated};

use crate::numbers::after;
use ibp_base::NoMemory;
use std::alloc::Global;

/// A kind of entries, with n variables or powers where they have any.
pub trait Entry<T: Drop> {
    /// The text of an entry.
    ghost text: { T → List ℕ };

    /// What holds of entries.
    ghost is_entry: { ℕ → T → Type 0 };

    /// What ends an entry.
    ghost ends: { List ℕ → Type 0 };

    /// The entry in front, and what follows it.
    fn front(alloc: Global, bytes: &[u8], n: u8) -> Result<Option<(T, &[u8])>, NoMemory>
        requires least { 1 ≤ n }
        requires few { n ≤ LINES }
        ensures reads { (x : T) (rest : List ℕ) → is_entry n x → ends rest → bytes.now ≡ text x ++ rest
            → IfOk result (λ found. IsSomeWith found (λ r. (r.0 ≡ x) × (r.1.now ≡ rest))) }
        ensures entry { IfOk result (λ found. IfSome found (λ r. is_entry n r.0)) }
        ensures shorter { IfOk result (λ found. IfSome found (λ r. length r.1.now ≤ length bytes.now)) };
}

/// The entries in front with a separator between each two, and what follows them.
pub fn entries_at<'a, T: Drop, E: Entry<T>>(
    alloc: Global,
    bytes: &'a [u8],
    separator: &[u8],
    n: u8,
) -> Result<Option<(Vec<T>, &'a [u8])>, NoMemory>
    requires least { 1 ≤ n }
    requires few { n ≤ LINES }
    requires some { 0 < length separator.now }
    requires ended { (r : List ℕ) → E.ends (separator.now ++ r) }
    ensures reads { (x : T) (xs : List T) (rest : List ℕ) → E.is_entry n x → AllByRecursion (E.is_entry n) xs → E.ends rest
        → ((r : List ℕ) → rest ≢ separator.now ++ r) → bytes.now ≡ separated E.text separator.now x xs ++ rest
        → IfOk result (λ found. IsSomeWith found (λ r. (r.0.items ≡ x ∷ xs) × (r.1.now ≡ rest))) }
    ensures entries { IfOk result (λ found. IfSome found (λ r. AllByRecursion (E.is_entry n) r.0.items)) }
    ensures shorter { IfOk result (λ found. IfSome found (λ r. length r.1.now ≤ length bytes.now)) }
{
    let mut entries = Vec::new(alloc);
    let Some((first, mut rest)) = E::front(alloc, bytes, n)? else {
        return Ok(None);
    };
    entries.push(first)?;
    while let Some(others) = after(rest, separator) {
        let Some((entry, left)) = E::front(alloc, others, n)? else {
            return Ok(None);
        };
        entries.push(entry)?;
        rest = left;
    }
    Ok(Some((entries, rest)))
}
