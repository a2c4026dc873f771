// Words of four digits.
ghost use Rattle.std.specs.Prelude.{◌≡◌, ◌+◌, ◌*◌, ◌/◌, ◌%◌, ◌<◌, ℕ, sum, slice_index_or};
ghost use Rattle.mono_order.specs.PartialSums.{partial_sum, word, digits, AreFree};
ghost use Rattle.mono_order.specs.Term.{divides_exponents};

use crate::limits::VARIABLES;

/// The base of the digits: more than twice the greatest degree of a monomial.
pub const BASE: u64 = 65_536;

/// The highest bit of a digit.
pub const TOP: u64 = BASE / 2;

/// The highest bit of each digit of a word.
pub const TOPS: u64 = 0x8000_8000_8000_8000;

/// The base of the highest digit.
pub const THREE_DIGITS: u64 = BASE * BASE * BASE;

/// The word with these digits, the lowest first.
pub fn word(first: u64, second: u64, third: u64, fourth: u64) -> u64
    requires first { first < BASE }
    requires second { second < BASE }
    requires third { third < BASE }
    requires fourth { fourth < BASE }
    ensures { result ≡ word first second third fourth }
{
    first + BASE * (second + BASE * (third + BASE * fourth))
}

/// The digits of a word, the lowest first.
pub fn digits(word: u64) -> [u16; 4]
    ensures { result ≡ digits word }
{
    [
        (word % BASE) as u16,
        (word / BASE % BASE) as u16,
        (word / BASE / BASE % BASE) as u16,
        (word / BASE / BASE / BASE) as u16,
    ]
}

/// The word whose digits are each one place higher, with another one as the lowest; the highest one is gone.
pub fn raised(word: u64, lowest: u64) -> u64
    requires { lowest < BASE }
    ensures { result ≡ (word % THREE_DIGITS) * BASE + lowest }
{
    word % THREE_DIGITS * BASE + lowest
}

/// The highest digit of a word.
pub fn highest(word: u64) -> u64
    ensures value { result ≡ word / BASE / BASE / BASE }
    ensures small { result < BASE }
{
    word / THREE_DIGITS
}

/// The sums of the first exponents: of the first one, of the first two, and so on.
pub fn partial_sums(exponents: &[u16; VARIABLES]) -> [u64; VARIABLES]
    ensures { (k : ℕ) → k < VARIABLES → slice_index_or result k 0 ≡ partial_sum (k + 1) exponents.now }
{
    let mut sums = [0; VARIABLES];
    let mut sum = 0;
    for i in 0..VARIABLES {
        sum += exponents[i] as u64;
        sums[i] = sum;
    }
    sums
}

/// Whether no digit is greater than the other word's at its place, where all are below the highest bit of a digit.
pub fn is_within(mine: u64, others: u64) -> bool
    requires mine { AreFree mine }
    requires others { AreFree others }
    ensures { result ≡ divides_exponents (digits mine) (digits others) }
{
    (others + TOPS - mine) & TOPS == TOPS
}
