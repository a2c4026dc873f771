// What stands in front of bytes: a word, a number, a residue.
ghost use Rattle.std.specs.Prelude.{◌≡◌, ◌≢◌, ◌+◌, ◌-◌, ◌*◌, ◌<◌, ◌≤◌, ◌^◌, ◌++◌, ℕ, ℤ, false, List, length, IfSome, IsNone, decimal, neg_ℤ, pos, ◌≤ℤ◌, ◌∷◌, true, IsTrue, IsFalse};
ghost use Rattle.std.specs.Char.{is_ascii_digit};
ghost use Rattle.std.specs.Fmt.{signed_decimal};
ghost use Rattle.std.specs.List.{prefix_len};
ghost use Rattle.sector_lattice.specs.declared.integral.TheConstants.{POWER};
ghost use Rattle.line_reader.specs.Fronts.{EndsNumber, IsSomeWith, limited, whole_value};

use ibp_field::{PRIME, Residue};
use sector_lattice::POWER;

/// What follows the word.
pub fn after<'a>(bytes: &'a [u8], word: &[u8]) -> Option<&'a [u8]>
    ensures found { IfSome result (λ rest. bytes.now ≡ word.now ++ rest.now) }
    ensures reads { (rest : List ℕ) → bytes.now ≡ word.now ++ rest → IsSomeWith result (λ x. x.now ≡ rest) }
    ensures none { IsNone result → (rest : List ℕ) → bytes.now ≢ word.now ++ rest }
    ensures shorter { IfSome result (λ rest. length rest.now + length word.now ≡ length bytes.now) }
{
    bytes.strip_prefix(word)
}

fn digits_len(bytes: &[u8]) -> usize
    ensures within { result ≤ length bytes.now }
    ensures front { result ≡ prefix_len is_ascii_digit bytes.now }
{
    bytes
        .iter()
        .take_while(|byte| byte.is_ascii_digit())
        .count()
}

fn with_digit(number: u32, digit: u8) -> Option<u32>
    ensures value { result ≡ limited (10 * number + (digit - 48)) }
    ensures below { IfSome result (λ v. v < 2 ^ 32) }
{
    number
        .checked_mul(10)?
        .checked_add(u32::from(digit.saturating_sub(b'0')))
}

fn whole(digits: &[u8]) -> Option<u32>
    ensures { result ≡ limited (whole_value digits.now) }
{
    let mut number = 0;
    for digit in digits {
        number = with_digit(number, *digit)?;
    }
    Some(number)
}

/// The number in front, and what follows it.
pub fn whole_at(bytes: &[u8]) -> Option<(u32, &[u8])>
    ensures reads { (k : ℕ) (rest : List ℕ) → k < 2 ^ 32 → EndsNumber rest → bytes.now ≡ decimal k ++ rest
        → IsSomeWith result (λ x. (x.0 ≡ k) × (x.1.now ≡ rest)) }
    ensures shorter { IfSome result (λ x. length x.1.now ≤ length bytes.now) }
{
    let (digits, rest) = bytes.split_at(digits_len(bytes));
    Some((whole(digits)?, rest))
}

/// The residue in front, and what follows it.
pub fn residue_at(bytes: &[u8]) -> Option<(Residue, &[u8])>
    ensures reads { (k : ℕ) (rest : List ℕ) → k < PRIME → EndsNumber rest → bytes.now ≡ decimal k ++ rest
        → IsSomeWith result (λ x. (x.0 ≡ k) × (x.1.now ≡ rest)) }
    ensures shorter { IfSome result (λ x. length x.1.now ≤ length bytes.now) }
{
    let (number, rest) = whole_at(bytes)?;
    if number < PRIME {
        Some((Residue::of(number), rest))
    } else {
        None
    }
}

// The number without its sign, as a power.
fn signed(negative: bool, number: u32) -> Option<i16>
    requires { number < 2 ^ 32 }
    ensures plain { IsFalse negative → pos number ≤ℤ POWER → IsSomeWith result (λ z. z ≡ pos number) }
    ensures minus { IsTrue negative → pos number ≤ℤ POWER → IsSomeWith result (λ z. z ≡ neg_ℤ (pos number)) }
    ensures within { IfSome result (λ z. (neg_ℤ POWER ≤ℤ z) × (z ≤ℤ POWER)) }
{
    if number > POWER as u32 {
        return None;
    }
    let power = number as i16;
    if negative { Some(-power) } else { Some(power) }
}

// The sign in front, and what follows it.
fn sign_at(bytes: &[u8]) -> (bool, &[u8])
    ensures minus { (rest : List ℕ) → bytes.now ≡ 45 ∷ rest → (result.0 ≡ true) × (result.1.now ≡ rest) }
    ensures plain { ((rest : List ℕ) → bytes.now ≢ 45 ∷ rest) → (result.0 ≡ false) × (result.1.now ≡ bytes.now) }
    ensures shorter { length result.1.now ≤ length bytes.now }
{
    match after(bytes, b"-") {
        Some(rest) => (true, rest),
        None => (false, bytes),
    }
}

/// The power in front, and what follows it.
pub fn power_at(bytes: &[u8]) -> Option<(i16, &[u8])>
    ensures reads { (z : ℤ) (rest : List ℕ) → neg_ℤ POWER ≤ℤ z → z ≤ℤ POWER → EndsNumber rest → bytes.now ≡ signed_decimal z ++ rest
        → IsSomeWith result (λ x. (x.0 ≡ z) × (x.1.now ≡ rest)) }
    ensures within { IfSome result (λ x. (neg_ℤ POWER ≤ℤ x.0) × (x.0 ≤ℤ POWER)) }
    ensures shorter { IfSome result (λ x. length x.1.now ≤ length bytes.now) }
{
    let (negative, others) = sign_at(bytes);
    let (number, rest) = whole_at(others)?;
    Some((signed(negative, number)?, rest))
}
