//! The tokens of a text.

ghost use Rattle.std.specs.Prelude.{◌≡◌, ◌+◌, ◌*◌, ◌-◌, ◌≤◌, ◌<◌, ◌^◌, length, true, IfSome};
ghost use Rattle.std.specs.Char.{is_ascii_digit};
ghost use Rattle.std.specs.List.{prefix_len, list_all};
ghost use Rattle.mono_order.specs.declared.limits.TheConstants.{VARIABLES};
ghost use Rattle.poly_text.specs.Token.{is_blank, is_initial, is_word, whole_value};
ghost use Rattle.poly_text.specs.Scanning.{further_bytes, token_of};
ghost use Rattle.poly_text.specs.PolyText.{value_in, is_variable_name, is_name, is_number_name};
ghost use Rattle.poly_text.specs.Symbols.{limited, named_variable, named, symbol_for};

use crate::limits::NAME_LIMIT;
use crate::numbers::Numbers;
use crate::symbol::{Named, Symbol};
use mono_order::Monomial;

/// Whether the byte is a space, a tab or a line end.
pub fn is_blank(byte: u8) -> bool
    ensures { result ≡ is_blank byte }
{
    byte == b' ' || byte == b'\t' || byte == b'\n'
}

fn is_initial(byte: u8) -> bool
    ensures { result ≡ is_initial byte }
{
    byte.is_ascii_alphabetic() || byte == b'_'
}

fn is_word(byte: u8) -> bool
    ensures { result ≡ is_word byte }
{
    byte.is_ascii_alphanumeric() || byte == b'_'
}

fn digits_len(bytes: &[u8]) -> usize
    ensures within { result ≤ length bytes.now }
    ensures front { result ≡ prefix_len is_ascii_digit bytes.now }
{
    bytes
        .iter()
        .take_while(|byte| byte.is_ascii_digit())
        .count()
}

fn word_len(bytes: &[u8]) -> usize
    ensures within { result ≤ length bytes.now }
    ensures front { result ≡ prefix_len is_word bytes.now }
{
    bytes.iter().take_while(|byte| is_word(**byte)).count()
}

/// How many bytes of these belong to the token that begins with the byte before them.
pub fn further_bytes(first: u8, others: &[u8]) -> usize
    ensures within { result ≤ length others.now }
    ensures front { result ≡ further_bytes first others.now }
{
    if first.is_ascii_digit() {
        digits_len(others)
    } else if is_initial(first) {
        word_len(others)
    } else {
        0
    }
}

// A number with one more digit.
fn with_digit(number: u128, digit: u8) -> Option<u128>
    ensures value { result ≡ limited (10 * number + (digit - 48)) }
    ensures below { IfSome result (λ v. v < 2 ^ 128) }
{
    number
        .checked_mul(10)?
        .checked_add(digit.saturating_sub(b'0') as u128)
}

// The number that digits spell.
fn whole(digits: &[u8]) -> Option<u128>
    ensures { result ≡ limited (whole_value digits.now) }
{
    let mut number = 0;
    for digit in digits {
        number = with_digit(number, *digit)?;
    }
    Some(number)
}

fn all_digits(bytes: &[u8]) -> bool
    ensures { result ≡ list_all is_ascii_digit bytes.now }
{
    bytes.iter().all(|byte| byte.is_ascii_digit())
}

fn is_variable_name(word: &[u8]) -> bool
    ensures { result ≡ is_variable_name word.now }
{
    match word.split_first() {
        Some((first, digits)) => *first == b'z' && !digits.is_empty() && all_digits(digits),
        None => false,
    }
}

fn all_word(bytes: &[u8]) -> bool
    ensures { result ≡ list_all is_word bytes.now }
{
    bytes.iter().all(|byte| is_word(*byte))
}

fn is_name(word: &[u8]) -> bool
    ensures { result ≡ is_name word.now }
{
    match word.split_first() {
        Some((first, others)) => {
            is_initial(*first) && all_word(others) && word.len() <= NAME_LIMIT
        }
        None => false,
    }
}

/// Whether numbers may have this name: it is a name of at most `NAME_LIMIT` bytes, and not `z` and digits alone,
/// which is how variables are named.
pub fn is_number_name(word: &[u8]) -> bool
    ensures { result ≡ is_number_name word.now }
{
    is_name(word) && !is_variable_name(word)
}

// The variable that a name of this form stands for.
fn named_variable(n: u8, word: &[u8]) -> Option<Named>
    requires few { n ≤ VARIABLES }
    requires form { is_variable_name word.now ≡ true }
    ensures { result ≡ named_variable n word.now }
{
    if word[1] == b'0' {
        return None;
    }
    let i = whole(&word[1..])?;
    if i > n as u128 {
        return None;
    }
    Some(Named::Variable(Monomial::variable(i as u8)))
}

// What a name stands for.
fn named(word: &[u8], n: u8, numbers: &Numbers) -> Option<Named>
    requires { n ≤ VARIABLES }
    ensures { result ≡ named n (value_in numbers.now) word.now }
{
    if is_variable_name(word) {
        return named_variable(n, word);
    }
    if word.len() > NAME_LIMIT {
        return None;
    }
    match numbers.value_of(word) {
        Some(number) => Some(Named::Number(number)),
        None => None,
    }
}

/// The symbol that begins with this byte and has these bytes.
pub fn symbol_of(first: u8, word: &[u8], n: u8, numbers: &Numbers) -> Symbol
    requires { n ≤ VARIABLES }
    ensures { result ≡ symbol_for n (value_in numbers.now) (token_of first word.now) }
{
    if first.is_ascii_digit() {
        return Symbol::Whole(whole(word));
    }
    if is_initial(first) {
        return Symbol::Name(named(word, n, numbers));
    }
    match first {
        b'+' => Symbol::Plus,
        b'-' => Symbol::Minus,
        b'*' => Symbol::Times,
        b'/' => Symbol::Over,
        b'^' => Symbol::Power,
        b'(' => Symbol::Open,
        b')' => Symbol::Close,
        _ => Symbol::Stray,
    }
}
