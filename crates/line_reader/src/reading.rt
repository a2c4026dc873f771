// Kinds of lines and of sections, and how they are read.
ghost use Rattle.std.specs.Prelude.{◌≡◌, ◌↔◌, ◌<◌, ◌≤◌, ◌^◌, ◌++◌, ◌∷◌, [], ℕ, List, length, IfOk, IfSome, IsTrue, OnOk};
ghost use Rattle.sector_lattice.specs.declared.integral.TheConstants.{LINES};
ghost use Rattle.line_reader.specs.Fronts.{IsSomeWith};
ghost use Rattle.line_reader.specs.Lines.{lines, worded, IsWhole};
ghost use Rattle.line_reader.specs.Sections.{Answers, AreMany, Line, Reads, each_from, one_line};

use crate::fault::ReadSystemFault;
use crate::lines::Lines;
use crate::numbers::after;
use ibp_base::{List, NoMemory};
use std::alloc::Global;

/// A kind of lines, each with a word in front and a body, which may begin with the line's number. Values may
/// have n variables or powers.
pub trait LineKind<T: Drop> {
    /// The bytes behind the word, without the line end.
    ghost body: { ℕ → T → List ℕ };

    /// What holds of the values.
    ghost is_value: { ℕ → T → Type 0 };

    /// The value that the bytes behind a word tell. Where they are no body it may be any value.
    fn told(alloc: Global, bytes: &[u8], number: usize, n: u8) -> Result<Option<T>, NoMemory>
        requires some { 1 ≤ n }
        requires few { n ≤ LINES }
        requires small { number < 2 ^ 32 }
        ensures told { (x : T) → is_value n x → bytes.now ≡ body number x ++ 10 ∷ [] → IfOk result (λ found. IsSomeWith found (λ y. y ≡ x)) }
        ensures value { IfOk result (λ found. IfSome found (λ y. is_value n y)) };

    /// Puts the body at the end of a text.
    fn put_body(into: &mut Vec<u8>, number: usize, value: &T) -> Result<(), NoMemory>
        ensures { OnOk result (into.new.items ≡ into.old.items ++ body number value.now) };

    /// There is a value.
    ghost some: { (n : ℕ) → 1 ≤ n → n ≤ LINES → (x : T) × is_value n x };
}

/// A kind of sections, each of which has a number.
pub trait Section<T: Drop> {
    /// The lines of a section.
    ghost text: { ℕ → T → List Line };

    /// What holds of the values.
    ghost is_value: { ℕ → T → Type 0 };

    /// The value of the section in front, or the first line with which no value goes on.
    fn next(alloc: Global, from: &mut Lines<'_>, number: usize, n: u8) -> Result<T, ReadSystemFault>
        requires some { 1 ≤ n }
        requires few { n ≤ LINES }
        requires small { number < 2 ^ 32 }
        ensures { Answers (text number) (is_value n) (lines from.old.rest.now) from.old.taken (lines from.new.rest.now) from.new.taken result };

    /// There is a value.
    ghost some: { (n : ℕ) → 1 ≤ n → n ≤ LINES → (x : T) × is_value n x };
}

// The line of the value.
fn line_of<T: Drop, L: LineKind<T>>(
    alloc: Global,
    len: usize,
    word: &[u8],
    number: usize,
    value: &T,
) -> Result<Vec<u8>, NoMemory>
    ensures { IfOk result (λ text. text.items ≡ worded word.now (L.body number value.now)) }
{
    let mut text = Vec::with_capacity(alloc, len)?;
    text.extend_from_slice(word)?;
    L::put_body(&mut text, number, value)?;
    text.push(b'\n')?;
    Ok(text)
}

// Whether the line is that of the value.
fn is_line<T: Drop, L: LineKind<T>>(
    alloc: Global,
    line: &[u8],
    word: &[u8],
    number: usize,
    value: &T,
) -> Result<bool, NoMemory>
    ensures { IfOk result (λ same. IsTrue same ↔ (line.now ≡ worded word.now (L.body number value.now))) }
{
    let text = line_of::<T, L>(alloc, line.len(), word, number, value)?;
    Ok(line == text.as_slice())
}

// The value that the line tells behind its word.
fn told_behind<T: Drop, L: LineKind<T>>(
    alloc: Global,
    line: &[u8],
    word: &[u8],
    number: usize,
    n: u8,
) -> Result<Option<T>, NoMemory>
    requires some { 1 ≤ n }
    requires few { n ≤ LINES }
    requires small { number < 2 ^ 32 }
    ensures told { (x : T) → L.is_value n x → line.now ≡ worded word.now (L.body number x) → IfOk result (λ found. IsSomeWith found (λ y. y ≡ x)) }
    ensures value { IfOk result (λ found. IfSome found (λ y. L.is_value n y)) }
{
    match after(line, word) {
        Some(bytes) => L::told(alloc, bytes, number, n),
        None => Ok(None),
    }
}

/// The value of which this line is the text.
pub fn read_line<T: Drop, L: LineKind<T>>(
    alloc: Global,
    line: &[u8],
    word: &[u8],
    number: usize,
    n: u8,
) -> Result<Option<T>, NoMemory>
    requires some { 1 ≤ n }
    requires few { n ≤ LINES }
    requires small { number < 2 ^ 32 }
    ensures { IfOk result (λ found. Reads (λ x. worded word.now (L.body number x)) (L.is_value n) line.now found) }
{
    let Some(value) = told_behind::<T, L>(alloc, line, word, number, n)? else {
        return Ok(None);
    };
    if is_line::<T, L>(alloc, line, word, number, &value)? {
        Ok(Some(value))
    } else {
        Ok(None)
    }
}

/// The value of the next line.
pub fn next_line<T: Drop, L: LineKind<T>>(
    alloc: Global,
    text: &mut Lines<'_>,
    word: &[u8],
    number: usize,
    n: u8,
) -> Result<T, ReadSystemFault>
    requires some { 1 ≤ n }
    requires few { n ≤ LINES }
    requires small { number < 2 ^ 32 }
    requires word { 0 < length word.now }
    ensures { Answers (one_line (λ x. worded word.now (L.body number x))) (L.is_value n)
        (lines text.old.rest.now) text.old.taken (lines text.new.rest.now) text.new.taken result }
{
    let line = text.next()?;
    match read_line::<T, L>(alloc, line, word, number, n)? {
        Some(value) => Ok(value),
        None => Err(text.bad()),
    }
}

/// The next line, where it is this one.
pub fn next_word(text: &mut Lines<'_>, line: &[u8]) -> Result<(), ReadSystemFault>
    requires { IsWhole line.now }
    ensures { Answers (one_line (λ _. line.now)) (λ _. Unit {0})
        (lines text.old.rest.now) text.old.taken (lines text.new.rest.now) text.new.taken result }
{
    if text.next()? == line {
        Ok(())
    } else {
        Err(text.bad())
    }
}

/// As many sections as a count says, numbered from 1.
pub fn sections<T: Drop, S: Section<T>>(
    alloc: Global,
    text: &mut Lines<'_>,
    count: u32,
    n: u8,
) -> Result<List<T>, ReadSystemFault>
    requires some { 1 ≤ n }
    requires few { n ≤ LINES }
    ensures { Answers (each_from S.text 1) (AreMany (S.is_value n) count)
        (lines text.old.rest.now) text.old.taken (lines text.new.rest.now) text.new.taken result }
{
    let mut values = Vec::new(alloc);
    for place in 0..count as usize {
        values.push(S::next(alloc, text, place + 1, n)?)?;
    }
    Ok(List::from_vec(values))
}
