//! What one more symbol makes of a reader.

ghost use Rattle.std.specs.Prelude.{◌≡◌, IfOk, reverse};
ghost use Rattle.poly_text.specs.Told.{Gives};
ghost use Rattle.poly_text.specs.Reading.{reading_of, empty_sum, combined, product_value, sum_value, level_value, primary_value, read_open, read_operand, read_start, read_closed, read_factor, read_primary, raised, read_exponent, read_next, read_end, first_reading};
ghost use Rattle.poly_text.specs.Told.{Answers};
ghost use Rattle.poly_text.specs.Symbols.{named_value};

use crate::fault::TextFault;
use crate::limits::{DEPTH_LIMIT, POWER_LIMIT};
use crate::reader::{Expected, OpenSum, Operand, Operator, ProductSoFar, Reader, SumSoFar};
use crate::sum::SumValue;
use crate::symbol::{Named, Symbol};
use crate::value::{constant, negative_of, power_of, power_product, product_of, quotient_of};
use ibp_base::NoMemory;
use ibp_field::Residue;
use sparse_poly::Poly;
use std::alloc::Global;

fn empty_sum() -> OpenSum
    ensures { result ≡ empty_sum }
{
    OpenSum {
        sum: SumSoFar::Empty,
        product: ProductSoFar::Empty,
    }
}

/// A reader before the first symbol.
pub fn first_reader(alloc: Global) -> Reader
    ensures { reading_of result ≡ first_reading }
{
    Reader {
        expected: Expected::Start,
        level: empty_sum(),
        outer: Vec::new(alloc),
    }
}

// The value of an operator of a product, where its operands have values.
fn combined(
    alloc: Global,
    operator: Operator,
    at: u32,
    left: Operand,
    right: Operand,
) -> Result<Operand, NoMemory>
    ensures { IfOk result (λ v. v ≡ combined operator at left right) }
{
    let left = match left {
        Ok(value) => value,
        Err(fault) => return Ok(Err(fault)),
    };
    let right = match right {
        Ok(value) => value,
        Err(fault) => return Ok(Err(fault)),
    };
    match operator {
        Operator::Times => product_of(alloc, &left, &right, at),
        Operator::Over => quotient_of(alloc, &left, &right, at),
    }
}

// The value of a product with its next factor.
fn product_value(alloc: Global, product: ProductSoFar, factor: Operand) -> Result<Operand, NoMemory>
    ensures { IfOk result (λ v. v ≡ product_value product factor) }
{
    match product {
        ProductSoFar::Empty => Ok(factor),
        ProductSoFar::Times(left, at) => combined(alloc, Operator::Times, at, left, factor),
        ProductSoFar::Over(left, at) => combined(alloc, Operator::Over, at, left, factor),
    }
}

// The value of a sum with its next term.
fn sum_value(alloc: Global, sum: SumSoFar, term: Operand) -> Result<SumValue, NoMemory>
    ensures { IfOk result (λ v. v ≡ sum_value sum term) }
{
    match sum {
        SumSoFar::Empty => Ok(SumValue::of(alloc, term)),
        SumSoFar::Negative => match term {
            Ok(value) => Ok(SumValue::of(alloc, Ok(negative_of(alloc, &value)?))),
            Err(fault) => Ok(SumValue::of(alloc, Err(fault))),
        },
        SumSoFar::Plus(left, at) => left.plus(alloc, term, at),
        SumSoFar::Minus(left, at) => left.minus(alloc, term, at),
    }
}

// The value of a sum up to this factor, where it goes on.
fn level_sum(alloc: Global, level: OpenSum, factor: Operand) -> Result<SumValue, NoMemory>
    ensures { IfOk result (λ v. v ≡ level_value level factor) }
{
    let OpenSum { sum, product } = level;
    let term = product_value(alloc, product, factor)?;
    sum_value(alloc, sum, term)
}

// The value of a sum that ends behind this factor.
fn level_value(alloc: Global, level: OpenSum, factor: Operand) -> Result<Operand, NoMemory>
    ensures { IfOk result (λ v. v ≡ level_value level factor) }
{
    let sum = level_sum(alloc, level, factor)?;
    sum.value(alloc)
}

// The value of a name.
fn named_value(alloc: Global, named: Named) -> Result<Poly, NoMemory>
    ensures { IfOk result (λ p. p ≡ named_value named) }
{
    match named {
        Named::Number(number) => constant(alloc, number),
        Named::Variable(monomial) => power_product(alloc, monomial),
    }
}

// The value of a number or a name.
fn primary_value(alloc: Global, symbol: Symbol, at: u32) -> Result<Poly, TextFault>
    ensures { Answers result (primary_value symbol at) }
{
    match symbol {
        Symbol::Whole(Some(number)) => Ok(constant(alloc, Residue::from_u128(number))?),
        Symbol::Whole(None) => Err(TextFault::NumberOver { at }),
        Symbol::Name(Some(named)) => Ok(named_value(alloc, named)?),
        Symbol::Name(None) => Err(TextFault::UnknownName { at }),
        _ => Err(TextFault::Syntax { at }),
    }
}

// Behind an opening parenthesis.
fn read_open(level: OpenSum, outer: Vec<OpenSum>, at: u32) -> Result<Reader, TextFault>
    ensures { Gives reading_of result (read_open level (reverse outer.items) at) }
{
    if outer.len() == DEPTH_LIMIT {
        return Err(TextFault::DepthOver { at });
    }
    let mut outer = outer;
    outer.push(level)?;
    Ok(Reader {
        expected: Expected::Start,
        level: empty_sum(),
        outer,
    })
}

fn read_operand(
    alloc: Global,
    level: OpenSum,
    outer: Vec<OpenSum>,
    symbol: Symbol,
    at: u32,
) -> Result<Reader, TextFault>
    ensures { Gives reading_of result (read_operand level (reverse outer.items) symbol at) }
{
    match symbol {
        Symbol::Open => read_open(level, outer, at),
        _ => {
            let value = primary_value(alloc, symbol, at)?;
            Ok(Reader {
                expected: Expected::Primary(Ok(value)),
                level,
                outer,
            })
        }
    }
}

fn read_start(
    alloc: Global,
    level: OpenSum,
    outer: Vec<OpenSum>,
    symbol: Symbol,
    at: u32,
) -> Result<Reader, TextFault>
    ensures { Gives reading_of result (read_start level (reverse outer.items) symbol at) }
{
    match symbol {
        Symbol::Plus => Ok(Reader {
            expected: Expected::Operand,
            level,
            outer,
        }),
        Symbol::Minus => Ok(Reader {
            expected: Expected::Operand,
            level: OpenSum {
                sum: SumSoFar::Negative,
                product: level.product,
            },
            outer,
        }),
        _ => read_operand(alloc, level, outer, symbol, at),
    }
}

// Behind a closing parenthesis, with the value of its sum.
fn read_closed(value: Operand, outer: Vec<OpenSum>, at: u32) -> Result<Reader, TextFault>
    ensures { Gives reading_of result (read_closed value (reverse outer.items) at) }
{
    let mut outer = outer;
    match outer.pop() {
        Some(level) => Ok(Reader {
            expected: Expected::Primary(value),
            level,
            outer,
        }),
        None => Err(TextFault::Syntax { at }),
    }
}

fn read_factor(
    alloc: Global,
    value: Operand,
    level: OpenSum,
    outer: Vec<OpenSum>,
    symbol: Symbol,
    at: u32,
) -> Result<Reader, TextFault>
    ensures { Gives reading_of result (read_factor value level (reverse outer.items) symbol at) }
{
    let level = match symbol {
        Symbol::Times => {
            let OpenSum { sum, product } = level;
            let product = ProductSoFar::Times(product_value(alloc, product, value)?, at);
            OpenSum { sum, product }
        }
        Symbol::Over => {
            let OpenSum { sum, product } = level;
            let product = ProductSoFar::Over(product_value(alloc, product, value)?, at);
            OpenSum { sum, product }
        }
        Symbol::Plus => OpenSum {
            sum: SumSoFar::Plus(level_sum(alloc, level, value)?, at),
            product: ProductSoFar::Empty,
        },
        Symbol::Minus => OpenSum {
            sum: SumSoFar::Minus(level_sum(alloc, level, value)?, at),
            product: ProductSoFar::Empty,
        },
        Symbol::Close => return read_closed(level_value(alloc, level, value)?, outer, at),
        _ => return Err(TextFault::Syntax { at }),
    };
    Ok(Reader {
        expected: Expected::Operand,
        level,
        outer,
    })
}

fn read_primary(
    alloc: Global,
    value: Operand,
    level: OpenSum,
    outer: Vec<OpenSum>,
    symbol: Symbol,
    at: u32,
) -> Result<Reader, TextFault>
    ensures { Gives reading_of result (read_primary value level (reverse outer.items) symbol at) }
{
    match symbol {
        Symbol::Power => Ok(Reader {
            expected: Expected::Exponent(value, at),
            level,
            outer,
        }),
        _ => read_factor(alloc, value, level, outer, symbol, at),
    }
}

// The power of a value.
fn raised(alloc: Global, value: Operand, at: u32, exponent: u8) -> Result<Operand, NoMemory>
    ensures { IfOk result (λ v. v ≡ raised value at exponent) }
{
    match value {
        Ok(base) => power_of(alloc, &base, exponent, at),
        Err(fault) => Ok(Err(fault)),
    }
}

fn read_exponent(
    alloc: Global,
    value: Operand,
    place: u32,
    level: OpenSum,
    outer: Vec<OpenSum>,
    symbol: Symbol,
    at: u32,
) -> Result<Reader, TextFault>
    ensures { Gives reading_of result (read_exponent value place level (reverse outer.items) symbol at) }
{
    match symbol {
        Symbol::Whole(Some(exponent)) => {
            if exponent > POWER_LIMIT {
                return Err(TextFault::PowerOver { at });
            }
            let power = raised(alloc, value, place, exponent as u8)?;
            Ok(Reader {
                expected: Expected::Factor(power),
                level,
                outer,
            })
        }
        Symbol::Whole(None) => Err(TextFault::PowerOver { at }),
        _ => Err(TextFault::Syntax { at }),
    }
}

/// The reader behind one more symbol, which stands at this place.
pub fn read_next(
    alloc: Global,
    reader: Reader,
    symbol: Symbol,
    at: u32,
) -> Result<Reader, TextFault>
    ensures { Gives reading_of result (read_next (reading_of reader) symbol at) }
{
    let Reader {
        expected,
        level,
        outer,
    } = reader;
    match expected {
        Expected::Start => read_start(alloc, level, outer, symbol, at),
        Expected::Operand => read_operand(alloc, level, outer, symbol, at),
        Expected::Primary(value) => read_primary(alloc, value, level, outer, symbol, at),
        Expected::Factor(value) => read_factor(alloc, value, level, outer, symbol, at),
        Expected::Exponent(value, place) => {
            read_exponent(alloc, value, place, level, outer, symbol, at)
        }
    }
}

/// The value of what has been read, where the text ends at this place.
pub fn read_end(alloc: Global, reader: Reader, at: u32) -> Result<Poly, TextFault>
    ensures { Answers result (read_end (reading_of reader) at) }
{
    let Reader {
        expected,
        level,
        outer,
    } = reader;
    if !outer.is_empty() {
        return Err(TextFault::Syntax { at });
    }
    match expected {
        Expected::Primary(value) => level_value(alloc, level, value)?,
        Expected::Factor(value) => level_value(alloc, level, value)?,
        _ => Err(TextFault::Syntax { at }),
    }
}
