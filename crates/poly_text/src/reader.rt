//! Reading symbol by symbol, from the left. An operator is computed as soon as its operands have been read.

use crate::fault::TextFault;
use crate::sum::SumValue;
use sparse_poly::Poly;

/// A value, or the first fault met while it was computed.
pub type Operand = Result<Poly, TextFault>;

/// An operator of a product.
#[derive(Clone, Copy)]
pub enum Operator {
    Times,
    Over,
}

/// The terms of a sum that have been read, with the sign of the next one and its place.
#[derive(Drop)]
pub enum SumSoFar {
    Empty,
    Negative,
    Plus(SumValue, u32),
    Minus(SumValue, u32),
}

/// The factors of a product that have been read, with the operator before the next one and its place.
#[derive(Drop)]
pub enum ProductSoFar {
    Empty,
    Times(Operand, u32),
    Over(Operand, u32),
}

/// A sum that is not at its end.
#[derive(Drop)]
pub struct OpenSum {
    pub sum: SumSoFar,
    pub product: ProductSoFar,
}

/// What may come next.
#[derive(Drop)]
pub enum Expected {
    /// A sum, from its sign on.
    Start,
    Operand,
    /// An operator behind a primary.
    Primary(Operand),
    /// An operator behind a power.
    Factor(Operand),
    /// The exponent of this value, behind the sign at this place.
    Exponent(Operand, u32),
}

/// What has been read so far.
#[derive(Drop)]
pub struct Reader {
    pub expected: Expected,
    /// The innermost sum.
    pub level: OpenSum,
    /// The sums round it, the outermost first.
    pub outer: Vec<OpenSum>,
}
