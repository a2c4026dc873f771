//! The symbols of a text.

use ibp_field::Residue;
use mono_order::Monomial;

/// What a name stands for.
#[derive(Clone, Copy)]
pub enum Named {
    Number(Residue),
    Variable(Monomial),
}

/// A token, with what it stands for.
#[derive(Clone, Copy)]
pub enum Symbol {
    /// A whole number, unless it is too large for its type.
    Whole(Option<u128>),
    /// A name, unless it is not known.
    Name(Option<Named>),
    Plus,
    Minus,
    Times,
    Over,
    Power,
    Open,
    Close,
    /// A byte that begins no token.
    Stray,
}
