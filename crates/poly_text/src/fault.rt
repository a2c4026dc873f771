//! Why a text stands for no polynomial.

ghost use Rattle.std.specs.Prelude.{◌≡◌};
ghost use Rattle.poly_text.specs.Told.{unread_by};

use ibp_base::NoMemory;
use std::alloc::{AllocError, AllocFailed};
use thiserror::Error;

/// What is wrong with a text, with the place, which counts the bytes before it.
#[derive(Clone, Copy, Debug, PartialEq, Eq, Error)]
pub enum TextFault {
    /// The text is not of the grammar, whatever follows this place.
    #[error("syntax at {at}")]
    Syntax { at: u32 },
    /// A name that stands for nothing.
    #[error("unknown name at {at}")]
    UnknownName { at: u32 },
    /// A whole number above 2^128 - 1.
    #[error("number over at {at}")]
    NumberOver { at: u32 },
    /// An exponent above `POWER_LIMIT`.
    #[error("power over at {at}")]
    PowerOver { at: u32 },
    /// A parenthesis inside `DEPTH_LIMIT` open ones.
    #[error("depth over at {at}")]
    DepthOver { at: u32 },
    /// A divisor that is zero modulo the prime.
    #[error("zero divisor at {at}")]
    ZeroDivisor { at: u32 },
    /// A divisor with a variable.
    #[error("not constant at {at}")]
    NotConstant { at: u32 },
    /// A product of degree above `DEGREE_LIMIT`.
    #[error("degree over at {at}")]
    DegreeOver { at: u32 },
    /// A sum or a product of more than `TERM_LIMIT` terms.
    #[error("terms over at {at}")]
    TermsOver { at: u32 },
    /// Memory ran out.
    #[error("no memory")]
    NoMemory,
}

/// Why a text stands for no polynomial, where it is not asked which fault it has.
#[derive(Clone, Copy, Debug, PartialEq, Eq, Error)]
pub enum Unread {
    /// It has one of the faults of `TextFault`.
    #[error("not of its form")]
    Fault,
    /// Memory ran out.
    #[error("no memory")]
    NoMemory,
}

impl TextFault {
    /// The fault without its kind and place.
    pub(crate) fn unread(self) -> Unread
        ensures { result ≡ unread_by self }
    {
        match self {
            TextFault::NoMemory => Unread::NoMemory,
            _ => Unread::Fault,
        }
    }
}

impl From<NoMemory> for TextFault {
    ghost use Rattle.std.specs.Prelude.{◌≡◌};
    ghost use Rattle.poly_text.specs.declared.fault.TextFault.{TextFault};

    ghost from_gives = { λ _ e. e ≡ TextFault.NoMemory };

    fn from(_: NoMemory) -> TextFault {
        TextFault::NoMemory
    }
}

impl From<AllocError> for TextFault {
    ghost use Rattle.std.specs.Prelude.{◌≡◌};
    ghost use Rattle.poly_text.specs.declared.fault.TextFault.{TextFault};

    ghost from_gives = { λ _ e. e ≡ TextFault.NoMemory };

    fn from(_: AllocError) -> TextFault {
        TextFault::NoMemory
    }
}

impl<T: Drop> From<AllocFailed<T>> for TextFault {
    ghost use Rattle.std.specs.Prelude.{◌≡◌};
    ghost use Rattle.poly_text.specs.declared.fault.TextFault.{TextFault};

    ghost from_gives = { λ _ e. e ≡ TextFault.NoMemory };

    fn from(_: AllocFailed<T>) -> TextFault {
        TextFault::NoMemory
    }
}
