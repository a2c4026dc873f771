//! Why a text is that of no system.

use ibp_base::NoMemory;
use std::alloc::{AllocError, AllocFailed};
use thiserror::Error;

/// Why a text is not read.
#[derive(Clone, Copy, Debug, PartialEq, Eq, Error)]
pub enum ReadSystemFault {
    /// The number of the first line that no text has there, counted from 1.
    #[error("text line {0}")]
    BadLine(u32),
    /// Memory ran out.
    #[error("no memory")]
    NoMemory,
}

impl From<NoMemory> for ReadSystemFault {
    ghost use Rattle.std.specs.Prelude.{◌≡◌};
    ghost use Rattle.line_reader.specs.declared.fault.ReadSystemFault.{ReadSystemFault};

    ghost from_gives = { λ _ e. e ≡ ReadSystemFault.NoMemory };

    fn from(_: NoMemory) -> ReadSystemFault {
        ReadSystemFault::NoMemory
    }
}

impl From<AllocError> for ReadSystemFault {
    ghost use Rattle.std.specs.Prelude.{◌≡◌};
    ghost use Rattle.line_reader.specs.declared.fault.ReadSystemFault.{ReadSystemFault};

    ghost from_gives = { λ _ e. e ≡ ReadSystemFault.NoMemory };

    fn from(_: AllocError) -> ReadSystemFault {
        ReadSystemFault::NoMemory
    }
}

impl<T: Drop> From<AllocFailed<T>> for ReadSystemFault {
    ghost use Rattle.std.specs.Prelude.{◌≡◌};
    ghost use Rattle.line_reader.specs.declared.fault.ReadSystemFault.{ReadSystemFault};

    ghost from_gives = { λ _ e. e ≡ ReadSystemFault.NoMemory };

    fn from(_: AllocFailed<T>) -> ReadSystemFault {
        ReadSystemFault::NoMemory
    }
}
