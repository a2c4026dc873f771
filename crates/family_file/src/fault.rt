//! Why a family file is refused.

ghost use Rattle.std.specs.Prelude.{◌≡◌};
ghost use Rattle.family_file.specs.Fault.{fault_number};
ghost use Rattle.family_file.specs.declared.fault.FamilyFault.TheVariants.{File, NoMemory as OutOfMemory};

use ibp_base::NoMemory;
use std::alloc::{AllocError, AllocFailed};
use thiserror::Error;

/// What is wrong with a file: of the faults that it has, the first in this order.
#[derive(Clone, Copy, Debug, PartialEq, Eq, Error)]
pub enum FileFault {
    /// It is longer than the limit.
    #[error("the file is too long")]
    TooLong,
    /// It is no TOML document.
    #[error("the file is no TOML document")]
    NotToml,
    /// A key is missing or unknown, or its value has another kind.
    #[error("a key is missing, unknown or of another kind")]
    Keys,
    /// The version or the name is not of its form.
    #[error("the version or the name is not of its form")]
    Header,
    /// The numbers of loops, legs and variables do not fit together.
    #[error("loops, legs and variables do not fit together")]
    Shape,
    /// The dimension or a number is not of its form, or the name of a number.
    #[error("a number or its name is not of its form")]
    Number,
    /// The Baikov polynomial is not of its form.
    #[error("the Baikov polynomial is not of its form")]
    Baikov,
    /// The Baikov polynomial is zero modulo the prime.
    #[error("the Baikov polynomial is zero")]
    ZeroBaikov,
    /// The zero sectors are not of their form.
    #[error("the zero sectors are not of their form")]
    ZeroSectors,
    /// The targets are not of their form.
    #[error("the targets are not of their form")]
    Targets,
    /// A bound is out of its range.
    #[error("a bound is out of its range")]
    Limits,
    /// A budget is out of its range.
    #[error("a budget is out of its range")]
    Budget,
    /// The probe is not of its form, or it is needed and missing.
    #[error("the probe is missing or not of its form")]
    Probe,
    /// There is no sector of the number that is needed.
    #[error("there is no sector of this number")]
    NoSector,
    /// The permutations are not of their form, or with the identity they lack a product of two of them.
    #[error("the permutations are not of their form, or no group")]
    Symmetries,
}

impl FileFault {
    /// The number of the fault, from 1 on in their order.
    pub fn number(&self) -> u8
        ensures { result ≡ fault_number self.now }
    {
        match self {
            FileFault::TooLong => 1,
            FileFault::NotToml => 2,
            FileFault::Keys => 3,
            FileFault::Header => 4,
            FileFault::Shape => 5,
            FileFault::Number => 6,
            FileFault::Baikov => 7,
            FileFault::ZeroBaikov => 8,
            FileFault::ZeroSectors => 9,
            FileFault::Targets => 10,
            FileFault::Limits => 11,
            FileFault::Budget => 12,
            FileFault::Probe => 13,
            FileFault::NoSector => 14,
            FileFault::Symmetries => 15,
        }
    }
}

/// Why no family is read.
#[derive(Clone, Copy, Debug, PartialEq, Eq)]
pub enum FamilyFault {
    /// The file has this fault.
    File(FileFault),
    /// Memory ran out.
    NoMemory,
}

impl From<FileFault> for FamilyFault {
    ghost from_gives = { λ fault e. e ≡ File fault };

    fn from(fault: FileFault) -> FamilyFault {
        FamilyFault::File(fault)
    }
}

impl From<NoMemory> for FamilyFault {
    ghost from_gives = { λ _ e. e ≡ OutOfMemory };

    fn from(_error: NoMemory) -> FamilyFault {
        FamilyFault::NoMemory
    }
}

impl From<AllocError> for FamilyFault {
    ghost from_gives = { λ _ e. e ≡ OutOfMemory };

    fn from(_error: AllocError) -> FamilyFault {
        FamilyFault::NoMemory
    }
}

impl<T: Drop> From<AllocFailed<T>> for FamilyFault {
    ghost from_gives = { λ _ e. e ≡ OutOfMemory };

    fn from(_error: AllocFailed<T>) -> FamilyFault {
        FamilyFault::NoMemory
    }
}
