// Why a family has no cut family.
use ibp_base::NoMemory;
use std::alloc::AllocError;
use std::convert::From;

/// Why there is no cut family.
#[derive(Clone, Copy, Debug, PartialEq, Eq)]
pub enum CutFault {
    /// Every variable is cut.
    All,
    /// The polynomial becomes zero.
    Zero,
    /// The target of this number, counted from 1, is the first one that has a power above 1 at a cut variable.
    Target(u32),
}

/// Why no cut family is given.
#[derive(Clone, Copy, Debug, PartialEq, Eq)]
pub enum CutAnswer {
    /// There is none.
    No(CutFault),
    /// Memory ran out, which says nothing of the family.
    NoMemory,
}

impl From<NoMemory> for CutAnswer {
    ghost use Rattle.std.specs.Prelude.{◌≡◌};
    ghost use Rattle.cut_family.specs.declared.fault.CutAnswer.{CutAnswer};

    ghost from_gives = { λ _ e. e ≡ CutAnswer.NoMemory };

    fn from(_: NoMemory) -> CutAnswer {
        CutAnswer::NoMemory
    }
}

impl From<AllocError> for CutAnswer {
    ghost use Rattle.std.specs.Prelude.{◌≡◌};
    ghost use Rattle.cut_family.specs.declared.fault.CutAnswer.{CutAnswer};

    ghost from_gives = { λ _ e. e ≡ CutAnswer.NoMemory };

    fn from(_: AllocError) -> CutAnswer {
        CutAnswer::NoMemory
    }
}
