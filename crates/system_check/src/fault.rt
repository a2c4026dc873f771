// Why a written text is not right.
use ibp_base::NoMemory;
use sector_lattice::Sector;
use std::alloc::AllocError;
use std::convert::From;
use system_text::ReadSystemFault;

/// Why a written text is not right for a family. The first that holds is told.
#[derive(Clone, Copy, Debug, PartialEq, Eq)]
pub enum CheckFault {
    /// There are more than `TEXT_LIMIT` bytes.
    TooLong,
    /// The line of this number, counted from 1, is the first with which no text of a system goes on.
    BadText(u32),
    /// The name is not that of the family.
    BadName,
    /// This field of a block, counted from 1, is the first that is not in the module of the block's sector.
    BadField {
        /// The sector of the block.
        sector: Sector,
        /// The number of the field.
        field: u32,
    },
    /// The relation of this number, counted from 1, is the first that is not the identity of the field that it
    /// names at its seed.
    BadRelation(u32),
    /// The targets are not those of the family.
    BadTargets,
    /// The reduction of this target, counted from 1, is the first that its weights do not give.
    BadReduction(u32),
}

/// Why a text is not found right.
#[derive(Clone, Copy, Debug, PartialEq, Eq)]
pub enum CheckAnswer {
    /// It is not right.
    No(CheckFault),
    /// Memory ran out, which says nothing of the text.
    NoMemory,
}

impl From<NoMemory> for CheckAnswer {
    ghost use Rattle.std.specs.Prelude.{◌≡◌};
    ghost use Rattle.system_check.specs.declared.fault.CheckAnswer.{CheckAnswer};

    ghost from_gives = { λ _ e. e ≡ CheckAnswer.NoMemory };

    fn from(_: NoMemory) -> CheckAnswer {
        CheckAnswer::NoMemory
    }
}

impl From<AllocError> for CheckAnswer {
    ghost use Rattle.std.specs.Prelude.{◌≡◌};
    ghost use Rattle.system_check.specs.declared.fault.CheckAnswer.{CheckAnswer};

    ghost from_gives = { λ _ e. e ≡ CheckAnswer.NoMemory };

    fn from(_: AllocError) -> CheckAnswer {
        CheckAnswer::NoMemory
    }
}

impl From<ReadSystemFault> for CheckAnswer {
    ghost use Rattle.std.specs.Prelude.{◌≡◌};
    ghost use Rattle.system_check.specs.Answers.{answer_of};

    ghost from_gives = { λ fault e. e ≡ answer_of fault };

    fn from(fault: ReadSystemFault) -> CheckAnswer {
        match fault {
            ReadSystemFault::BadLine(k) => CheckAnswer::No(CheckFault::BadText(k)),
            ReadSystemFault::NoMemory => CheckAnswer::NoMemory,
        }
    }
}
