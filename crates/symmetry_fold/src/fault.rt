// Why a system is not folded.
use ibp_base::NoMemory;
use std::alloc::AllocError;
use std::convert::From;

/// Why a system is not folded.
#[derive(Clone, Copy, Debug, PartialEq, Eq)]
pub enum FoldFault {
    /// The permutation of this number, counted from 1, is the first that is not a symmetry of the family.
    NotSymmetric(u32),
    /// Memory ran out, which says nothing of the family.
    NoMemory,
}

impl From<NoMemory> for FoldFault {
    ghost use Rattle.std.specs.Prelude.{◌≡◌};
    ghost use Rattle.symmetry_fold.specs.declared.fault.FoldFault.{FoldFault};

    ghost from_gives = { λ _ e. e ≡ FoldFault.NoMemory };

    fn from(_: NoMemory) -> FoldFault {
        FoldFault::NoMemory
    }
}

impl From<AllocError> for FoldFault {
    ghost use Rattle.std.specs.Prelude.{◌≡◌};
    ghost use Rattle.symmetry_fold.specs.declared.fault.FoldFault.{FoldFault};

    ghost from_gives = { λ _ e. e ≡ FoldFault.NoMemory };

    fn from(_: AllocError) -> FoldFault {
        FoldFault::NoMemory
    }
}
