use ibp_base::NoMemory;
use std::alloc::{AllocError, AllocFailed};

/// Why a vector is not made: a term would have a degree above `RUN_DEGREE`, or memory ran out.
#[derive(Clone, Copy, PartialEq, Eq, Debug)]
pub enum VectorFault {
    DegreeOver,
    NoMemory,
}

impl From<AllocError> for VectorFault {
    ghost use Rattle.std.specs.Prelude.{◌≡◌};
    ghost use Rattle.module_vec.specs.declared.fault.VectorFault.{VectorFault};

    ghost from_gives = { λ _ e. e ≡ VectorFault.NoMemory };

    fn from(_: AllocError) -> VectorFault {
        VectorFault::NoMemory
    }
}

impl<T: Drop> From<AllocFailed<T>> for VectorFault {
    ghost use Rattle.std.specs.Prelude.{◌≡◌};
    ghost use Rattle.module_vec.specs.declared.fault.VectorFault.{VectorFault};

    ghost from_gives = { λ _ e. e ≡ VectorFault.NoMemory };

    fn from(_: AllocFailed<T>) -> VectorFault {
        VectorFault::NoMemory
    }
}

impl From<NoMemory> for VectorFault {
    ghost use Rattle.std.specs.Prelude.{◌≡◌};
    ghost use Rattle.module_vec.specs.declared.fault.VectorFault.{VectorFault};

    ghost from_gives = { λ _ e. e ≡ VectorFault.NoMemory };

    fn from(_: NoMemory) -> VectorFault {
        VectorFault::NoMemory
    }
}
