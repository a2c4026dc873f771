use ibp_base::NoMemory;
use module_vec::VectorFault;
use std::alloc::{AllocError, AllocFailed};

/// Why a run gives no basis: a pair is left and the budget is spent, a degree is above `RUN_DEGREE`, or memory
/// ran out.
#[derive(Clone, Copy, PartialEq, Eq, Debug)]
pub enum BasisFault {
    PairsSpent,
    DegreeOver,
    NoMemory,
}

impl From<VectorFault> for BasisFault {
    ghost use Rattle.std.specs.Prelude.{◌≡◌, ◌≢◌, ◌↔◌};
    ghost use Rattle.module_vec.specs.declared.fault.VectorFault.{VectorFault};
    ghost use Rattle.module_basis.specs.declared.fault.BasisFault.{BasisFault};

    ghost from_gives = { λ fault e. ((e ≡ BasisFault.DegreeOver) ↔ (fault ≡ VectorFault.DegreeOver)) × (e ≢ BasisFault.PairsSpent) };

    fn from(fault: VectorFault) -> BasisFault {
        match fault {
            VectorFault::DegreeOver => BasisFault::DegreeOver,
            VectorFault::NoMemory => BasisFault::NoMemory,
        }
    }
}

impl From<NoMemory> for BasisFault {
    ghost use Rattle.std.specs.Prelude.{◌≡◌};
    ghost use Rattle.module_basis.specs.declared.fault.BasisFault.{BasisFault};

    ghost from_gives = { λ _ e. e ≡ BasisFault.NoMemory };

    fn from(_: NoMemory) -> BasisFault {
        BasisFault::NoMemory
    }
}

impl From<AllocError> for BasisFault {
    ghost use Rattle.std.specs.Prelude.{◌≡◌};
    ghost use Rattle.module_basis.specs.declared.fault.BasisFault.{BasisFault};

    ghost from_gives = { λ _ e. e ≡ BasisFault.NoMemory };

    fn from(_: AllocError) -> BasisFault {
        BasisFault::NoMemory
    }
}

impl<T: Drop> From<AllocFailed<T>> for BasisFault {
    ghost use Rattle.std.specs.Prelude.{◌≡◌};
    ghost use Rattle.module_basis.specs.declared.fault.BasisFault.{BasisFault};

    ghost from_gives = { λ _ e. e ≡ BasisFault.NoMemory };

    fn from(_: AllocFailed<T>) -> BasisFault {
        BasisFault::NoMemory
    }
}
