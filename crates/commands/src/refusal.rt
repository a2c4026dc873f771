//! Why a command refuses a file.

ghost use Rattle.std.specs.Prelude.{◌≡◌};
ghost use Rattle.commands.specs.Refusals.{of_basis_fault, of_check_answer, of_cut_answer, of_family_fault, of_fold_fault, of_identity_fault, of_system_fault};
ghost use Rattle.commands.specs.declared.refusal.Refusal.TheVariants.{NoMemory as Memory};

use cut_family::{CutAnswer, CutFault};
use family_file::{FamilyFault, FileFault};
use ibp_base::NoMemory;
use ibp_relation::IdentityFault;
use module_basis::BasisFault;
use neat_system::SystemFault;
use sector_lattice::Sector;
use symmetry_fold::FoldFault;
use system_check::{CheckAnswer, CheckFault};

/// Why a command writes no text of a file: what the calls of the crates below answer, with the sector that
/// it concerns.
#[derive(Clone, Copy, Debug, PartialEq, Eq)]
pub enum Refusal {
    /// The file has a fault, the first of F1 to F15 that holds.
    File(FileFault),
    /// The variable of this number, counted from 1, does not divide its polynomial of the probe's field.
    NotDivisible(u8),
    /// The probe's field is not tangent.
    NotTangent,
    /// The written text is not right for the family.
    CheckedNo(CheckFault),
    /// There is no cut family.
    Cut(CutFault),
    /// The permutation of this number, counted from 1, is the first that is not a symmetry.
    NotSymmetric(u32),
    /// The run of the sector spends the family's pairs.
    PairsSpent(Sector),
    /// A degree of the sector's run is over the limit.
    DegreeOver(Sector),
    /// The sector has more candidates than the family allows.
    CandidatesOver(Sector),
    /// Memory ran out.
    NoMemory,
}

impl From<NoMemory> for Refusal {
    ghost from_gives = { λ _ e. e ≡ Memory };

    fn from(_e: NoMemory) -> Refusal {
        Refusal::NoMemory
    }
}

impl From<FamilyFault> for Refusal {
    ghost from_gives = { λ fault e. e ≡ of_family_fault fault };

    fn from(fault: FamilyFault) -> Refusal {
        match fault {
            FamilyFault::File(fault) => Refusal::File(fault),
            FamilyFault::NoMemory => Refusal::NoMemory,
        }
    }
}

impl From<IdentityFault> for Refusal {
    ghost from_gives = { λ fault e. e ≡ of_identity_fault fault };

    fn from(fault: IdentityFault) -> Refusal {
        match fault {
            IdentityFault::NotDivisible(i) => Refusal::NotDivisible(i),
            IdentityFault::NotTangent => Refusal::NotTangent,
            IdentityFault::NoMemory => Refusal::NoMemory,
        }
    }
}

impl From<CheckAnswer> for Refusal {
    ghost from_gives = { λ answer e. e ≡ of_check_answer answer };

    fn from(answer: CheckAnswer) -> Refusal {
        match answer {
            CheckAnswer::No(fault) => Refusal::CheckedNo(fault),
            CheckAnswer::NoMemory => Refusal::NoMemory,
        }
    }
}

impl From<CutAnswer> for Refusal {
    ghost from_gives = { λ answer e. e ≡ of_cut_answer answer };

    fn from(answer: CutAnswer) -> Refusal {
        match answer {
            CutAnswer::No(fault) => Refusal::Cut(fault),
            CutAnswer::NoMemory => Refusal::NoMemory,
        }
    }
}

impl From<FoldFault> for Refusal {
    ghost from_gives = { λ fault e. e ≡ of_fold_fault fault };

    fn from(fault: FoldFault) -> Refusal {
        match fault {
            FoldFault::NotSymmetric(number) => Refusal::NotSymmetric(number),
            FoldFault::NoMemory => Refusal::NoMemory,
        }
    }
}

impl From<SystemFault> for Refusal {
    ghost from_gives = { λ fault e. e ≡ of_system_fault fault };

    fn from(fault: SystemFault) -> Refusal {
        match fault {
            SystemFault::PairsSpent(sector) => Refusal::PairsSpent(sector),
            SystemFault::DegreeOver(sector) => Refusal::DegreeOver(sector),
            SystemFault::CandidatesOver(sector) => Refusal::CandidatesOver(sector),
            SystemFault::NoMemory => Refusal::NoMemory,
        }
    }
}

impl Refusal {
    /// The refusal that a fault of the sector's run is.
    pub fn of_basis_fault(sector: Sector, fault: BasisFault) -> Refusal
        ensures { result ≡ of_basis_fault sector fault }
    {
        match fault {
            BasisFault::PairsSpent => Refusal::PairsSpent(sector),
            BasisFault::DegreeOver => Refusal::DegreeOver(sector),
            BasisFault::NoMemory => Refusal::NoMemory,
        }
    }
}
