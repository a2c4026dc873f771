// Why a family has no system.
use ibp_base::NoMemory;
use sector_lattice::Sector;
use std::convert::From;

/// Why a family has no system: what comes of the first reached sector, in sector order, that isn't worked.
#[derive(Clone, Copy, Debug, PartialEq, Eq)]
pub enum SystemFault {
    /// Its run spends the family's pairs.
    PairsSpent(Sector),
    /// A degree of its run is over the limit.
    DegreeOver(Sector),
    /// It has more candidates than the family allows.
    CandidatesOver(Sector),
    /// Memory ran out, which says nothing of the family.
    NoMemory,
}

impl From<NoMemory> for SystemFault {
    ghost use Rattle.std.specs.Prelude.{◌≡◌};
    ghost use Rattle.neat_system.specs.declared.fault.SystemFault.{SystemFault};

    ghost from_gives = { λ _ e. e ≡ SystemFault.NoMemory };

    fn from(_fault: NoMemory) -> SystemFault {
        SystemFault::NoMemory
    }
}
