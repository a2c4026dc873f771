// The first piece that isn't worked.
ghost use Rattle.std.specs.Prelude.{◌≡◌, None, MatchOption, All};
ghost use Rattle.sector_job.specs.Results.{IsResult};
ghost use Rattle.neat_system.specs.Gathering.{fault_of, IsWorkedPiece, IsFirstFault};

use crate::fault::SystemFault;
use relay_core::Piece;
use sector_job::{Outcome, SectorResult};

fn fault_of(piece: &SectorResult) -> Option<SystemFault>
    ensures value { result ≡ fault_of piece.now }
    ensures right { IsResult piece.now }
{
    match piece.outcome() {
        Outcome::Worked { .. } => None,
        Outcome::PairsSpent => Some(SystemFault::PairsSpent(piece.sector())),
        Outcome::DegreeOver => Some(SystemFault::DegreeOver(piece.sector())),
        Outcome::CandidatesOver => Some(SystemFault::CandidatesOver(piece.sector())),
    }
}

/// The fault of the first piece that isn't worked.
pub fn first_fault(pieces: &[SectorResult]) -> Option<SystemFault>
    ensures { MatchOption result (All IsWorkedPiece pieces.now) (IsFirstFault pieces.now) }
{
    for piece in pieces {
        if let Some(fault) = fault_of(piece) {
            return Some(fault);
        }
    }
    None
}
