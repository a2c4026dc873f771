// How the basis of a sector stands.
ghost use Rattle.std.specs.Prelude.{◌≡◌, ◌↔◌, IsTrue, Contains, map};
ghost use Rattle.sector_job.specs.Results.{ResultValue};
ghost use Rattle.neat_workers.specs.Shelf.{IsWanted, ready_in};

use relay_core::{Piece, RelayState};
use sector_job::{SectorBasis, SectorResult};
use sector_lattice::Sector;
use std::mem;

/// How the basis of a sector stands.
#[derive(Drop)]
pub enum Stand {
    /// Nobody has begun it.
    Open,
    /// A worker works it ahead.
    Begun,
    /// It was worked ahead.
    Ready(SectorBasis),
    /// It is handed out, or was given up. Nobody works it ahead any more.
    Gone,
}

/// A sector, with how its basis stands.
#[derive(Drop)]
pub struct Entry {
    /// The sector.
    pub sector: Sector,
    /// How its basis stands.
    pub stand: Stand,
}

impl Entry {
    /// Whether a worker works the basis of this sector ahead.
    pub fn is_begun(&self, sector: Sector) -> bool
        ensures { IsTrue result ↔ ((self.now.sector ≡ sector) × (self.now.stand ≡ Stand.Begun)) }
    {
        self.sector == sector && matches!(self.stand, Stand::Begun)
    }

    /// Whether the basis is surely needed and nobody has begun it: targets have reached the sector, nobody holds it, and
    /// it is not done.
    pub fn is_wanted(&self, relay: &RelayState<SectorResult>) -> bool
        ensures { IsTrue result ↔ IsWanted self.now relay.now.progress }
    {
        matches!(self.stand, Stand::Open)
            && !relay.targets_of(self.sector).is_empty()
            && relay.holder(self.sector).is_none()
            && !is_done(relay.pieces(), self.sector)
    }

    /// Hands out the basis, if it is ready. Then nobody works it ahead any more.
    pub fn hand_out(&mut self) -> Option<SectorBasis>
        ensures ready { result ≡ ready_in self.old.stand }
        ensures gone { self.new ≡ record self.old { stand = Stand.Gone } }
    {
        match mem::replace(&mut self.stand, Stand::Gone) {
            Stand::Ready(basis) => Some(basis),
            _ => None,
        }
    }
}

// Whether a piece of the sector is there.
fn is_done(pieces: &[SectorResult], sector: Sector) -> bool
    ensures { IsTrue result ↔ Contains (map (λ (piece : ResultValue). piece.sector.0) pieces.now) sector.0 }
{
    for piece in pieces {
        if piece.sector() == sector {
            return true;
        }
    }
    false
}
