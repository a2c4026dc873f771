// What happens in a relay.
use sector_lattice::Sector;

/// One step of a worker.
#[derive(Clone, Copy, Debug, PartialEq, Eq)]
pub enum Event {
    /// The worker takes the sector.
    Take {
        worker: u32,
        sector: Sector,
    },
    /// The worker posts the sector's tails from the place `first`, counted from 0, up to and without the place `end`.
    Post {
        worker: u32,
        sector: Sector,
        first: u32,
        end: u32,
    },
    /// The worker finishes the sector, and all its tails are posted.
    Finish {
        worker: u32,
        sector: Sector,
    },
    /// The worker gives the sector back.
    GiveBack {
        worker: u32,
        sector: Sector,
    },
}

/// A sector that a worker holds.
#[derive(Clone, Copy, Debug, PartialEq, Eq)]
pub struct Holding {
    /// The sector.
    pub sector: Sector,
    /// The number of the worker.
    pub worker: u32,
}
