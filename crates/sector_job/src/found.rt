// What is found of a sector.
ghost use Rattle.std.specs.Prelude.{◌≡◌, []};

use crate::outcome::Outcome;
use ibp_base::List;
use sector_lattice::Integral;
use std::alloc::Global;

/// What is found of a sector: the outcome, the seeds of its candidates, and the places of those that are not in the
/// span of earlier ones.
#[derive(Drop)]
pub struct Found {
    /// The outcome.
    pub outcome: Outcome,
    /// The seeds that the candidates are made at, lowest first.
    pub seeds: List<Integral>,
    /// The places of the candidates that are not in the span of earlier ones, lowest first.
    pub basis: List<u32>,
}

impl Found {
    /// An outcome that has no candidates.
    pub fn without_candidates(alloc: Global, outcome: Outcome) -> Found
        ensures outcome { result.outcome ≡ outcome }
        ensures seeds { result.seeds ≡ [] }
        ensures basis { result.basis ≡ [] }
    {
        Found {
            outcome,
            seeds: List::from_vec(Vec::new(alloc)),
            basis: List::from_vec(Vec::new(alloc)),
        }
    }
}
