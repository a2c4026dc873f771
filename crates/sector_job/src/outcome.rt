// What comes of a sector.
use ibp_base::List;
use sector_lattice::Integral;
use sector_module::Generators;
use sparse_rows::Row;

/// What comes of the work on a sector for some of its integrals.
#[derive(Drop)]
pub enum Outcome {
    /// The reduced basis, the identities of its fields at the seeds, and the integrals of proper subsectors that
    /// the targets are reduced to.
    Worked {
        /// The reduced basis of the sector's module.
        generators: Generators,
        /// The identities of its fields at the seeds: lowest seed first, and at each seed in the order of the basis.
        candidates: List<Row>,
        /// The integrals of proper subsectors that the targets are reduced to, lowest first.
        tails: List<Integral>,
    },
    /// The run of the sector spent the family's pairs.
    PairsSpent,
    /// A degree of the run is over the limit.
    DegreeOver,
    /// There are more candidates than the family allows.
    CandidatesOver,
}
