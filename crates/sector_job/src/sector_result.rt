// What came of a sector, as a piece of work of a relay.
ghost use Rattle.std.specs.Prelude.{◌≡◌};
ghost use Rattle.family.specs.FamilyView.{family_view};
ghost use Rattle.sector_job.specs.Outcomes.{FitsTargets, IsOutcome};
ghost use Rattle.sector_job.specs.Results.{result_value, HasSeeds, HasBasisOf};

use crate::found::Found;
use crate::outcome::Outcome;
use crate::plan::Plan;
use ibp_base::List;
use relay_core::Piece;
use sector_lattice::{Integral, Sector};
use std::marker::Model;

/// What came of a sector for some of its integrals. It keeps that the outcome is the one that the family
/// gives to the sector and these targets, and which seeds and which basis its candidates have.
#[derive(Drop)]
pub struct SectorResult {
    plan: Plan,
    sector: Sector,
    targets: List<Integral>,
    outcome: Outcome,
    seeds: List<Integral>,
    basis: List<u32>,
}

impl Model for SectorResult {
    ghost use Rattle.std.specs.Coded.{codes};
    ghost use Rattle.family.specs.contracts.family.Family.{the_row as family_row};
    ghost use Rattle.sector_job.specs.Results.{ResultValue, result_value, IsKept};

    ghost Value = { ResultValue };

    ghost coded = { Prim.hlevel (codes, family_row.coded) };

    ghost view = { λ s. result_value s.plan s.sector s.targets s.outcome };

    ghost invariant = { λ s. IsKept (result_value s.plan s.sector s.targets s.outcome) s.seeds s.basis };
}

impl SectorResult {
    /// What came of the sector for these targets.
    pub(crate) fn new(
        plan: Plan,
        sector: Sector,
        targets: List<Integral>,
        found: Found,
    ) -> SectorResult
        requires fits { FitsTargets (family_view plan) sector.0 targets }
        requires outcome { IsOutcome (family_view plan) sector.0 targets found.outcome }
        requires seeds { HasSeeds (family_view plan) sector.0 targets found.outcome found.seeds }
        requires basis { HasBasisOf found.outcome found.basis }
        ensures { result ≡ result_value plan sector targets found.outcome }
    {
        let Found {
            outcome,
            seeds,
            basis,
        } = found;
        SectorResult {
            plan,
            sector,
            targets,
            outcome,
            seeds,
            basis,
        }
    }

    /// What came of the sector.
    pub fn outcome(&self) -> &Outcome
        ensures value { result.now ≡ self.now.outcome }
        ensures outcome { IsOutcome (family_view self.now.plan) self.now.sector.0 self.now.targets result.now }
        ensures fits { FitsTargets (family_view self.now.plan) self.now.sector.0 self.now.targets }
    {
        &self.outcome
    }

    /// The seeds that the candidates are made at, lowest first.
    pub fn seeds(&self) -> &[Integral]
        ensures { HasSeeds (family_view self.now.plan) self.now.sector.0 self.now.targets self.now.outcome result.now }
    {
        self.seeds.as_slice()
    }

    /// The places of the candidates that are not in the span of earlier ones, lowest first.
    pub fn basis(&self) -> &[u32]
        ensures { HasBasisOf self.now.outcome result.now }
    {
        self.basis.as_slice()
    }
}

impl Piece for SectorResult {
    type Plan = Plan;

    ghost use Rattle.sector_job.specs.Outcomes.{tails_in};
    ghost use Rattle.sector_job.specs.Results.{opening_of, tails_of_plan};
    ghost use Rattle.sector_job.specs.PieceLaws.{opened, lawful};
    ghost use Rattle.sector_job.specs.EqualPlans.{same_opening, same_tails};

    ghost plan = { λ s. s.plan };

    ghost sector = { λ s. s.sector.0 };

    ghost targets = { λ s. s.targets };

    ghost tails = { λ s. tails_in s.outcome };

    ghost opening = { opening_of };

    ghost are_tails = { tails_of_plan };

    ghost opened = { opened };

    ghost lawful = { lawful };

    ghost same_opening = { same_opening };

    ghost same_tails = { same_tails };

    fn plan(&self) -> &Plan {
        &self.plan
    }

    fn sector(&self) -> Sector {
        self.sector
    }

    fn targets(&self) -> &[Integral] {
        self.targets.as_slice()
    }

    fn tails(&self) -> &[Integral] {
        match &self.outcome {
            Outcome::Worked { tails, .. } => tails.as_slice(),
            _ => &[],
        }
    }
}
