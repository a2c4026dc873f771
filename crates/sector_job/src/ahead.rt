// The basis of a sector, worked before the sector has a job.
ghost use Rattle.std.specs.Prelude.{◌≡◌, ◌^◌, ◌<◌, IfOk};
ghost use Rattle.family.specs.FamilyView.{family_view};
ghost use Rattle.sector_job.specs.Ahead.{IsRun};

use crate::plan::Plan;
use family::Family;
use ibp_base::NoMemory;
use module_basis::BasisFault;
use sector_lattice::Sector;
use sector_module::{Generators, sector_basis};
use std::alloc::Global;
use std::marker::Model;

/// What the run of a sector comes to.
#[derive(Drop)]
pub enum BasisRun {
    /// The reduced basis of the sector's module.
    Done(Generators),
    /// The run spent the family's pairs.
    PairsSpent,
    /// A degree of the run is over the limit.
    DegreeOver,
}

/// A sector of a plan with the reduced basis of its module, or with the way in which its run ended before it was done.
/// It asks for no targets, so that it can be worked before the sector is taken. It keeps that the basis, or that end,
/// is the sector's.
#[derive(Drop)]
pub struct SectorBasis {
    plan: Plan,
    sector: Sector,
    run: BasisRun,
}

impl Model for SectorBasis {
    ghost use Rattle.std.specs.Coded.{codes};
    ghost use Rattle.family.specs.contracts.family.Family.{the_row as family_row};
    ghost use Rattle.family.specs.FamilyView.{family_view};
    ghost use Rattle.sector_job.specs.Ahead.{AheadValue, ahead_value, IsRun};

    ghost Value = { AheadValue };

    ghost coded = { Prim.hlevel (codes, family_row.coded) };

    ghost view = { λ s. ahead_value s.plan s.sector };

    ghost invariant = { λ s. IsRun (family_view s.plan) s.sector.0 s.run };
}

impl SectorBasis {
    /// The basis of a sector of the plan's family.
    pub fn of(alloc: Global, plan: &Plan, sector: Sector) -> Result<SectorBasis, NoMemory>
        requires { sector.0 < 2 ^ plan.now.n }
        ensures plan { IfOk result (λ basis. basis.plan ≡ plan.now) }
        ensures sector { IfOk result (λ basis. basis.sector ≡ sector) }
    {
        let run = run_of(alloc, plan.family(), sector)?;
        Ok(SectorBasis {
            plan: plan.share()?,
            sector,
            run,
        })
    }

    /// The plan.
    pub fn plan(&self) -> &Plan
        ensures { result.now ≡ self.now.plan }
    {
        &self.plan
    }

    /// The sector.
    pub fn sector(&self) -> Sector
        ensures { result ≡ self.now.sector }
    {
        self.sector
    }

    // The plan, and what the run came to.
    pub(crate) fn into_run(self) -> (Plan, BasisRun)
        ensures plan { result.0 ≡ self.plan }
        ensures run { IsRun (family_view self.plan) self.sector.0 result.1 }
    {
        let SectorBasis {
            plan,
            sector: _,
            run,
        } = self;
        (plan, run)
    }
}

// What the run of the sector comes to.
fn run_of(alloc: Global, family: &Family, sector: Sector) -> Result<BasisRun, NoMemory>
    requires { sector.0 < 2 ^ family.now.n }
    ensures { IfOk result (λ run. IsRun (family_view family.now) sector.0 run) }
{
    match sector_basis(alloc, family, sector) {
        Ok(generators) => Ok(BasisRun::Done(generators)),
        Err(BasisFault::PairsSpent) => Ok(BasisRun::PairsSpent),
        Err(BasisFault::DegreeOver) => Ok(BasisRun::DegreeOver),
        Err(BasisFault::NoMemory) => Err(NoMemory),
    }
}
