// The work on a sector.
ghost use Rattle.std.specs.Prelude.{◌≡◌, ℕ, ◌≤◌, false, IfOk, length};
ghost use Rattle.std.specs.List.{All};
ghost use Rattle.mono_order.specs.declared.limits.TheConstants.{RUN_DEGREE};
ghost use Rattle.family.specs.Conditions.{IsInSectorModule, is_zero_sector};
ghost use Rattle.family.specs.FamilyView.{family_view};
ghost use Rattle.family.specs.Shapes.{IsField};
ghost use Rattle.relation_pick.specs.declared.parts.TheConstants.{PARTS};
ghost use Rattle.sector_job.specs.Ahead.{IsRun};
ghost use Rattle.sector_job.specs.Outcomes.{FitsTargets, HasBasis, IsOutcome};
ghost use Rattle.sector_job.specs.Results.{HasSeeds, HasBasisOf};

use crate::ahead::{BasisRun, SectorBasis};
use crate::bounds::{are_too_many, most_dots, most_rank};
use crate::candidates::Listing;
use crate::found::Found;
use crate::outcome::Outcome;
use crate::plan::Plan;
use crate::sector_result::SectorResult;
use crate::tails::{Handed, tails_of};
use family::Family;
use ibp_base::{List, NoMemory};
use relation_pick::{AtOnce, InTurn, PARTS};
use relay_core::Job;
use sector_lattice::{Integral, Sector, seeds};
use sector_module::Generators;
use std::alloc::Global;
use std::thread::Threads;

/// Works on a job's sector: the reduced basis of its module, the identities of the basis at the seeds that the
/// targets ask for, and the integrals of proper subsectors in the reduced forms of the targets by these
/// identities. After Wu, Boehm, Ma, Xu and Zhang, "NeatIBP 1.0, a package generating small-size
/// integration-by-parts relations for Feynman integrals" (2023).
pub fn work(alloc: Global, plan: &Plan, job: &Job) -> Result<SectorResult, NoMemory>
    requires powers { All (λ target. length target ≡ plan.now.n) job.now.targets }
    requires not_zero { is_zero_sector plan.now.zero job.now.sector.0 ≡ false }
    ensures plan { IfOk result (λ piece. piece.plan ≡ plan.now) }
    ensures sector { IfOk result (λ piece. piece.sector ≡ job.now.sector) }
    ensures targets { IfOk result (λ piece. piece.targets ≡ job.now.targets) }
    ensures outcome { IfOk result (λ piece. IsOutcome (family_view plan.now) job.now.sector.0 job.now.targets piece.outcome) }
{
    let basis = basis_for(alloc, plan, job)?;
    work_by(alloc, &InTurn, basis, job)
}

/// Works on a job's sector as `work` does. The seeds are cut into so many consecutive pieces, whose identities are made
/// in threads of their own and joined in order. It may wait for the threads that it starts.
pub fn work_wide<R: Threads + Sync>(
    rt: &R,
    alloc: Global,
    plan: &Plan,
    job: &Job,
    parts: u32,
) -> Result<SectorResult, NoMemory>
    requires powers { All (λ target. length target ≡ plan.now.n) job.now.targets }
    requires not_zero { is_zero_sector plan.now.zero job.now.sector.0 ≡ false }
    requires parts { (1 ≤ parts) × (parts ≤ PARTS) }
    ensures plan { IfOk result (λ piece. piece.plan ≡ plan.now) }
    ensures sector { IfOk result (λ piece. piece.sector ≡ job.now.sector) }
    ensures targets { IfOk result (λ piece. piece.targets ≡ job.now.targets) }
    ensures outcome { IfOk result (λ piece. IsOutcome (family_view plan.now) job.now.sector.0 job.now.targets piece.outcome) }
{
    let basis = basis_for(alloc, plan, job)?;
    work_from(rt, alloc, basis, job, parts)
}

/// Works on a job's sector as `work_wide` does, from the sector's basis, which was worked ahead.
pub fn work_from<R: Threads + Sync>(
    rt: &R,
    alloc: Global,
    basis: SectorBasis,
    job: &Job,
    parts: u32,
) -> Result<SectorResult, NoMemory>
    requires own { basis.sector ≡ job.now.sector }
    requires powers { All (λ target. length target ≡ basis.plan.n) job.now.targets }
    requires not_zero { is_zero_sector basis.plan.zero job.now.sector.0 ≡ false }
    requires parts { (1 ≤ parts) × (parts ≤ PARTS) }
    ensures plan { IfOk result (λ piece. piece.plan ≡ basis.plan) }
    ensures sector { IfOk result (λ piece. piece.sector ≡ job.now.sector) }
    ensures targets { IfOk result (λ piece. piece.targets ≡ job.now.targets) }
    ensures outcome { IfOk result (λ piece. IsOutcome (family_view basis.plan) job.now.sector.0 job.now.targets piece.outcome) }
{
    work_by(alloc, &AtOnce { rt, parts }, basis, job)
}

// The basis of a job's sector.
fn basis_for(alloc: Global, plan: &Plan, job: &Job) -> Result<SectorBasis, NoMemory>
    requires powers { All (λ target. length target ≡ plan.now.n) job.now.targets }
    requires not_zero { is_zero_sector plan.now.zero job.now.sector.0 ≡ false }
    ensures plan { IfOk result (λ basis. basis.plan ≡ plan.now) }
    ensures sector { IfOk result (λ basis. basis.sector ≡ job.now.sector) }
{
    SectorBasis::of(alloc, plan, job.sector)
}

// The work on a job's sector from its basis, with its candidates listed in this way.
fn work_by<L: Listing>(
    alloc: Global,
    listing: &L,
    basis: SectorBasis,
    job: &Job,
) -> Result<SectorResult, NoMemory>
    requires can { L.can_list }
    requires own { basis.sector ≡ job.now.sector }
    requires powers { All (λ target. length target ≡ basis.plan.n) job.now.targets }
    requires not_zero { is_zero_sector basis.plan.zero job.now.sector.0 ≡ false }
    ensures plan { IfOk result (λ piece. piece.plan ≡ basis.plan) }
    ensures sector { IfOk result (λ piece. piece.sector ≡ job.now.sector) }
    ensures targets { IfOk result (λ piece. piece.targets ≡ job.now.targets) }
    ensures outcome { IfOk result (λ piece. IsOutcome (family_view basis.plan) job.now.sector.0 job.now.targets piece.outcome) }
{
    let (plan, run) = basis.into_run();
    let sector = job.sector;
    let found = outcome_of(
        alloc,
        listing,
        plan.family(),
        sector,
        job.targets.as_slice(),
        run,
    )?;
    let targets = List::from_vec(job.targets.as_slice().to_vec(alloc)?);
    Ok(SectorResult::new(plan, sector, targets, found))
}

// What comes of the sector for these targets, by what its run came to.
fn outcome_of<L: Listing>(
    alloc: Global,
    listing: &L,
    family: &Family,
    sector: Sector,
    targets: &[Integral],
    run: BasisRun,
) -> Result<Found, NoMemory>
    requires can { L.can_list }
    requires fits { FitsTargets (family_view family.now) sector.0 targets.now }
    requires run { IsRun (family_view family.now) sector.0 run }
    ensures outcome { IfOk result (λ found. IsOutcome (family_view family.now) sector.0 targets.now found.outcome) }
    ensures seeds { IfOk result (λ found. HasSeeds (family_view family.now) sector.0 targets.now found.outcome found.seeds) }
    ensures basis { IfOk result (λ found. HasBasisOf found.outcome found.basis) }
{
    match run {
        BasisRun::Done(generators) => outcome_by(alloc, listing, family, targets, generators),
        BasisRun::PairsSpent => Ok(Found::without_candidates(alloc, Outcome::PairsSpent)),
        BasisRun::DegreeOver => Ok(Found::without_candidates(alloc, Outcome::DegreeOver)),
    }
}

// What comes of a sector by its basis.
fn outcome_by<L: Listing>(
    alloc: Global,
    listing: &L,
    family: &Family,
    targets: &[Integral],
    generators: Generators,
) -> Result<Found, NoMemory>
    requires can { L.can_list }
    requires fits { FitsTargets (family_view family.now) generators.sector.0 targets.now }
    requires basis { HasBasis (family_view family.now) generators.sector.0 generators.fields }
    requires shape { All (λ field. IsField family.now.n RUN_DEGREE field.c field.b) generators.fields }
    requires members { All (IsInSectorModule family.now.baikov generators.sector.0) generators.fields }
    ensures outcome { IfOk result (λ found. IsOutcome (family_view family.now) generators.sector.0 targets.now found.outcome) }
    ensures seeds { IfOk result (λ found. HasSeeds (family_view family.now) generators.sector.0 targets.now found.outcome found.seeds) }
    ensures basis { IfOk result (λ found. HasBasisOf found.outcome found.basis) }
{
    let sector = generators.sector();
    let fields = generators.fields();
    let dots = most_dots(family, sector, targets);
    let rank = most_rank(family, sector, targets);
    if are_too_many(family, fields.len(), sector, dots, rank) {
        return Ok(Found::without_candidates(alloc, Outcome::CandidatesOver));
    }
    let seeds = seeds(alloc, sector, family.n, dots, rank)?;
    let candidates = listing.list(alloc, family, sector, fields, seeds.as_slice())?;
    let Handed { tails, basis } = tails_of(alloc, sector, targets, &candidates)?;
    let outcome = Outcome::Worked {
        generators,
        candidates: List::from_vec(candidates),
        tails: List::from_vec(tails),
    };
    Ok(Found {
        outcome,
        seeds,
        basis,
    })
}
