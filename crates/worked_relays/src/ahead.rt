// A basis that is worked before its sector is taken.
use crate::relays::{job_of, opened};
use crate::scripts::is_work_of_the_quad;
use relay_core::Job;
use sector_job::{Plan, SectorBasis, SectorResult, work_from};
use sector_lattice::Sector;
use std::alloc::Global;
use std::process::Abort;
use std::thread::Threads;
use worked_texts::{QUAD, plan_of};

// The basis of sector 1 of a family in one variable.
fn basis_of_the_line(rt: &impl Abort, alloc: Global, plan: &Plan) -> SectorBasis {
    assert!(rt; plan.family().n == 1, "more variables");
    SectorBasis::of(alloc, plan, Sector(1))
        .ok()
        .expect(rt, "memory")
}

// The result of a job, from the basis of its sector.
fn worked<R: Threads + Sync + Abort>(
    rt: &R,
    alloc: Global,
    basis: SectorBasis,
    job: &Job,
) -> SectorResult {
    let family = basis.plan().family();
    let n = family.n;
    assert!(rt; basis.sector() == job.sector, "another sector");
    assert!(rt; !family.is_zero(job.sector), "a zero sector");
    assert!(rt;
        job.targets.as_slice().iter().all(|target| target.n() == n),
        "other powers"
    );
    work_from(rt, alloc, basis, job, 2)
        .ok()
        .expect(rt, "memory")
}

#[test]
fn a_basis_from_before_the_job_gives_its_result(rt: HostRuntime) {
    let alloc = rt.alloc();
    let plan = plan_of(alloc, QUAD).expect(&rt, "memory");
    let basis = basis_of_the_line(&rt, alloc, &plan);
    let mut relay = opened(&rt, alloc, &plan);
    let job = job_of(&rt, &mut relay, 1);
    let piece = worked(&rt, alloc, basis, &job);
    assert!(rt; is_work_of_the_quad(&rt, &piece));
}
