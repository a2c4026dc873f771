// The bases of sectors, worked ahead or for a job.
ghost use Rattle.std.specs.Prelude.{◌↔◌, ◌<◌, ◌^◌, IsTrue};

use crate::shelf::Shelf;
use family::Family;
use sector_job::{Plan, SectorBasis};
use sector_lattice::Sector;
use std::alloc::Global;
use std::sync::Wait;

// Whether the sector is one of the family's. A lock tells nothing of whose plan the relay behind it has.
fn is_of(family: &Family, sector: Sector) -> bool
    ensures { IsTrue result ↔ sector.0 < 2 ^ family.now.n }
{
    sector.0 < 2u16.pow(u32::from(family.n))
}

// The basis of a sector. None where the sector isn't one of the plan's family, or memory ran out.
fn worked_basis(alloc: Global, plan: &Plan, sector: Sector) -> Option<SectorBasis> {
    if !is_of(plan.family(), sector) {
        return None;
    }
    SectorBasis::of(alloc, plan, sector).ok()
}

/// Works the basis of a claimed sector, while no lock is held, and answers whether it is ready. Either way the claim
/// ends here, and the work on a basis always ends, so that nobody waits for ever for this one.
pub fn work_ahead<R: Wait>(
    rt: &R,
    alloc: Global,
    plan: &Plan,
    shelf: &Shelf,
    sector: Sector,
) -> bool {
    let basis = worked_basis(alloc, plan, sector);
    let is_ready = basis.is_some();
    shelf.put(rt, sector, basis);
    is_ready
}

/// The basis of a sector that has a job: the one that was worked ahead, or else one that is worked now. None where memory
/// ran out.
pub fn basis_for<R: Wait>(
    rt: &R,
    alloc: Global,
    plan: &Plan,
    shelf: &Shelf,
    sector: Sector,
) -> Option<SectorBasis> {
    match shelf.hand_out(rt, sector) {
        Some(basis) => Some(basis),
        None => worked_basis(alloc, plan, sector),
    }
}
