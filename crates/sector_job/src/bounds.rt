// The bounds of the seeds of a sector, and how many candidates they give.
ghost use Rattle.std.specs.Prelude.{◌≡◌, ◌↔◌, ◌≤◌, ◌<◌, ◌*◌, IsTrue};
ghost use Rattle.sector_lattice.specs.Sectors.{dots_of, rank_of};
ghost use Rattle.sector_lattice.specs.Ranges.{HasSeedBounds};
ghost use Rattle.sector_lattice.specs.Seeds.{seed_number};
ghost use Rattle.family.specs.FamilyView.{family_view};
ghost use Rattle.sector_job.specs.Candidates.{greatest, dots_bound, rank_bound};

use family::Family;
use sector_lattice::{Integral, SEED_LIMIT, Sector, seed_count};

/// The most dots of the seeds of the sector.
pub fn most_dots(family: &Family, sector: Sector, targets: &[Integral]) -> u32
    ensures value { result ≡ dots_bound (family_view family.now) sector.0 targets.now }
    ensures bound { result ≤ SEED_LIMIT }
{
    let (cap, _) = family.caps_of(sector);
    let dots = greatest_dots(targets).saturating_add(family.bounds.extra_dots);
    cap.min(dots)
}

/// The most rank of the seeds of the sector.
pub fn most_rank(family: &Family, sector: Sector, targets: &[Integral]) -> u32
    ensures value { result ≡ rank_bound (family_view family.now) sector.0 targets.now }
    ensures bound { result ≤ SEED_LIMIT }
{
    let (_, cap) = family.caps_of(sector);
    let rank = greatest_rank(targets).saturating_add(family.bounds.extra_rank);
    cap.min(rank)
}

fn greatest_dots(targets: &[Integral]) -> u32
    ensures { result ≡ greatest dots_of targets.now }
{
    let mut most = 0;
    for target in targets {
        most = target.dots().max(most);
    }
    most
}

fn greatest_rank(targets: &[Integral]) -> u32
    ensures { result ≡ greatest rank_of targets.now }
{
    let mut most = 0;
    for target in targets {
        most = target.rank().max(most);
    }
    most
}

/// Whether so many fields at the seeds of the sector are more candidates than the family allows.
pub fn are_too_many(family: &Family, fields: usize, sector: Sector, dots: u32, rank: u32) -> bool
    requires { HasSeedBounds sector.0 family.now.n dots rank }
    ensures { IsTrue result ↔ (family.now.budget.candidates < fields * seed_number sector.0 family.now.n dots rank) }
{
    let seeds = seed_count(sector, family.n, dots, rank);
    (fields as u64).saturating_mul(seeds) > family.budget.candidates
}
