// The cut family.
ghost use Rattle.std.specs.Prelude.{◌≡◌, ◌<◌, ◌≤◌, ◌^◌, ◌+◌, ◌++◌, OnOk, IfOk, length, None, Some, count_ones};
ghost use Rattle.std.specs.List.{All};
ghost use Rattle.sector_lattice.specs.declared.integral.TheConstants.{LINES};
ghost use Rattle.sector_lattice.specs.Subsectors.{is_subsector};
ghost use Rattle.family.specs.FamilyView.{family_view};
ghost use Rattle.cut_family.specs.declared.fault.CutFault.{CutFault};
ghost use Rattle.cut_family.specs.declared.fault.CutAnswer.{CutAnswer};
ghost use Rattle.cut_family.specs.Places.{outside};
ghost use Rattle.cut_family.specs.Cutting.{IsCutFamily, cut_caps, cut_sectors, cut_targets, fault_of, first_rising};

use crate::fault::{CutAnswer, CutFault};
use crate::places::{is_on_cut, put_outside, rises_on_cut, without_cut};
use crate::polynomials::cut_polynomial;
use family::{Family, SectorCaps};
use ibp_base::{List, NoMemory};
use sector_lattice::{Integral, LINES, Sector, lines};
use std::alloc::Global;

// The integral without its powers at the members of the cut.
fn cut_integral(alloc: Global, cut: u16, integral: &Integral) -> Result<Integral, NoMemory>
    requires small { cut < 2 ^ length integral.now }
    requires some { count_ones cut < length integral.now }
    ensures { IfOk result (λ i. i ≡ outside cut integral.now) }
{
    let mut powers = Vec::new(alloc);
    put_outside(&mut powers, cut, integral.powers())?;
    match Integral::new(&powers) {
        Some(integral) => Ok(integral),
        None => unreachable!(),
    }
}

// The targets on the cut, without their powers there.
fn put_cut_targets(
    alloc: Global,
    into: &mut Vec<Integral>,
    n: u8,
    cut: u16,
    targets: &[Integral],
) -> Result<(), NoMemory>
    requires small { cut < 2 ^ n }
    requires some { count_ones cut < n }
    requires long { All (λ powers. length powers ≡ n) targets.now }
    ensures { OnOk result (into.new.items ≡ into.old.items ++ cut_targets cut targets.now) }
{
    for target in targets {
        if is_on_cut(cut, target.powers()) {
            into.push(cut_integral(alloc, cut, target)?)?;
        }
    }
    Ok(())
}

fn contains_cut(cut: Sector, sector: Sector) -> bool
    ensures { result ≡ is_subsector cut.0 sector.0 }
{
    cut.0 & sector.0 == cut.0
}

// The sectors that contain the cut, without it.
fn put_cut_sectors(
    into: &mut Vec<Sector>,
    n: u8,
    cut: Sector,
    sectors: &[Sector],
) -> Result<(), NoMemory>
    requires { n ≤ LINES }
    ensures { OnOk result (into.new.items ≡ into.old.items ++ cut_sectors n cut.0 sectors.now) }
{
    for sector in sectors {
        if contains_cut(cut, *sector) {
            into.push(Sector(without_cut(n, cut.0, sector.0)))?;
        }
    }
    Ok(())
}

// The entries whose sector contains the cut, with the sector without it.
fn put_cut_caps(
    into: &mut Vec<SectorCaps>,
    n: u8,
    cut: Sector,
    caps: &[SectorCaps],
) -> Result<(), NoMemory>
    requires { n ≤ LINES }
    ensures { OnOk result (into.new.items ≡ into.old.items ++ cut_caps n cut.0 caps.now) }
{
    for entry in caps {
        if contains_cut(cut, entry.sector) {
            into.push(SectorCaps {
                sector: Sector(without_cut(n, cut.0, entry.sector.0)),
                dots: entry.dots,
                rank: entry.rank,
            })?;
        }
    }
    Ok(())
}

// The number of the first target with a power above 1 at a member of the cut, counted from this number.
fn first_rising(first: u32, cut: u16, targets: &[Integral]) -> Option<u32>
    requires { first + length targets.now < 2 ^ 32 }
    ensures { result ≡ first_rising first cut targets.now }
{
    let mut number = first;
    for target in targets {
        if rises_on_cut(cut, target.powers()) {
            return Some(number);
        }
        number += 1;
    }
    None
}

/// The family on a cut: the members of the cut are set to zero, and what is asked is what remains of the
/// targets that have the power 1 at each of them. Its variables are numbered anew.
pub fn cut(alloc: Global, family: &Family, cut: Sector) -> Result<Family, CutAnswer>
    requires { cut.0 < 2 ^ family.now.n }
    ensures family { IfOk result (λ f. IsCutFamily cut.0 (family_view family.now) (family_view f)) }
    ensures none { IfOk result (λ _. fault_of cut.0 (family_view family.now) ≡ None) }
    ensures fault { (fault : CutFault) → result ≡ Err (CutAnswer.No fault) → fault_of cut.0 (family_view family.now) ≡ Some fault }
{
    if lines(cut) == family.n {
        return Err(CutAnswer::No(CutFault::All));
    }
    let baikov = cut_polynomial(alloc, cut.0, &family.baikov)?;
    if baikov.is_zero() {
        return Err(CutAnswer::No(CutFault::Zero));
    }
    if let Some(number) = first_rising(1, cut.0, family.targets.as_slice()) {
        return Err(CutAnswer::No(CutFault::Target(number)));
    }
    let name = family.name.copy(alloc)?;
    let mut targets = Vec::new(alloc);
    put_cut_targets(
        alloc,
        &mut targets,
        family.n,
        cut.0,
        family.targets.as_slice(),
    )?;
    let mut zero = Vec::new(alloc);
    put_cut_sectors(&mut zero, family.n, cut, family.zero.as_slice())?;
    let mut caps = Vec::new(alloc);
    put_cut_caps(&mut caps, family.n, cut, family.caps.as_slice())?;
    Ok(Family {
        name,
        n: family.n - lines(cut),
        gamma: family.gamma,
        baikov,
        targets: List::from_vec(targets),
        zero: List::from_vec(zero),
        bounds: family.bounds,
        caps: List::from_vec(caps),
        symmetries: List::from_vec(Vec::new(alloc)),
        budget: family.budget,
        probe: None,
    })
}
