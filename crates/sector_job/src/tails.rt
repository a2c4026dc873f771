// The integrals that a sector hands down.
ghost use Rattle.std.specs.Prelude.{◌≡◌, ◌↔◌, ◌<◌, ◌^◌, ◌++◌, IsTrue, IfOk, OnOk, length, map};
ghost use Rattle.std.specs.List.{flat_map};
ghost use Rattle.std.specs.List.Sorted.{IsPermutation, IsSorted};
ghost use Rattle.sector_lattice.specs.Sectors.{integral_cmp};
ghost use Rattle.relation_pick.specs.Bases.{ListsBasis};
ghost use Rattle.sector_job.specs.Candidates.{target_row, AreTails};
ghost use Rattle.sector_job.specs.Handing.{is_proper, integrals_below};

use ibp_base::{List, NoMemory};
use ibp_field::Residue;
use relation_pick::{Forms, reduced_forms};
use sector_lattice::{Integral, Sector, is_subsector};
use sparse_rows::Row;
use std::alloc::Global;

/// What a sector hands down, with the basis of its candidates.
#[derive(Drop)]
pub struct Handed {
    /// The integrals of proper subsectors that occur in the reduced forms of the targets, lowest first.
    pub tails: Vec<Integral>,
    /// The places of the candidates that are not in the span of earlier ones, lowest first.
    pub basis: List<u32>,
}

/// The integrals of proper subsectors that occur in the reduced forms of the targets by the candidates, and the
/// candidates that are not in the span of earlier ones.
pub fn tails_of(
    alloc: Global,
    sector: Sector,
    targets: &[Integral],
    candidates: &[Row],
) -> Result<Handed, NoMemory>
    requires { length candidates.now < 2 ^ 32 }
    ensures tails { IfOk result (λ handed. AreTails sector.0 targets.now candidates.now handed.tails.items) }
    ensures basis { IfOk result (λ handed. ListsBasis integral_cmp candidates.now handed.basis) }
{
    let rows = target_rows(alloc, targets)?;
    let Forms { forms, basis } = reduced_forms(alloc, candidates, &rows)?;
    let mut tails = all_below(alloc, sector, forms.as_slice())?;
    sort(&mut tails);
    tails.dedup();
    Ok(Handed { tails, basis })
}

// The row of each target.
fn target_rows(alloc: Global, targets: &[Integral]) -> Result<Vec<Row>, NoMemory>
    ensures { IfOk result (λ rows. rows.items ≡ map target_row targets.now) }
{
    let mut rows = Vec::new(alloc);
    for target in targets {
        rows.push(row_of(alloc, target)?)?;
    }
    Ok(rows)
}

fn row_of(alloc: Global, target: &Integral) -> Result<Row, NoMemory>
    ensures { IfOk result (λ row. row ≡ target_row target.now) }
{
    let row = Row::from_terms(alloc, &[(*target, Residue::one())])?;
    Ok(row)
}

// The integrals of proper subsectors in the forms, one after the other.
fn all_below(alloc: Global, sector: Sector, forms: &[Row]) -> Result<Vec<Integral>, NoMemory>
    ensures { IfOk result (λ found. found.items ≡ flat_map (integrals_below sector.0) forms.now) }
{
    let mut found = Vec::new(alloc);
    for form in forms {
        add_below(&mut found, sector, form)?;
    }
    Ok(found)
}

// Those of one form.
fn add_below(found: &mut Vec<Integral>, sector: Sector, form: &Row) -> Result<(), NoMemory>
    ensures { OnOk result (found.new.items ≡ found.old.items ++ integrals_below sector.0 form.now) }
{
    for (integral, _) in form.terms() {
        if lies_properly_in(integral.sector(), sector) {
            found.push(*integral)?;
        }
    }
    Ok(())
}

fn lies_properly_in(inner: Sector, outer: Sector) -> bool
    ensures { result ≡ is_proper inner.0 outer.0 }
{
    inner != outer && is_subsector(inner, outer)
}

// Lowest first.
fn sort(integrals: &mut Vec<Integral>)
    ensures permutation { IsPermutation integrals.old.items integrals.new.items }
    ensures sorted { IsSorted integral_cmp integrals.new.items }
{
    integrals.sort_unstable_by(|left, right| left.compare(right));
}
