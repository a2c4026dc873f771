// The folded system.
ghost use Rattle.std.specs.Prelude.{◌≡◌, ◌<◌, ◌^◌, ℕ, IfOk, Err, All, length, map};
ghost use Rattle.family.specs.FamilyView.{family_view};
ghost use Rattle.symmetry_fold.specs.declared.fault.FoldFault.{FoldFault};
ghost use Rattle.symmetry_fold.specs.Folding.{IsFolded, folded_at, folded_rows, folded_target, targets_of};
ghost use Rattle.symmetry_fold.specs.Symmetries.{AreSymmetries, IsFirstBroken};

use crate::blocks::copy_blocks;
use crate::fault::FoldFault;
use crate::rows::fold_row;
use crate::symmetries::first_broken;
use family::{Family, Permutation};
use ibp_base::{List, NoMemory};
use relation_pick::pick;
use sector_lattice::Integral;
use sparse_rows::Row;
use std::alloc::Global;
use system_text::{Reduction, System, Written};
use target_rows::{declared_row, reductions_of};

// The folds of the written rows.
fn folded_rows(
    alloc: Global,
    entries: &[Permutation],
    relations: &[Written],
) -> Result<Vec<Row>, NoMemory>
    ensures { IfOk result (λ rows. rows.items ≡ folded_rows entries.now relations.now) }
{
    let mut rows = Vec::new(alloc);
    for relation in relations {
        rows.push(fold_row(alloc, entries, &relation.row)?)?;
    }
    Ok(rows)
}

fn targets_of(alloc: Global, reductions: &[Reduction]) -> Result<Vec<Integral>, NoMemory>
    ensures { IfOk result (λ targets. targets.items ≡ targets_of reductions.now) }
{
    let mut targets = Vec::new(alloc);
    for reduction in reductions {
        targets.push(reduction.target)?;
    }
    Ok(targets)
}

// The fold of the row of a target.
fn folded_target(alloc: Global, family: &Family, target: &Integral) -> Result<Row, NoMemory>
    ensures { IfOk result (λ row. row ≡ folded_target (family_view family.now) target.now) }
{
    let row = declared_row(alloc, family, target)?;
    fold_row(alloc, family.symmetries.as_slice(), &row)
}

fn folded_targets(
    alloc: Global,
    family: &Family,
    targets: &[Integral],
) -> Result<Vec<Row>, NoMemory>
    ensures { IfOk result (λ rows. rows.items ≡ map (folded_target (family_view family.now)) targets.now) }
{
    let mut rows = Vec::new(alloc);
    for target in targets {
        rows.push(folded_target(alloc, family, target)?)?;
    }
    Ok(rows)
}

// The relations at these places, with their folded rows.
fn relations_at(
    alloc: Global,
    entries: &[Permutation],
    relations: &[Written],
    places: &[u32],
) -> Result<Vec<Written>, NoMemory>
    requires { All (λ place. place < length relations.now) places.now }
    ensures { IfOk result (λ kept. kept.items ≡ map (folded_at entries.now relations.now) places.now) }
{
    let mut kept = Vec::new(alloc);
    for place in places {
        let relation = &relations[*place as usize];
        kept.push(Written {
            sector: relation.sector,
            seed: relation.seed,
            field: relation.field,
            row: fold_row(alloc, entries, &relation.row)?,
        })?;
    }
    Ok(kept)
}

// What is picked of the folded rows for the folded targets.
fn folded(alloc: Global, family: &Family, system: &System) -> Result<System, NoMemory>
    requires { length system.now.relations < 2 ^ 32 }
    ensures { IfOk result (IsFolded (family_view family.now) system.now) }
{
    let entries = family.symmetries.as_slice();
    let rows = folded_rows(alloc, entries, system.relations.as_slice())?;
    let targets = targets_of(alloc, system.reductions.as_slice())?;
    let target_rows = folded_targets(alloc, family, &targets)?;
    let picked = pick(alloc, &rows, &target_rows)?;
    let written = picked.written.as_slice();
    let relations = relations_at(alloc, entries, system.relations.as_slice(), written)?;
    let reductions = reductions_of(alloc, &targets, &picked)?;
    let name = system.name.copy(alloc)?;
    let sectors = copy_blocks(alloc, system.sectors.as_slice())?;
    Ok(System {
        name,
        n: system.n,
        sectors,
        relations: List::from_vec(relations),
        reductions: List::from_vec(reductions),
    })
}

/// The folded system of a family's system: each integral is replaced by the lowest of its images under the
/// permutations of the family, and the rows that the targets then need are picked anew. It is refused where a
/// permutation is not a symmetry of the family.
pub fn fold(alloc: Global, family: &Family, system: &System) -> Result<System, FoldFault>
    requires { length system.now.relations < 2 ^ 32 }
    ensures folded { IfOk result (IsFolded (family_view family.now) system.now) }
    ensures symmetric { IfOk result (λ _. AreSymmetries (family_view family.now)) }
    ensures fault { (k : ℕ) → result ≡ Err (FoldFault.NotSymmetric k) → IsFirstBroken (family_view family.now) k }
{
    if let Some(number) = first_broken(alloc, family)? {
        return Err(FoldFault::NotSymmetric(number));
    }
    let folded = folded(alloc, family, system)?;
    Ok(folded)
}
