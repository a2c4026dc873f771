// The reductions of the declared targets, with numbers for the written candidates.
ghost use Rattle.std.specs.Prelude.{◌≡◌, ◌<◌, ◌^◌, ℕ, IfOk, length, Contains};
ghost use Rattle.std.specs.List.Sorted.{IsStrictlyIncreasing};
ghost use Rattle.ibp_algebra.specs.FormalSum.{AllKeys, map_keys};
ghost use Rattle.relation_pick.specs.Marks.{AnyNamed};
ghost use Rattle.target_rows.specs.Reductions.{number_of, reductions_of};

use ibp_base::{List, NoMemory};
use ibp_field::Residue;
use relation_pick::Picked;
use sector_lattice::Integral;
use std::alloc::Global;
use system_text::Reduction;

// The number of the written candidate at this place, from 1 on.
fn number_of(written: &[u32], place: u32) -> u32
    requires ascends { IsStrictlyIncreasing written.now }
    requires few { length written.now < 2 ^ 32 }
    requires listed { Contains written.now place }
    ensures { result ≡ number_of written.now place }
{
    written.partition_point(|other| *other < place) as u32 + 1
}

// The weights with numbers for places.
fn numbered(
    alloc: Global,
    written: &[u32],
    weights: &[(u32, Residue)],
) -> Result<List<(u32, Residue)>, NoMemory>
    requires ascends { IsStrictlyIncreasing written.now }
    requires few { length written.now < 2 ^ 32 }
    requires listed { AllKeys (Contains written.now) weights.now }
    ensures { IfOk result (λ numbered. numbered ≡ map_keys (number_of written.now) weights.now) }
{
    let mut numbered = Vec::new(alloc);
    for (place, weight) in weights {
        numbered.push((number_of(written, *place), *weight))?;
    }
    Ok(List::from_vec(numbered))
}

/// Each target with its reduced form and its weights over the numbers of the written candidates.
pub fn reductions_of(
    alloc: Global,
    targets: &[Integral],
    picked: &Picked,
) -> Result<Vec<Reduction>, NoMemory>
    requires ascends { IsStrictlyIncreasing picked.now.written }
    requires few { length picked.now.written < 2 ^ 32 }
    requires listed { (k : ℕ) → AnyNamed picked.now.weights k → Contains picked.now.written k }
    requires forms { length picked.now.reductions ≡ length targets.now }
    requires weights { length picked.now.weights ≡ length targets.now }
    ensures { IfOk result (λ reductions. reductions.items ≡ reductions_of picked.now.written targets.now picked.now.reductions picked.now.weights) }
{
    let written = picked.written.as_slice();
    let forms = picked.reductions.as_slice();
    let weights = picked.weights.as_slice();
    let mut reductions = Vec::new(alloc);
    for (place, target) in targets.iter().enumerate() {
        let reduced = forms[place].copy(alloc)?;
        let weights = numbered(alloc, written, weights[place].as_slice())?;
        reductions.push(Reduction {
            target: *target,
            reduced,
            weights,
        })?;
    }
    Ok(reductions)
}
