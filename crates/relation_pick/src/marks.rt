// The places that weights name, found by marks.
ghost use Rattle.std.specs.Prelude.{ℕ, ◌<◌, ◌^◌, length, IfOk};
ghost use Rattle.ibp_algebra.specs.FormalSum.{AllKeys};
ghost use Rattle.relation_pick.specs.Marks.{AnyNamed, Marks, ListsMarked, ListsNamed};

use ibp_base::{List, NoMemory};
use ibp_field::Residue;
use std::alloc::Global;

// Marks the place of each weight.
fn mark(marks: &mut [bool], weights: &[(u32, Residue)])
    requires { AllKeys (λ place. place < length marks.old) weights.now }
    ensures { Marks marks.old marks.new weights.now }
{
    for (place, _) in weights {
        marks[*place as usize] = true;
    }
}

// The marked places, lowest first.
fn marked_places(alloc: Global, marks: &[bool]) -> Result<Vec<u32>, NoMemory>
    requires { length marks.now < 2 ^ 32 }
    ensures { IfOk result (λ places. ListsMarked marks.now places.items) }
{
    let mut places = Vec::new(alloc);
    for (place, marked) in marks.iter().enumerate() {
        if *marked {
            places.push(place as u32)?;
        }
    }
    Ok(places)
}

/// The places that these lists of weights name, lowest first, of so many places.
pub fn named_places(
    alloc: Global,
    count: usize,
    all: &[List<(u32, Residue)>],
) -> Result<Vec<u32>, NoMemory>
    requires few { count < 2 ^ 32 }
    requires within { (k : ℕ) → AnyNamed all.now k → k < count }
    ensures { IfOk result (λ places. ListsNamed all.now places.items) }
{
    let mut marks = vec![in alloc; false; count]?;
    for weights in all {
        mark(&mut marks, weights.as_slice());
    }
    marked_places(alloc, &marks)
}
