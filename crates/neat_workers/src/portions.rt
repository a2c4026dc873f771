// The tails of a piece, in portions.
ghost use Rattle.std.specs.Prelude.{IfOk};
ghost use Rattle.neat_workers.specs.Portions.{ArePortions};

use ibp_base::NoMemory;
use std::alloc::Global;

// How many tails a portion has at most.
const PORTION: u32 = 64;

/// The tails from the place `first` up to and without the place `end`.
#[derive(Clone, Copy)]
pub struct Portion {
    pub first: u32,
    pub end: u32,
}

/// So many tails, cut into consecutive portions.
pub fn portions_of(alloc: Global, count: u32) -> Result<Vec<Portion>, NoMemory>
    ensures { IfOk result (λ portions. ArePortions 0 count portions.items) }
{
    let mut portions = Vec::new(alloc);
    let mut first = 0;
    while first < count {
        let end = first + PORTION.min(count - first);
        portions.push(Portion { first, end })?;
        first = end;
    }
    Ok(portions)
}
