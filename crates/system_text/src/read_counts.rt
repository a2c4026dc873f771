// Lines with a count.
ghost use Rattle.std.specs.Prelude.{◌≡◌, ◌<◌, ◌≤◌, ◌^◌};
ghost use Rattle.sector_lattice.specs.declared.integral.TheConstants.{LINES};

use crate::numbers::put_whole;
use ibp_base::NoMemory;
use line_reader::{LineKind, whole_at};
use std::alloc::Global;

/// Lines with a word and a count.
pub struct CountLine;

impl LineKind<u32> for CountLine {
    ghost use Rattle.std.specs.Prelude.{decimal};
    ghost use Rattle.system_text.specs.SystemLines.{IsCount};
    ghost use Rattle.system_text.specs.SomeValues.{some_count};

    ghost body = { λ _ count. decimal count };

    ghost is_value = { IsCount };

    fn told(_alloc: Global, bytes: &[u8], _number: usize, _n: u8) -> Result<Option<u32>, NoMemory> {
        let Some((count, _)) = whole_at(bytes) else {
            return Ok(None);
        };
        Ok(Some(count))
    }

    fn put_body(into: &mut Vec<u8>, _number: usize, value: &u32) -> Result<(), NoMemory> {
        put_whole(into, u64::from(*value))
    }

    ghost some = { λ n _ _. some_count n };
}
