ghost use Rattle.std.specs.Prelude.{◌≡◌, ◌-◌, ◌++◌, length, replicate, OnOk, OnErr};

use std::alloc::AllocError;

// Fills up to a length.
pub(crate) fn lengthen<T: Copy>(items: &mut Vec<T>, count: usize, fill: T) -> Result<(), AllocError>
    ensures filled { OnOk result (items.new.items ≡ items.old.items ++ replicate (count - length items.old.items) fill) }
    ensures kept { OnErr result (items.new.items ≡ items.old.items) }
{
    if items.len() < count {
        items.resize(count, fill)?;
    }
    Ok(())
}
