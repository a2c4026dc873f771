//! Integers of a file within their ranges.

ghost use Rattle.family_file.specs.Reading.{Returns};
ghost use Rattle.family_file.specs.Numbers.{natural, whole};

use crate::fault::FileFault;

/// A number from `low` to `high`, or else this fault.
pub fn natural(value: i64, low: u32, high: u32, fault: FileFault) -> Result<u32, FileFault>
    ensures { Returns (λ n. n) result (natural fault low high value) }
{
    match u32::try_from(value) {
        Ok(number) if low <= number && number <= high => Ok(number),
        _ => Err(fault),
    }
}

/// A number up to `high`, or else this fault.
pub fn small(value: i64, high: u16, fault: FileFault) -> Result<u16, FileFault>
    ensures { Returns (λ n. n) result (natural fault 0 high value) }
{
    match u16::try_from(value) {
        Ok(number) if number <= high => Ok(number),
        _ => Err(fault),
    }
}

/// A signed number from `low` to `high`, or else this fault.
pub fn whole(value: i64, low: i16, high: i16, fault: FileFault) -> Result<i16, FileFault>
    ensures { Returns (λ z. z) result (whole fault low high value) }
{
    match i16::try_from(value) {
        Ok(number) if low <= number && number <= high => Ok(number),
        _ => Err(fault),
    }
}
