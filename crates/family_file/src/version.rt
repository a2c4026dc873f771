//! The versions of a family file.

ghost use Rattle.std.specs.Prelude.{◌≡◌, ◌≤◌};
ghost use Rattle.mono_order.specs.declared.limits.TheConstants.{VARIABLES};
ghost use Rattle.family_file.specs.declared.limits.TheConstants.{LEG_LIMIT};
ghost use Rattle.family_file.specs.Reading.{Returns};
ghost use Rattle.family_file.specs.Version.{version_of, leg_limit, variable_limit};

use crate::fault::FileFault;
use crate::limits::{LEG_LIMIT, VERSION_1_LEG_LIMIT, VERSION_1_VARIABLE_LIMIT};
use mono_order::VARIABLES;

/// The version of a file: it says which keys are known, and how many legs and variables there may be.
#[derive(Clone, Copy)]
pub enum Version {
    One,
    Two,
}

/// The version of this number.
pub fn version_of(number: i64) -> Result<Version, FileFault>
    ensures { Returns (λ version. version) result (version_of number) }
{
    match number {
        1 => Ok(Version::One),
        2 => Ok(Version::Two),
        _ => Err(FileFault::Header),
    }
}

impl Version {
    /// The greatest number of legs.
    pub fn leg_limit(self) -> u32
        ensures value { result ≡ leg_limit self }
        ensures few { result ≤ LEG_LIMIT }
    {
        match self {
            Version::One => VERSION_1_LEG_LIMIT,
            Version::Two => LEG_LIMIT,
        }
    }

    /// The greatest number of variables.
    pub fn variable_limit(self) -> u32
        ensures value { result ≡ variable_limit self }
        ensures few { result ≤ VARIABLES }
    {
        match self {
            Version::One => VERSION_1_VARIABLE_LIMIT,
            Version::Two => VARIABLES as u32,
        }
    }
}
