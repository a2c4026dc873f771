//! The sectors whose integrals are declared to be zero.

ghost use Rattle.std.specs.Prelude.{◌≡◌};
ghost use Rattle.family.specs.Conditions.{is_zero_sector};

use crate::family::Family;
use sector_lattice::{Sector, is_subsector_of_any};

impl Family {
    /// Whether the sector is a subsector of a listed one.
    pub fn is_zero(&self, sector: Sector) -> bool
        ensures { result ≡ is_zero_sector self.now.zero sector.0 }
    {
        is_subsector_of_any(sector, self.zero.as_slice())
    }
}
