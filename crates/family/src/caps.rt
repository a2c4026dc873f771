//! The caps of a sector.

ghost use Rattle.std.specs.Prelude.{◌≡◌, ◌≤◌};
ghost use Rattle.std.specs.Option.{option_map};
ghost use Rattle.family.specs.declared.limits.TheConstants.{CAP_LIMIT};
ghost use Rattle.family.specs.Caps.{entry_of, caps_of};

use crate::family::Family;
use crate::parts::SectorCaps;
use sector_lattice::Sector;

fn entry_of(caps: &[SectorCaps], sector: Sector) -> Option<&SectorCaps>
    ensures { option_map (λ entry. entry.now) result ≡ entry_of caps.now sector.0 }
{
    caps.iter().find(|entry| entry.sector == sector)
}

impl Family {
    /// The caps of dots and of rank of the sector's seeds: those of its own entry, and the general ones where
    /// it has none.
    pub fn caps_of(&self, sector: Sector) -> (u32, u32)
        ensures value { result ≡ caps_of self.now.bounds self.now.caps sector.0 }
        ensures dots { result.0 ≤ CAP_LIMIT }
        ensures rank { result.1 ≤ CAP_LIMIT }
    {
        match entry_of(self.caps.as_slice(), sector) {
            Some(entry) => (entry.dots, entry.rank),
            None => (self.bounds.dots_cap, self.bounds.rank_cap),
        }
    }
}
