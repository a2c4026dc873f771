//! Laws of the definitions.

ghost use Rattle.std.specs.Prelude.{◌≡◌, ◌≢◌, ◌↔◌, ℕ, ℤ, pos, neg_ℤ, List, Contains, IsTrue};
ghost use Rattle.std.specs.List.{IsDistinct};
ghost use Rattle.ibp_algebra.specs.Identity.{in_sector_of};
ghost use Rattle.sector_lattice.specs.Sectors.{sector_of};
ghost use Rattle.family.specs.declared.limits.TheConstants.{FAMILY_NAME_LIMIT, SECTOR_LIMIT, TARGET_LIMIT, LEAST_POWER, GREATEST_POWER, SECTOR_CAPS_LIMIT, SYMMETRY_LIMIT, CAP_LIMIT, EXTRA_LIMIT, PAIR_LIMIT, CANDIDATE_LIMIT};
ghost use Rattle.family.specs.declared.parts.Bounds.{Bounds};
ghost use Rattle.family.specs.declared.parts.SectorCaps.{SectorCaps};
ghost use Rattle.family.specs.Caps.{have_one_sector, caps_of};
ghost use Rattle.family.specs.Conditions.{in_sector};
ghost use Rattle.family.specs.FamilyView.{family_view};

use crate::family::Family;

/// The places of a sector are those of the positive powers of each of its integrals.
pub fn places_are_positive_powers()
    ensures { (powers : List ℤ) (i : ℕ) → in_sector (sector_of powers) i ≡ in_sector_of powers i }
{}

/// Where a sector has an entry its caps are those of the entry, and where it has none the general ones.
pub fn caps_are_those_of_the_entry()
    ensures listed { (bounds : Bounds) (caps : List SectorCaps) (entry : SectorCaps) → IsDistinct have_one_sector caps
        → Contains caps entry → caps_of bounds caps entry.sector.0 ≡ (entry.dots, entry.rank) }
    ensures unlisted { (bounds : Bounds) (caps : List SectorCaps) (sector : ℕ)
        → ((entry : SectorCaps) → Contains caps entry → entry.sector.0 ≢ sector) → caps_of bounds caps sector ≡ (bounds.dots_cap, bounds.rank_cap) }
{}

/// What `==` answers for two families: whether they are the same in each part.
pub fn are_equal(left: &Family, right: &Family) -> bool
    ensures { IsTrue result ↔ (family_view left.now ≡ family_view right.now) }
{
    left == right
}

/// The limits of a family, as numbers.
pub fn limits_of_families()
    ensures name { FAMILY_NAME_LIMIT ≡ 64 }
    ensures zero_sectors { SECTOR_LIMIT ≡ 512 }
    ensures targets { TARGET_LIMIT ≡ 1000 }
    ensures least_power { LEAST_POWER ≡ neg_ℤ (pos 30) }
    ensures greatest_power { GREATEST_POWER ≡ pos 30 }
    ensures sector_caps { SECTOR_CAPS_LIMIT ≡ 4096 }
    ensures symmetries { SYMMETRY_LIMIT ≡ 64 }
    ensures cap { CAP_LIMIT ≡ 20 }
    ensures extra { EXTRA_LIMIT ≡ 5 }
    ensures pairs { PAIR_LIMIT ≡ 10000000 }
    ensures candidates { CANDIDATE_LIMIT ≡ 20000 }
{}
