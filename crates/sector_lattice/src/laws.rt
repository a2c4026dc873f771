//! Laws of the orders, of the subsector relation and of the limits, each the contract of a call that does nothing.
ghost use Rattle.std.specs.Prelude.{◌≡◌, ◌<◌, ◌≤◌, ◌-◌, ◌↔◌, IsTrue, ℕ, ℤ, pos, List, slice_index_or, bit_and};
ghost use Rattle.std.specs.Cmp.{IsTotalOrder};
ghost use Rattle.sector_lattice.specs.Sectors.{IsMember, is_positive, sector_of, IsSubsector, IsProperSubsector, sector_cmp, integral_cmp};
ghost use Rattle.sector_lattice.specs.Subsectors.{is_subsector, is_subsector_of_any, IsListedSubsector};
ghost use Rattle.sector_lattice.specs.declared.sector.Sector.{Sector};

use crate::integral::{LINES, POWER};
use crate::seeding::SEED_LIMIT;
use std::cmp::Ordering;

/// The sector order is total, and only equal sectors tie.
pub fn sector_order()
    ensures total { IsTotalOrder sector_cmp }
    ensures exact { (a b : ℕ) → sector_cmp a b ≡ Ordering.Equal → a ≡ b }
{}

/// The integral order is total, and only equal integrals tie.
pub fn integral_order()
    ensures total { IsTotalOrder integral_cmp }
    ensures exact { (a b : List ℤ) → integral_cmp a b ≡ Ordering.Equal → a ≡ b }
{}

/// A sector is a subsector of another where it shares all its digits with it, and a proper
/// subsector has the lesser number.
pub fn subsectors()
    ensures digits { (inner outer : ℕ) → IsSubsector inner outer ↔ (bit_and inner outer ≡ inner) }
    ensures lesser { (inner outer : ℕ) → IsProperSubsector inner outer → inner < outer }
    ensures transitive { (a b c : ℕ) → IsProperSubsector a b → IsProperSubsector b c → IsProperSubsector a c }
{}

/// What the tests for subsectors answer, by the members of the sectors.
pub fn subsector_tests()
    ensures one { (inner outer : ℕ) → IsTrue (is_subsector inner outer) ↔ IsSubsector inner outer }
    ensures listed { (sector : ℕ) (listed : List Sector) → IsTrue (is_subsector_of_any sector listed) ↔ IsListedSubsector sector listed }
{}

/// The members of an integral's sector are the places of its positive powers.
pub fn sector_members()
    ensures { (powers : List ℤ) (i : ℕ) → IsMember (sector_of powers) i ↔ ((1 ≤ i) × IsTrue (is_positive (slice_index_or powers (i - 1) (pos 0)))) }
{}

/// The limits: how many powers an integral has at most, how far a power is from zero at most, and the most dots and
/// the most rank of seeds.
pub fn limits()
    ensures lines { LINES ≡ 12 }
    ensures power { POWER ≡ pos 1200 }
    ensures seeds { SEED_LIMIT ≡ 20 }
{}
