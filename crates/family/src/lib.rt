//! Families of Feynman integrals, with what is asked of them and the limits that they keep.
#![tactic(auto)]

mod caps;
mod copy;
mod family;
pub mod laws;
mod limits;
mod name;
mod parts;
mod permutation;
mod zero;

pub use family::Family;
pub use limits::{
    CANDIDATE_LIMIT, CAP_LIMIT, EXTRA_LIMIT, FAMILY_NAME_LIMIT, GREATEST_POWER, LEAST_POWER,
    PAIR_LIMIT, SECTOR_CAPS_LIMIT, SECTOR_LIMIT, SYMMETRY_LIMIT, TARGET_LIMIT,
};
pub use name::Name;
pub use parts::{Bounds, Budget, Field, Probe, SectorCaps, Selection, StrippedField};
pub use permutation::{Permutation, are_closed, copy_permutations};
