//! Family files.
#![tactic(auto)]

mod arrays;
mod caps;
mod document;
mod drill;
mod fault;
pub mod laws;
mod limits;
mod named;
mod need;
mod numbers;
mod polynomials;
mod read;
mod sectors;
mod selection;
mod symmetries;
mod table;
mod version;

pub use drill::drill_family;
pub use family::{
    Bounds, Budget, CANDIDATE_LIMIT, CAP_LIMIT, EXTRA_LIMIT, FAMILY_NAME_LIMIT, Family, Field,
    GREATEST_POWER, LEAST_POWER, Name, PAIR_LIMIT, Permutation, Probe, SECTOR_CAPS_LIMIT,
    SECTOR_LIMIT, SYMMETRY_LIMIT, SectorCaps, Selection, StrippedField, TARGET_LIMIT,
};
pub use fault::{FamilyFault, FileFault};
pub use limits::{
    DRILL_LIMIT, LEG_LIMIT, LOOP_LIMIT, MAX_FILE, NUMBER_LIMIT, VERSION_1_LEG_LIMIT,
    VERSION_1_VARIABLE_LIMIT,
};
pub use need::Need;
pub use read::read_family;
