//! The modules of sectors by module intersection: the tangent module is found once, and the module of each sector is its
//! meet with the fields that are divisible by the sector's variables.
#![tactic(auto)]

pub mod laws;
mod meet;
mod order;
mod tangent;
mod vectors;

pub use meet::meet_basis;
pub use tangent::{Tangent, tangent_of};
