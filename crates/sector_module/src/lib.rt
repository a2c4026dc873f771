//! The module of the stripped fields of a sector: its reduced basis, and membership in it.
#![tactic(auto)]

mod basis;
mod factors;
mod generators;
pub mod laws;
mod membership;
mod order;
mod vectors;

pub use basis::sector_basis;
pub use factors::is_inside;
pub use generators::Generators;
pub use membership::is_member;
pub use order::{component_degrees, pair_order};
pub use vectors::{fields_of, vector_of_terms};
