//! Identities of fields at seeds, as rows of integrals.
#![tactic(auto)]

mod affine;
mod conditions;
pub mod laws;
mod moves;
mod relation;
mod template;
mod unstripping;

pub use relation::{IdentityFault, candidate, identity};
pub use template::Template;
