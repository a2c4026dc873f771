//! Cuts: a family with some variables set to zero, and the lift of its system back to all variables.
#![tactic(auto)]

mod cutting;
mod fault;
mod lifting;
mod places;
mod polynomials;

pub use cutting::cut;
pub use fault::{CutAnswer, CutFault};
pub use lifting::{lift, lift_sector};
