//! The work on one sector: its basis, its candidates, and the integrals that it hands down.
#![tactic(auto)]

mod ahead;
mod bounds;
mod candidates;
mod found;
pub mod laws;
mod outcome;
mod plan;
mod sector_result;
mod tails;
mod working;

pub use ahead::SectorBasis;
pub use outcome::Outcome;
pub use plan::Plan;
pub use sector_result::SectorResult;
pub use working::{work, work_from, work_wide};
