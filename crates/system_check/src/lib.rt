//! Whether a written text is right for a family.
#![tactic(auto)]

mod blocks;
mod checking;
mod fault;
pub mod laws;
mod limits;
mod reductions;
mod relations;

pub use checking::check;
pub use fault::{CheckAnswer, CheckFault};
pub use limits::TEXT_LIMIT;
