//! Targets as rows, and their reductions over the numbers of the relations that are written.
#![tactic(auto)]

mod declared;
mod reductions;

pub use declared::{declared_row, declared_rows};
pub use reductions::reductions_of;
