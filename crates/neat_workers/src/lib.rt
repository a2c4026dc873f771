//! The system of a family, worked out by several workers at a desk.
#![tactic(auto)]

mod bases;
mod entry;
mod finishing;
mod portions;
mod seats;
mod shelf;
mod worker;
mod workers;

pub use finishing::finish_alone;
pub use workers::{left_by_workers, run_workers};
