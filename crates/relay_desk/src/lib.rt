//! A relay under a lock, with two ledgers that show its workers what became of it.
#![tactic(auto)]

mod desk;
pub mod laws;
mod limits;
mod locked;
mod seat;

pub use desk::{Desk, Opened};
pub use limits::WORKERS;
pub use locked::Locked;
pub use seat::Seat;
