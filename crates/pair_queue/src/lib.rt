//! Pairs of elements of a run, in the order in which the run takes them.
#![tactic(auto)]

mod order;
mod queue;

pub use order::PairOrder;
pub use queue::{Pair, PairQueue};
