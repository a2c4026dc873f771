//! Folding: each integral of a system is replaced by the lowest of its images under the permutations of the
//! family, which are tested to be symmetries of it.
#![tactic(auto)]

mod blocks;
mod fault;
mod folding;
mod images;
pub mod laws;
mod rows;
mod symmetries;

pub use fault::FoldFault;
pub use folding::fold;
pub use symmetries::first_broken;
