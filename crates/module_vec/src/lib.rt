//! Vectors of a free module over the polynomials, as sorted lists of terms under any order of terms.
#![tactic(auto)]

mod fault;
pub mod laws;
mod vector;

pub use fault::VectorFault;
pub use vector::{Vector, times};
