//! Division of module vectors by a list, and the S-vector of two of them.
#![tactic(auto)]

mod division;
pub mod laws;
mod s_vectors;

pub use division::{find_divisor, normal_form};
pub use s_vectors::s_vector;
