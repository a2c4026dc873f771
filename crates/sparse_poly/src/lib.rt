//! Sparse polynomials over the residues, in the variables of `Monomial`.
#![tactic(auto)]

pub mod laws;
mod limits;
mod poly;
mod terms;

pub use limits::{DEGREE_LIMIT, TERM_LIMIT};
pub use poly::{Poly, PolyFault, copy_polynomials};
