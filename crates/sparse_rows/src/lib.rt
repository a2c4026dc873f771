//! Rows: sparse sums of integrals with residues as coefficients.
#![tactic(auto)]

mod row;

pub use row::Row;
