//! Elimination of sparse rows, with the weights of each reduction over the rows that were kept.
#![tactic(auto)]

mod columns;
mod dense_row;
mod echelon;
mod elimination;
mod inserted;
mod kept;
pub mod laws;
mod referring;
mod substitution;
mod table;
mod ways;

pub use echelon::{Echelon, Reduced};
pub use inserted::Inserted;
pub use referring::references;
