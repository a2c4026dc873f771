//! Monomials, module terms, and their orders with laws.
#![tactic(auto)]

pub mod laws;
mod limits;
mod monomial;
mod order;
mod term;
mod words;

pub use limits::{FIRST_HIGH, MONO_DEGREE, RUN_DEGREE, VARIABLES};
pub use monomial::{DegRevLex, Monomial, MonomialOrder};
pub use order::{HighBlock, OverPosition, TermOrder, ZeroDominates};
pub use term::Term;
