//! Gröbner bases of submodules of free modules: the plain run with its budget, the reduced basis of the members
//! without a high component, and the laws of both.
#![tactic(auto)]

mod basis;
mod fault;
pub mod laws;
mod pairs;
mod reduce;
mod run;

pub use basis::Basis;
pub use fault::BasisFault;
pub use reduce::reduced_low;
pub use run::plain_run;
