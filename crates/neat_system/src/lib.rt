//! The system of a family.
#![tactic(auto)]

mod alone;
mod closing;
mod declared;
mod fault;
mod faults;
mod gathering;
mod labels;
pub mod laws;
mod plain;
mod relations;

pub use alone::{opened, work_all};
pub use closing::{close, close_wide};
pub use fault::SystemFault;
pub use plain::run_plain;
