//! The top call of every command: `system` by several workers, and all else on one thread.
#![tactic(auto)]

pub mod laws;
mod run;
mod system;
mod words;

pub use run::run_tool;
