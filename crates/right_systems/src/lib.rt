//! The systems that are written are right.
#![tactic(auto)]

pub mod laws;
