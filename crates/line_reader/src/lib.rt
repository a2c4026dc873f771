//! Lines of a text and what stands in front of them, and the laws of readers that go from line to line.
#![tactic(auto)]

mod entries;
mod fault;
mod lines;
mod numbers;
mod reading;

pub use entries::{Entry, entries_at};
pub use fault::ReadSystemFault;
pub use lines::Lines;
pub use numbers::{after, power_at, residue_at, whole_at};
pub use reading::{LineKind, Section, next_line, next_word, read_line, sections};
