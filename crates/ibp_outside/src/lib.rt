//! Sources and sinks of bytes, each with a count of its own faults: in memory, and over the
//! readers and writers of std. A gate that workers pass.
#![tactic(auto)]

mod gate;
mod memory;
mod standard;
mod traits;

pub use gate::{Gate, OpenGate};
pub use memory::{MemorySink, MemorySource};
pub use standard::{StdSink, StdSource};
pub use traits::{Failed, Sink, Source};
