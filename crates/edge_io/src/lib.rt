//! The ends of the program: where bytes come from and where they go.
//!
//! A source and a sink count their faults, so that an answer of a fault can be held against the count. The ends
//! in memory tell their bytes and fail where they are told to; those over std's readers and writers are the
//! trusted edge, and tell nothing but their count.
#![tactic(auto)]

mod call_plan;
mod ends;
mod gates;
mod memory_sink;
mod memory_source;
mod reading;
mod std_sink;
mod std_source;
mod steady_source;
mod writing;

pub use ends::{Failed, Sink, Source};
pub use gates::{Gate, HoldGate, NoGate};
pub use memory_sink::MemorySink;
pub use memory_source::MemorySource;
pub use reading::{ReadStop, read_all};
pub use std_sink::StdSink;
pub use std_source::StdSource;
pub use steady_source::SteadySource;
pub use writing::write_all;

#[cfg(test)]
mod tests;
