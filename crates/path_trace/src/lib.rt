//! The path tree of a problem written down as a list: its cells in preorder, each with the inverse
//! of its differences, and the mixed cells to which it leads.
#![tactic(auto)]

pub mod laws;
mod trace;

pub use cayley::{Cell, FoundCell};
pub use trace::{Trace, TraceNode};
