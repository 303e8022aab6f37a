//! The path tree of a problem, cell by cell in preorder, each with the inverse of its differences.
#![tactic(auto)]

mod columns;
mod nodes;
mod rows;
mod tracing;

pub use path_trace::{Trace, TraceNode};
pub use searcher::HaltCause;
pub use tracing::trace_alone;

#[cfg(test)]
mod tests;
