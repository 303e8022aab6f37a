//! Logs: a file with the nodes of its path tree and its mixed cells, written and read.
#![tactic(auto)]

mod log;
mod nodes;
mod reading;
mod writing;

pub use log::{LogNode, PathLog};
pub use reading::{read_log, read_log_is_formed, written_log_reads_back};
pub use writing::write_log;

#[cfg(test)]
mod tests;
