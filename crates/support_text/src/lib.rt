//! Problem files: what their lines mean, the first fault, and the text of a file.
#![tactic(auto)]

mod counts;
mod endings;
mod fault;
mod gathered;
mod lines;
mod opening;
mod points;
mod reading;
mod writing;

pub use endings::{end, end_line};
pub use fault::{FormatFault, Kind, TextFault, fault_at};
pub use lines::{next_line, nothing_more, number, word};
pub use reading::{no_line, read_problem, read_problem_lines};
pub use writing::{append_problem, write_bytes, write_count, write_problem};

#[cfg(test)]
mod tests;
