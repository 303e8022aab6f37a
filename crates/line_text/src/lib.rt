//! Text as numbered lines of tokens, and numbers read and written.
//!
//! Each token is a slice of the source, so reading takes no memory.
#![tactic(auto)]

mod bytes;
mod line;
mod lines;
mod numbers;
mod tokens;

pub use line::Line;
pub use lines::Lines;
pub use numbers::{BadNumber, read_int, write_int, written_number_reads_back};
pub use tokens::Token;

#[cfg(test)]
mod tests;
