//! Powers of the homotopy parameter for each cell of a listing that was judged right.
#![tactic(auto)]

mod lines;
mod rows;
mod scaling;
mod sums;
mod writing;

pub use lines::rows_of;
pub use rows::{PowerRow, RowFault};
pub use writing::write_rows;

#[cfg(test)]
mod tests;
