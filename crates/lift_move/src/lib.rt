//! From the mixed cells of one lift to those of another, along the straight path between the two.
#![tactic(auto)]

mod laws;
mod moving;
mod reading;
mod second;

pub use laws::{complete_law, end_law, start_law};
pub use moving::move_cells;
pub use reading::{MoveFile, read_move, read_move_is_formed};
pub use second::second_file;

#[cfg(test)]
mod tests;
