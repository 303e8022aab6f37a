//! Flips at a wall: the cells that a cell becomes where one further point is level, and the cells
//! that become the same.
#![tactic(auto)]

mod few;
mod flips;
mod signs;

pub use few::Few;
pub use flips::{predecessors, successors};
pub use signs::Signs;

#[cfg(test)]
mod tests;
