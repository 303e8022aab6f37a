//! One parent for each cell: whether a cell keeps a child that it has at a wall.
#![tactic(auto)]

mod keep;

pub use keep::{is_least, keeps};

#[cfg(test)]
mod tests;
