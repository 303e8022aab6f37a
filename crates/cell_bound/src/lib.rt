//! Bounds on the whole working of a cell that are known before it.
#![tactic(auto)]

mod laws;
mod ranges;

pub use laws::{cell_fits, cells_fit, quiet, quiet_own};
pub use ranges::every_cell_fits;

#[cfg(test)]
mod tests;
