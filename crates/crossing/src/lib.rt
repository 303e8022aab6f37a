//! Lines over time, and the two ends of the open interval on which all of them are positive.
#![tactic(auto)]

mod ends;
mod entry;
mod exit;
mod fine;
pub mod laws;
mod leaders;
mod line;
mod ties;
mod zeros;

pub use entry::{Entry, entry_of};
pub use exit::{Exit, exit_of};
pub use fine::{FINE_PARTS, Fine};
pub use line::WallLine;
pub use ties::{Tie, tie_of};

#[cfg(test)]
mod tests;
