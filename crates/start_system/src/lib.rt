//! The path of a file: its file points, then corners whose heights rise with the time, and the
//! cell from which the search begins.
#![tactic(auto)]

mod beginning;
mod checks;
mod corners;
pub mod laws;
mod lists;
mod paths;
mod starts;
mod vectors;

pub use beginning::start_cell;
pub use checks::is_started;
pub use paths::with_corners;
pub use starts::default_starts;

#[cfg(test)]
mod tests;
