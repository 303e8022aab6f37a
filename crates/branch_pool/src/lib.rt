//! A pool of open branches, shared by up to 64 searchers.
#![tactic(auto)]

mod pool;
mod rule;
mod shared;
#[cfg(test)]
mod tests;

pub use pool::{Pool, Seat, Tally, Unclosed};
pub use rule::SEATS;
