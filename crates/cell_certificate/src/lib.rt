//! The exact checker of listings.
#![tactic(auto)]

mod checker;
mod judge;
mod judgement;
mod sides;
mod ties;
mod verdict;

pub use checker::check;
pub use verdict::{CheckFault, Verdict};

#[cfg(test)]
mod tests;
