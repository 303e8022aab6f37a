//! The pure machine of a search by several searchers: open branches, hands and reported cells, and
//! the events that move them.
#![tactic(auto)]

mod branches;
mod cores;
mod events;
mod searchers;

pub use branches::{Children2, CoreBranch, CoreOutcome, Hand};
pub use cores::{Core, MOST_SEARCHERS};
pub use events::{Event, StepFault};

#[cfg(test)]
mod tests;
