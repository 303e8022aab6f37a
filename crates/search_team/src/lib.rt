//! Several searchers over one pool of branches.
#![tactic(auto)]

mod ending;
mod jobs;
mod opening;
mod paths;
mod progress;
mod steps;
mod stopping;
mod team;
mod turning;
mod walkers;

pub use paths::search_together;
pub use stopping::{Part, TeamStopped};
pub use team::search_shared;

#[cfg(test)]
mod tests;
