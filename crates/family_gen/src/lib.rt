//! Problem files made from numbers: the cyclic roots systems, scattered points, and lifts of given supports.
#![tactic(auto)]

mod cycles;
mod generator;
mod lifting;
mod scattering;

pub use cycles::cyclic;
pub use lifting::lift;
pub use scattering::scatter;

#[cfg(test)]
mod tests;
