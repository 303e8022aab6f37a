//! The dependency of a cell and one further point.
#![tactic(auto)]

mod circuits;
mod making;

pub use cayley::Sign;
pub use circuits::Circuit;
pub use inner_normal::ScaledInverse;
pub use making::{circuit_from, circuit_of, circuit_with};
pub use reduced_rows::{CellFault, FromFault};

#[cfg(test)]
mod tests;
