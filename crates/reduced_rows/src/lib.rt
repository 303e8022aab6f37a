//! Exact elimination of rows of whole numbers, in place.
#![tactic(auto)]

mod denominators;
mod elimination;
mod faults;
mod kernels;
mod laws;
mod reduced;
pub mod stepping;

pub use elimination::reduce;
pub use faults::{CellFault, FromFault, ReduceFault};
pub use kernels::dependent;
pub use laws::{column_solves, inverse_columns, least_den, span_carries};
pub use reduced::{Reduced, copy_rows};

#[cfg(test)]
mod tests;
