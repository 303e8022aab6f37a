//! What is asked of a cell: one elimination, its normal at all times, and the inverse of its
//! differences with the numbers of its further points.
#![tactic(auto)]

mod coefficients;
mod eliminated;
mod further;
mod inverses;
mod laws;
mod lowest;
mod moving;
mod normals;

pub use cayley::Normal;
pub use eliminated::Eliminated;
pub use further::{coefficients_at, coefficients_by, coefficients_fit_at};
pub use inverses::ScaledInverse;
pub use laws::least_denominator;
pub use lowest::{in_lowest_terms, target_normal};
pub use moving::MovingNormal;
pub use normals::{normal_from, normal_of};
pub use reduced_rows::CellFault;

#[cfg(test)]
mod tests;
