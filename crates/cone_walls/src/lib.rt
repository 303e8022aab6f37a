//! The wall lines of a cell: one line over time for each further point, whose sign tells where the
//! point is above.
#![tactic(auto)]

mod endings;
mod fines;
mod fronts;
mod kept;
mod lines;
mod passing;
mod rests;
mod rooms;
mod slopes;
mod steps;
mod sums;
mod walls;

pub use crossing::{Fine, WallLine};
pub use endings::{End, end_of, ending_front, place_of, time_of};
pub use fines::refine_all;
pub use fronts::{Fall, Front};
pub use inner_normal::MovingNormal;
pub use kept::walls_from;
pub use lines::lines_of;
pub use reduced_rows::{CellFault, Reduced};
pub use steps::Steps;
pub use table_update::Kept;
pub use walls::{Walls, walls_of};

#[cfg(test)]
mod kept_tests;
#[cfg(test)]
mod tests;
