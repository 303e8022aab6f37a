//! Points, problems and cells of lifted supports.
#![tactic(auto)]

mod cells;
mod faults;
mod files;
mod found;
pub mod laws;
mod limits;
mod plain;
mod points;
mod positions;
mod problem_shapes;
mod problems;
mod ranks;
mod reaches;
mod rows;
mod second_heights;
mod shapes;
mod versions;

pub use cells::Cell;
pub use faults::ShapeFault;
pub use files::LiftFile;
pub use found::{Begin, FoundCell, Normal, Place, Sign, TieProof};
pub use limits::{COORDINATE, CORNER, DIMENSIONS, HEIGHT, POINTS};
pub use points::{FilePoint, Point, Support};
pub use problems::Problem;
pub use versions::Version;

#[cfg(test)]
mod tests;
