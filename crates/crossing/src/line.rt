use crate::fine::Fine;

/// The line of a further point of a cell, whose value at time t is `alpha + beta t` with the parts
/// of `fine` added. `support` and `position` name the point, both from 1. All numbers fit, and
/// `fine` has at most [`FINE_PARTS`](crate::FINE_PARTS) parts, in rising rank from 1, none zero.
#[derive(Debug, Drop)]
pub struct WallLine {
    pub support: u32,
    pub position: u32,
    pub alpha: i128,
    pub beta: i128,
    pub fine: Fine,
}
