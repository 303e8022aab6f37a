use crate::cells::Cell;
use int_vectors::IntVec;
use lex_height::Lex;

/// The normal of a cell at one time: the vector `v` over `den`, which is at least 1.
#[derive(Debug, Drop)]
pub struct Normal {
    /// As many numbers as the problem's dimension.
    pub v: IntVec,
    pub den: i128,
}

/// A mixed cell with its normal in lowest terms.
#[derive(Drop)]
pub struct FoundCell {
    pub cell: Cell,
    pub normal: Normal,
}

/// A point of a problem by its support and its position, which count from 1.
#[derive(Clone, Copy, Debug, PartialEq, Eq)]
pub struct Place {
    pub support: u32,
    pub position: u32,
}

/// A tie: at this time two further points of the cell are level, or one that is level at all times.
#[derive(Drop)]
pub struct TieProof {
    pub cell: Cell,
    pub time: Lex,
    pub first: Place,
    /// `None` where `first` is level at all times.
    pub second: Option<Place>,
}

/// The sign of a number.
#[derive(Clone, Copy, Debug, PartialEq, Eq)]
pub enum Sign {
    Minus,
    Zero,
    Plus,
}

/// When a cell begins to be alive: it is alive at all early times, or begins at a time.
#[derive(Clone, Copy, Debug, PartialEq, Eq)]
pub enum Begin {
    Start,
    At(Lex),
}
