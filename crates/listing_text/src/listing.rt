use cayley::{Cell, LiftFile, Normal};

/// A cell line of a listing, in the form that the line gives it. It isn't said that the cell is a
/// mixed cell.
#[derive(Drop)]
pub struct ListedCell {
    /// The number of the line in the listing, from 1.
    pub line: u64,
    /// A pair of positions of file points for each support.
    pub cell: Cell,
    /// As many numbers as the file's dimension, over a denominator of at least 1.
    pub normal: Normal,
}

/// A listing: a file, and the cell lines that stand behind it.
#[derive(Drop)]
pub struct Listing {
    pub file: LiftFile,
    pub cells: Vec<ListedCell>,
}

/// The cell lines of a text, with the numbers of the lines `cells K` and `end` round them.
#[derive(Drop)]
pub struct CellPart {
    /// The number of the line `cells K`, from 1.
    pub cells_line: u64,
    pub cells: Vec<ListedCell>,
    /// The number of the line `end`, from 1.
    pub end_line: u64,
}
