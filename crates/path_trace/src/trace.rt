use cayley::{Cell, FoundCell};
use int_vectors::IntVec;

/// A cell of a path tree, with the inverse of the differences of its pairs.
#[derive(Drop)]
pub struct TraceNode {
    pub cell: Cell,
    /// The denominator of the inverse, at least 1.
    pub scale: i128,
    /// `scale` times the inverse: n rows of n numbers, row after row.
    pub inverse: IntVec,
}

/// A path tree, and the mixed cells to which it leads.
#[derive(Drop)]
pub struct Trace {
    /// The cells of the tree in preorder: each before those below it, and those below an elder
    /// sister before the younger one.
    pub nodes: Vec<TraceNode>,
    /// The mixed cells in cell order, each with its normal in lowest terms.
    pub found: Vec<FoundCell>,
}
