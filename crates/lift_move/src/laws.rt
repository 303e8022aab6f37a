//! Laws of segments: each is the clause of a function that does nothing.

ghost use Rattle.lift_move.specs.Laws.{StartLaw, EndLaw, CompleteLaw};

/// A cell is alive at the start of a segment exactly where it is a mixed cell of the first file.
pub fn start_law()
    ensures { StartLaw }
{}

/// A cell is alive at the end of a segment exactly where it is a mixed cell of the second file.
pub fn end_law()
    ensures { EndLaw }
{}

/// Along a generic segment each cell that is alive at time 1 has one that is alive at time 0 in its
/// chain of parents.
pub fn complete_law()
    ensures { CompleteLaw }
{}
