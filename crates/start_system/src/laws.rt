//! The laws of paths: each is the clause of a function that does nothing.

ghost use Rattle.start_system.specs.Laws.{StartedLaw, PathLaw};

/// The search of a started problem begins with one cell, the only one that is alive at all early
/// times; where there is no tie it finds every mixed cell of the target; in version 2 there is none.
pub fn started_law()
    ensures { StartedLaw }
{}

/// The path of a file is such a problem, at rest, over the points of the file.
pub fn path_law()
    ensures { PathLaw }
{}
