ghost use Rattle.std.specs.Prelude.{◌≡◌};
ghost use Rattle.mixedcells.specs.Outcomes.{status_of};

use cayley::{Cell, TieProof};

/// How a run ended.
#[derive(Drop)]
pub enum Outcome {
    /// The command did what it is for.
    Ok,
    /// `check`, `powers` and `move`: this line of the listing is the first that doesn't pass, for this reason;
    /// `powers`, reason 6: all pass, and this is the first with a further point of the sum 0. `verify`: the same
    /// of a line of the log, with reasons from 11 on.
    No { line: u64, reason: u8 },
    /// The words mean no command; nothing was read.
    Usage,
    /// This line of the input is the first faulty one, and what is wrong with it.
    Format { line: u64, kind: u8 },
    /// Two further points of a cell are level at once, or one always is. `list`, `sum` and `trace`: where the
    /// cell, which is of the path tree, begins or ends. `generic`: the tie that is named for the least
    /// cell that has one. `move`: where the cell, which comes of a listed one, ends, after time 0 and
    /// at most at time 1.
    Tie(TieProof),
    /// The working of this cell has a number that doesn't fit. `plain`: the least choice of pairs with
    /// such a working. `generic`: the least cell that has a tie or doesn't fit. `list`, `sum` and
    /// `trace`: a cell of the path tree. `move`: a cell that comes of a listed one, in the segment or at its end.
    OverflowCell { cell: Cell },
    /// `check`, `powers`, `move` and `verify`: judging this line needs a number that doesn't fit.
    OverflowLine { line: u64 },
    /// The source failed; nothing was written.
    ReadFault,
    /// The sink failed; a prefix of what was to be written was.
    WriteFault,
    /// There was no memory; nothing was written.
    OutOfMemory,
    /// The input is longer than 16,777,216 bytes.
    TooLong,
    /// `plain` and `generic`: there are more than 1,000,000 choices of pairs, as many as this in the first supports that exceed it.
    TooMany { choices: u64 },
    /// `list` and `sum` by two or more searchers, which one alone can't do; nothing was read or written.
    NeedsTeam,
}

impl Outcome {
    /// The exit status of the program.
    pub fn status(&self) -> u8
        ensures { result ≡ status_of self.now }
    {
        match self {
            Outcome::Ok => 0,
            Outcome::No { .. } => 1,
            Outcome::Usage => 2,
            Outcome::Format { .. } => 3,
            Outcome::Tie(_) => 4,
            Outcome::OverflowCell { .. } => 5,
            Outcome::OverflowLine { .. } => 5,
            Outcome::ReadFault => 6,
            Outcome::WriteFault => 7,
            Outcome::OutOfMemory => 8,
            Outcome::TooLong => 9,
            Outcome::TooMany { .. } => 10,
            Outcome::NeedsTeam => 11,
        }
    }
}
