ghost use Rattle.std.specs.Prelude.{◌≡◌};

use cayley::{Begin, Cell};

/// A cell that is still to be expanded, and where it is said to begin. It can't be copied: whoever
/// has it answers for the cells behind it.
#[derive(Drop)]
pub struct Branch {
    cell: Cell,
    begin: Begin,
}

impl Branch {
    /// A branch of this cell and begin, taken as told: nothing is tested.
    pub fn new(cell: Cell, begin: Begin) -> Branch
        ensures { result ≡ record { cell = cell; begin = begin } }
    {
        Branch { cell, begin }
    }

    /// The cell.
    pub fn cell(&self) -> &Cell
        ensures { result.now ≡ self.now.cell }
    {
        &self.cell
    }

    /// Where the cell is said to begin.
    pub fn begin(&self) -> &Begin
        ensures { result.now ≡ self.now.begin }
    {
        &self.begin
    }
}
