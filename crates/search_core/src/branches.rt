ghost use Rattle.std.specs.Prelude.{◌≡◌, ◌↔◌, IsTrue};
ghost use Rattle.cayley.specs.Cells.{Cell as Pairs};
ghost use Rattle.search_core.specs.declared.branches.CoreBranch.{CoreBranch};
ghost use Rattle.search_core.specs.declared.branches.Hand.{Hand};
ghost use Rattle.search_core.specs.Events.{IsFirstChild, hand_of};

use cayley::{Begin, Cell};

/// A cell that is still to be expanded, and where it is said to begin.
#[derive(Drop)]
pub struct CoreBranch {
    pub cell: Cell,
    pub begin: Begin,
}

/// One or two children, in cell order.
#[derive(Drop)]
pub enum Children2 {
    One(CoreBranch),
    Two(CoreBranch, CoreBranch),
}

/// What a branch was expanded to: its children, its own cell, or nothing.
#[derive(Drop)]
pub enum CoreOutcome {
    Children(Children2),
    Cell(Cell),
    Nothing,
}

/// What a searcher has in its hand.
#[derive(Drop)]
pub enum Hand {
    Empty,
    /// A branch that is to be expanded.
    Branch(CoreBranch),
    /// A child that waits to be offered.
    One(CoreBranch),
    /// Two children that wait to be offered, the first one first.
    Two(CoreBranch, CoreBranch),
    /// A cell that is to be reported.
    Cell(Cell),
}

impl Hand {
    /// Whether there is nothing in the hand.
    pub fn is_empty(&self) -> bool
        ensures { IsTrue result ↔ (self.now ≡ Hand.Empty) }
    {
        matches!(self, Hand::Empty)
    }

    /// Whether a branch is to be expanded.
    pub fn has_branch(&self) -> bool
        ensures { IsTrue result ↔ ((b : CoreBranch) × (self.now ≡ Hand.Branch b)) }
    {
        matches!(self, Hand::Branch(_))
    }

    /// Whether a child waits to be offered.
    pub fn has_child(&self) -> bool
        ensures { IsTrue result ↔ ((b : CoreBranch) × (rest : Hand) × IsFirstChild self.now b rest) }
    {
        matches!(self, Hand::One(_) | Hand::Two(_, _))
    }

    /// Whether a cell is to be reported.
    pub fn has_cell(&self) -> bool
        ensures { IsTrue result ↔ ((c : Pairs) × (self.now ≡ Hand.Cell c)) }
    {
        matches!(self, Hand::Cell(_))
    }
}

/// The hand that an expansion leaves.
pub fn hand_of(outcome: CoreOutcome) -> Hand
    ensures { result ≡ hand_of outcome }
{
    match outcome {
        CoreOutcome::Children(Children2::One(child)) => Hand::One(child),
        CoreOutcome::Children(Children2::Two(first, second)) => Hand::Two(first, second),
        CoreOutcome::Cell(cell) => Hand::Cell(cell),
        CoreOutcome::Nothing => Hand::Empty,
    }
}
