ghost use Rattle.std.specs.Prelude.{◌≡◌, ◌≢◌, ◌++◌, ◌∷◌, [], List, OnOk, OnErr};
ghost use Rattle.cayley.specs.Cells.{Cell as Pairs};
ghost use Rattle.search_core.specs.declared.branches.CoreBranch.{CoreBranch};
ghost use Rattle.search_core.specs.declared.branches.Hand.{Hand};
ghost use Rattle.search_core.specs.States.{idle};
ghost use Rattle.search_core.specs.Events.{IsFirstChild, hand_of};

use crate::branches::{CoreBranch, CoreOutcome, Hand, hand_of};
use cayley::Cell;
use std::alloc::Global;
use std::marker::Model;
use std::mem;
use wide_int::OutOfMemory;

/// What one searcher has.
#[derive(Drop)]
pub struct Searcher {
    /// The oldest branch first.
    pub deque: Vec<CoreBranch>,
    /// What it has in its hand.
    pub hand: Hand,
    /// The cells that it reported, in order.
    pub outs: Vec<Cell>,
}

impl Model for Searcher {
    ghost use Rattle.search_core.specs.States.{Searcher};

    ghost Value = { Searcher };

    ghost view = { λ x. record { deque = x.deque.items; hand = x.hand; outs = x.outs.items } };
}

impl Searcher {
    /// A searcher that has nothing.
    pub fn idle(alloc: Global) -> Searcher
        ensures { result ≡ idle }
    {
        Searcher {
            deque: Vec::new(alloc),
            hand: Hand::Empty,
            outs: Vec::new(alloc),
        }
    }

    /// The branch goes to the back of the deque; it is lost where there is no memory.
    pub fn open(&mut self, branch: CoreBranch) -> Result<(), OutOfMemory>
        ensures { OnOk result (self.new ≡ record self.old { deque = self.old.deque ++ branch ∷ [] }) }
    {
        match self.deque.push(branch) {
            Ok(()) => Ok(()),
            Err(_refused) => Err(OutOfMemory),
        }
    }

    /// The newest branch goes to the hand.
    pub fn claim(&mut self)
        requires { self.old.deque ≢ [] }
        ensures { (rest : List CoreBranch) × (b : CoreBranch) × (self.old.deque ≡ rest ++ b ∷ [])
            × (self.new ≡ record self.old { deque = rest; hand = Hand.Branch b }) }
    {
        if let Some(branch) = self.deque.pop() {
            self.hand = Hand::Branch(branch);
        }
    }

    /// The oldest branch is given away.
    pub fn give_oldest(&mut self) -> CoreBranch
        requires { self.old.deque ≢ [] }
        ensures { (rest : List CoreBranch) × (self.old.deque ≡ result ∷ rest) × (self.new ≡ record self.old { deque = rest }) }
    {
        self.deque.remove(0)
    }

    /// A branch that another searcher gave away goes to the hand.
    pub fn receive(&mut self, branch: CoreBranch)
        ensures { self.new ≡ record self.old { hand = Hand.Branch branch } }
    {
        self.hand = Hand::Branch(branch);
    }

    /// The branch in the hand gives way to what it was expanded to.
    pub fn expand(&mut self, outcome: CoreOutcome)
        ensures { self.new ≡ record self.old { hand = hand_of outcome } }
    {
        self.hand = hand_of(outcome);
    }

    /// The first child that waits goes to the back of the deque; where there is no memory, nothing changes.
    pub fn offer(&mut self) -> Result<(), OutOfMemory>
        requires { (b : CoreBranch) × (rest : Hand) × IsFirstChild self.old.hand b rest }
        ensures ok { OnOk result ((b : CoreBranch) × (rest : Hand) × IsFirstChild self.old.hand b rest
            × (self.new ≡ record self.old { deque = self.old.deque ++ b ∷ []; hand = rest })) }
        ensures err { OnErr result (self.new ≡ self.old) }
    {
        if self.deque.reserve(1).is_err() {
            return Err(OutOfMemory);
        }
        match mem::replace(&mut self.hand, Hand::Empty) {
            Hand::One(child) => self.deque.push_reserved(child),
            Hand::Two(first, second) => {
                self.deque.push_reserved(first);
                self.hand = Hand::One(second);
            }
            _ => unreachable!(),
        }
        Ok(())
    }

    /// The cell in the hand is reported; where there is no memory, nothing changes.
    pub fn report(&mut self) -> Result<(), OutOfMemory>
        requires { (c : Pairs) × (self.old.hand ≡ Hand.Cell c) }
        ensures ok { OnOk result ((c : Pairs) × (self.old.hand ≡ Hand.Cell c)
            × (self.new ≡ record self.old { hand = Hand.Empty; outs = self.old.outs ++ c ∷ [] })) }
        ensures err { OnErr result (self.new ≡ self.old) }
    {
        if self.outs.reserve(1).is_err() {
            return Err(OutOfMemory);
        }
        match mem::replace(&mut self.hand, Hand::Empty) {
            Hand::Cell(cell) => self.outs.push_reserved(cell),
            _ => unreachable!(),
        }
        Ok(())
    }
}
