// Which calls of an end in memory fail, and how many bytes the others move.
ghost use Rattle.std.specs.Prelude.{◌≡◌, ◌<◌, ◌≤◌, ◌↔◌, IsTrue, Contains};
ghost use Rattle.edge_io.specs.Plan.{next, new_plan};

use crate::ends::Failed;
use std::marker::Model;

#[derive(Drop)]
pub(crate) struct CallPlan {
    piece: usize,
    failing: Vec<u64>,
    calls: u64,
    faults: u64,
}

impl Model for CallPlan {
    ghost use Rattle.std.specs.Prelude.{◌<◌};
    ghost use Rattle.edge_io.specs.Plan.{Plan};

    ghost Value = { Plan };

    ghost view = { λ p. record { piece = p.piece; failing = p.failing.items; calls = p.calls; faults = p.faults } };

    ghost invariant = { λ p. 0 < p.piece };
}

impl CallPlan {
    // A plan of calls that move at most `piece` bytes, and fail where their number, from 1, stands in `failing`.
    pub(crate) fn new(piece: usize, failing: Vec<u64>) -> CallPlan
        requires { 0 < piece }
        ensures { result ≡ new_plan piece failing.items }
    {
        CallPlan {
            piece,
            failing,
            calls: 0,
            faults: 0,
        }
    }

    // The most bytes that a call moves.
    pub(crate) fn piece(&self) -> usize
        ensures value { result ≡ self.now.piece }
        ensures some { 0 < result }
    {
        self.piece
    }

    // Counts a call and tells whether it is one of those that fail.
    pub(crate) fn call(&mut self) -> bool
        ensures failing { IsTrue result ↔ Contains self.old.failing (next self.old.calls) }
        ensures counted { self.new ≡ record self.old { calls = next self.old.calls } }
    {
        self.calls = self.calls.saturating_add(1);
        self.failing.contains(&self.calls)
    }

    // Counts a fault.
    pub(crate) fn fault(&mut self) -> Failed
        ensures counted { self.new ≡ record self.old { faults = next self.old.faults } }
        ensures later { self.old.faults ≤ self.new.faults }
    {
        self.faults = self.faults.saturating_add(1);
        Failed
    }
}
