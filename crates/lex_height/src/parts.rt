ghost use Rattle.std.specs.Prelude.{◌≡◌, ◌<◌, ◌≤◌, List, [], ◌∷◌, ◌++◌, length, take};
ghost use Rattle.std.proofs.Common.{ap₂, sym};
ghost use Rattle.lex_height.specs.declared.part.LexPart.{LexPart};
ghost use Rattle.lex_height.specs.Room.{filled, IsFilled};

use crate::part::{LexPart, PARTS};
use std::marker::Model;

/// A list of at most 34 parts that takes no memory.
#[derive(Clone, Copy, Debug, PartialEq, Eq)]
pub struct Parts {
    all: [LexPart; PARTS],
    count: usize,
}

impl Model for Parts {
    ghost Value = { List LexPart };

    ghost view = { λ a. take a.count a.all };

    ghost invariant = { λ a. IsFilled a.count a.all };

    ghost inverse = { λ parts. record { all = filled parts; count = length parts } };

    ghost inverse_ok = { λ a h. ap₂ (λ x n. record { all = x; count = n }) (sym h.rest) h.count };
}

impl Parts {
    /// No part.
    pub fn new() -> Parts
        ensures { result ≡ [] }
    {
        Parts {
            all: [LexPart { rank: 0, num: 0 }; PARTS],
            count: 0,
        }
    }

    /// Puts a part behind the others.
    pub fn push(&mut self, part: LexPart)
        requires { length self.old < PARTS }
        ensures { self.new ≡ self.old ++ part ∷ [] }
    {
        self.all[self.count] = part;
        self.count += 1;
    }

    /// The parts in order.
    pub fn as_slice(&self) -> &[LexPart]
        ensures parts { result.now ≡ self.now }
        ensures room { length self.now ≤ PARTS }
    {
        &self.all[..self.count]
    }
}
