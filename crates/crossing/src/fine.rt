ghost use Rattle.std.specs.Prelude.{◌≡◌, List};
ghost use Rattle.lex_height.specs.declared.part.LexPart.{LexPart};

use lex_height::LexPart;
use std::marker::Model;

/// The greatest number of fine parts of a line.
pub const FINE_PARTS: usize = 33;

/// The infinitesimal part of a line: numbers by rank. An empty one takes no memory.
#[derive(Debug, Drop)]
pub struct Fine {
    parts: Vec<LexPart>,
}

impl Model for Fine {
    ghost Value = { List LexPart };

    ghost view = { λ a. a.parts.items };
}

impl Fine {
    /// The part of these numbers; takes no memory.
    pub fn from_vec(parts: Vec<LexPart>) -> Fine
        ensures { result ≡ parts.items }
    {
        Fine { parts }
    }

    /// The numbers as they were given; takes no memory.
    pub fn into_vec(self) -> Vec<LexPart>
        ensures { result.items ≡ self }
    {
        self.parts
    }

    /// The numbers in order.
    pub fn as_slice(&self) -> &[LexPart]
        ensures { result.now ≡ self.now }
    {
        &self.parts
    }
}
