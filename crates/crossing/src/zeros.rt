ghost use Rattle.std.specs.Prelude.{◌≡◌, map};
ghost use Rattle.wide_int.specs.Whole.{FitsWhole};
ghost use Rattle.lex_height.specs.Values as lex;
ghost use Rattle.crossing.specs.Lines.{FitsLine, IsZeroAt};
ghost use Rattle.crossing.specs.Leading.{Goes};
ghost use Rattle.crossing.specs.Zeros.{turned_part, first_part, zero_numbers};

use crate::leaders::{Way, steepness};
use crate::line::WallLine;
use lex_height::{Lex, LexPart, Parts};

// The part as it counts for the zero of a line of this way: its negative where the line rises.
fn turned(way: Way, rank: u32, num: i128) -> LexPart
    requires { FitsWhole num }
    ensures { result ≡ turned_part way (record { rank = rank; num = num }) }
{
    let num = match way {
        Way::Falling => num,
        Way::Rising => -num,
    };
    LexPart { rank, num }
}

// The part of rank 0, where it isn't zero.
fn first_parts(way: Way, alpha: i128) -> Parts
    requires { FitsWhole alpha }
    ensures { result ≡ map (turned_part way) (first_part alpha) }
{
    let mut parts = Parts::new();
    if alpha != 0 {
        parts.push(turned(way, 0, alpha));
    }
    parts
}

/// The zero of a line of this way, by its parts over the line's steepness.
pub fn zero_parts(way: Way, line: &WallLine) -> Parts
    requires { FitsLine line.now }
    ensures { result ≡ zero_numbers way line.now }
{
    let mut parts = first_parts(way, line.alpha);
    for part in line.fine.as_slice() {
        parts.push(turned(way, part.rank, part.num));
    }
    parts
}

/// The time at which a line of this way is zero.
pub fn zero_of(way: Way, line: &WallLine) -> Lex
    requires fits { FitsLine line.now }
    requires goes { Goes way line.now }
    ensures zero { IsZeroAt line.now result }
    ensures lowest { lex.IsLowest result }
{
    Lex::new(zero_parts(way, line).as_slice(), steepness(way, line)).unwrap()
}
