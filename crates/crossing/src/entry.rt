ghost use Rattle.std.specs.Prelude.{◌≡◌, ◌<◌, ◌≤◌, pos, All, HoldsAt, length, IsTrue, ◌↔◌, ℕ};
ghost use Rattle.std.specs.Ordering.{MatchOrdering};
ghost use Rattle.int_vectors.specs.Vectors.{IsPositive};
ghost use Rattle.crossing.specs.Lines.{FitsLine, constant};
ghost use Rattle.crossing.specs.Leading.{Goes, IsLed};
ghost use Rattle.crossing.specs.Entries.{IsEntry};
ghost use Rattle.crossing.specs.Found.{IsLow, IsOpen, RisesFirst, RisesWith, FallsFirst};

use crate::leaders::{Leaders, Way, leaders_of};
use crate::line::WallLine;
use crate::zeros::{zero_of, zero_parts};
use lex_height::{Lex, compare_parts};
use std::cmp::Ordering;
use wide_int::compare;

/// Where the time on which all lines are positive begins. Places count from 1.
#[derive(Clone, Copy, Debug, PartialEq, Eq)]
pub enum Entry {
    /// No line rises.
    Always,
    /// One line alone rises from zero at this time, after all others that rise.
    At {
        time: Lex,
        which: usize,
    },
    /// The first two of the lines that rise from zero at this time, after all others that rise.
    Tied {
        time: Lex,
        first: usize,
        second: usize,
    },
    /// No time makes every line positive.
    Dead,
}

/// Whether a line is positive at time 0.
pub fn is_positive(line: &WallLine) -> bool
    requires { FitsLine line.now }
    ensures { IsTrue result ↔ IsPositive (constant line.now) }
{
    if line.alpha != 0 {
        return line.alpha > 0;
    }
    match line.fine.as_slice() {
        [] => false,
        [part, ..] => part.num > 0,
    }
}

// Whether some line is level and isn't positive.
fn has_low(lines: &[WallLine]) -> bool
    requires { All FitsLine lines.now }
    ensures { IsTrue result ↔ ((k : ℕ) × (k < length lines.now) × HoldsAt IsLow lines.now k) }
{
    for line in lines {
        if line.beta == 0 && !is_positive(line) {
            return true;
        }
    }
    false
}

// The order of the zeros of a rising and a falling line.
fn compare_zeros(rise: &WallLine, fall: &WallLine) -> Ordering
    requires rise_fits { FitsLine rise.now }
    requires fall_fits { FitsLine fall.now }
    requires rises { Goes Way.Rising rise.now }
    requires falls { Goes Way.Falling fall.now }
    ensures { MatchOrdering result (RisesFirst rise.now fall.now) (RisesWith rise.now fall.now) (FallsFirst rise.now fall.now) }
{
    let steep = -fall.beta;
    match compare(-rise.alpha, rise.beta, fall.alpha, steep) {
        Ordering::Equal => compare_parts(
            zero_parts(Way::Rising, rise).as_slice(),
            rise.beta,
            zero_parts(Way::Falling, fall).as_slice(),
            steep,
        ),
        order => order,
    }
}

// Whether the zero of a rising line comes before that of a falling line.
fn comes_before(rise: &WallLine, fall: &WallLine) -> bool
    requires rise_fits { FitsLine rise.now }
    requires fall_fits { FitsLine fall.now }
    requires rises { Goes Way.Rising rise.now }
    requires falls { Goes Way.Falling fall.now }
    ensures { IsTrue result ↔ RisesFirst rise.now fall.now }
{
    compare_zeros(rise, fall).is_lt()
}

// Whether the last zero of a rising line comes before the first zero of a falling line.
fn is_open(lines: &[WallLine], rising: Leaders, falling: Leaders) -> bool
    requires fit { All FitsLine lines.now }
    requires rise { IsLed Way.Rising lines.now (length lines.now) rising }
    requires fall { IsLed Way.Falling lines.now (length lines.now) falling }
    ensures { IsTrue result ↔ IsOpen lines.now rising falling }
{
    let (Some(rise), Some(fall)) = (rising.first(), falling.first()) else {
        return true;
    };
    comes_before(&lines[rise], &lines[fall])
}

/// The entry of the lines: `Dead` exactly where no time makes every line positive; else `Always`
/// exactly where no line rises; else the greatest zero of a rising line.
pub fn entry_of(lines: &[WallLine]) -> Entry
    requires { All FitsLine lines.now }
    ensures rule { IsEntry lines.now result }
    ensures only { (other : Entry) → IsEntry lines.now other → other ≡ result }
{
    let rising = leaders_of(Way::Rising, lines);
    let falling = leaders_of(Way::Falling, lines);
    if has_low(lines) || !is_open(lines, rising, falling) {
        return Entry::Dead;
    }
    match rising {
        Leaders::None => Entry::Always,
        Leaders::One(index) => Entry::At {
            time: zero_of(Way::Rising, &lines[index]),
            which: index + 1,
        },
        Leaders::Two(first, second) => Entry::Tied {
            time: zero_of(Way::Rising, &lines[first]),
            first: first + 1,
            second: second + 1,
        },
    }
}
