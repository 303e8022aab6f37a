ghost use Rattle.std.specs.Prelude.{◌≡◌, ◌<◌, ◌+◌, ◌↔◌, ℕ, Some, All, HoldsAt, IsTrue, length, MatchOption};
ghost use Rattle.crossing.specs.Lines.{FitsLine, IsFlat};
ghost use Rattle.crossing.specs.declared.leaders.Way.TheVariants.{Falling, Rising};
ghost use Rattle.crossing.specs.Places.{IsNowhere};
ghost use Rattle.crossing.specs.Leading.{nth};
ghost use Rattle.crossing.specs.Ends.{IsEnd, IsSunk, AreCrossed};
ghost use Rattle.crossing.specs.Ties.{HasNoTie, IsTie};

use crate::ends::{Ends, Pair, pair_of};
use crate::entry::is_positive;
use crate::exit::{first_flat, is_flat};
use crate::line::WallLine;
use lex_height::Lex;

/// A tie of lines: at this time no line is negative, and two are zero or one is zero at all times.
/// Places count from 1.
#[derive(Clone, Copy, Debug, PartialEq, Eq)]
pub struct Tie {
    pub time: Lex,
    pub first: usize,
    /// `None` where the first line is zero at all times.
    pub second: Option<usize>,
}

// Whether a line is negative at all times.
fn is_sunk(line: &WallLine) -> bool
    requires { FitsLine line.now }
    ensures { IsTrue result ↔ IsSunk line.now }
{
    line.beta == 0 && !is_positive(line) && !is_flat(line)
}

// Whether some line is negative at all times.
fn has_sunk(lines: &[WallLine]) -> bool
    requires { All FitsLine lines.now }
    ensures { IsTrue result ↔ ((k : ℕ) × (k < length lines.now) × HoldsAt IsSunk lines.now k) }
{
    for line in lines {
        if is_sunk(line) {
            return true;
        }
    }
    false
}

// The tie of these two lines.
fn named(lines: &[WallLine], pair: Pair) -> Tie
    requires { (pair.first < length lines.now) × (pair.second < length lines.now) }
    ensures { result ≡ record { time = pair.time; first = pair.first + 1; second = Some (pair.second + 1) } }
{
    let _count = lines.len();
    Tie {
        time: pair.time,
        first: pair.first + 1,
        second: Some(pair.second + 1),
    }
}

// The tie of two lines at an end of the span, where no line is negative or zero at all times.
fn tie_of_ends(lines: &[WallLine], ends: &Ends) -> Option<Tie>
    requires rise { IsEnd Rising lines.now ends.now.lower }
    requires fall { IsEnd Falling lines.now ends.now.upper }
    requires floating { (k : ℕ) → k < length lines.now → ¬ (IsSunk (nth lines.now k)) }
    requires uncrossed { ¬ (AreCrossed ends.now.lower ends.now.upper) }
    requires moving { IsNowhere IsFlat lines.now }
    ensures { MatchOption result (HasNoTie lines.now) (IsTie lines.now) }
{
    if let Some(pair) = ends.meeting() {
        return Some(named(lines, pair));
    }
    if let Some(pair) = pair_of(&ends.lower) {
        return Some(named(lines, pair));
    }
    if let Some(pair) = pair_of(&ends.upper) {
        return Some(named(lines, pair));
    }
    None
}

/// The tie that is named for the lines. The span is the set of times at which no line is negative.
/// Where it isn't empty and some line is zero at all times: the first such line, at the span's lower
/// end; without one at its upper end; without either at 0. Else the first two lines that are zero at
/// the lower end; where fewer than two are, or it has none, those at the upper end. `None` exactly
/// where at no time of the span two lines are zero or one is zero at all times.
pub fn tie_of(lines: &[WallLine]) -> Option<Tie>
    requires { All FitsLine lines.now }
    ensures { MatchOption result (HasNoTie lines.now) (IsTie lines.now) }
{
    let ends = Ends::of(lines);
    if has_sunk(lines) || ends.are_crossed() {
        return None;
    }
    if let Some(index) = first_flat(lines) {
        let time = ends.time();
        return Some(Tie {
            time,
            first: index + 1,
            second: None,
        });
    }
    tie_of_ends(lines, &ends)
}
