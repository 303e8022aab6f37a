ghost use Rattle.std.specs.Prelude.{◌≡◌, ◌+◌, ◌<◌, pos, ◌<ℤ◌, All, HoldsAt, length};
ghost use Rattle.std.specs.Ordering.{MatchOrdering};
ghost use Rattle.wide_int.specs.Whole.{FitsWhole};
ghost use Rattle.crossing.specs.Lines.{FitsLine};
ghost use Rattle.crossing.specs.Leading.{steep, Goes, IsBefore, IsEven, IsLed, first_of};

use crate::line::WallLine;
use lex_height::compare_parts;
use std::cmp::Ordering;
use wide_int::compare;

/// The way a line goes over time.
#[derive(Clone, Copy)]
pub enum Way {
    Falling,
    Rising,
}

/// The lines of one way whose zero ends the time on which all lines of this way are positive: none
/// goes this way, one line alone, or the first two of several that have the same zero. By index.
#[derive(Clone, Copy)]
pub enum Leaders {
    None,
    One(usize),
    Two(usize, usize),
}

impl Leaders {
    /// The index of the first of them.
    pub fn first(&self) -> Option<usize>
        ensures { result ≡ first_of self.now }
    {
        match self {
            Leaders::None => None,
            Leaders::One(first) | Leaders::Two(first, _) => Some(*first),
        }
    }
}

/// How much the line goes this way in one unit of time.
pub fn steepness(way: Way, line: &WallLine) -> i128
    requires { FitsLine line.now }
    ensures value { result ≡ steep way line.now }
    ensures fits { FitsWhole result }
{
    match way {
        Way::Falling => -line.beta,
        Way::Rising => line.beta,
    }
}

// The order of the zeros of two lines of this way, as seen from where both are positive.
fn order(way: Way, first: &WallLine, second: &WallLine) -> Ordering
    requires first_fits { FitsLine first.now }
    requires second_fits { FitsLine second.now }
    requires first_goes { Goes way first.now }
    requires second_goes { Goes way second.now }
    ensures { MatchOrdering result (IsBefore way first.now second.now) (IsEven way first.now second.now) (IsBefore way second.now first.now) }
{
    let steep = steepness(way, first);
    let other = steepness(way, second);
    match compare(first.alpha, steep, second.alpha, other) {
        Ordering::Equal => {
            compare_parts(first.fine.as_slice(), steep, second.fine.as_slice(), other)
        }
        order => order,
    }
}

// The leaders after one more line of this way.
fn joined(way: Way, lines: &[WallLine], leaders: Leaders, index: usize) -> Leaders
    requires fit { All FitsLine lines.now }
    requires inside { index < length lines.now }
    requires goes { HoldsAt (Goes way) lines.now index }
    requires led { IsLed way lines.now index leaders }
    ensures { IsLed way lines.now (index + 1) result }
{
    match leaders {
        Leaders::None => Leaders::One(index),
        Leaders::One(first) => match order(way, &lines[first], &lines[index]) {
            Ordering::Less => leaders,
            Ordering::Equal => Leaders::Two(first, index),
            Ordering::Greater => Leaders::One(index),
        },
        Leaders::Two(first, _) => match order(way, &lines[first], &lines[index]) {
            Ordering::Greater => Leaders::One(index),
            _ => leaders,
        },
    }
}

/// The leaders of all lines that go this way.
pub fn leaders_of(way: Way, lines: &[WallLine]) -> Leaders
    requires { All FitsLine lines.now }
    ensures { IsLed way lines.now (length lines.now) result }
{
    let mut leaders = Leaders::None;
    for (index, line) in lines.iter().enumerate() {
        if steepness(way, line) > 0 {
            leaders = joined(way, lines, leaders, index);
        }
    }
    leaders
}
