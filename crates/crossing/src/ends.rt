ghost use Rattle.std.specs.Prelude.{◌≡◌, ◌<◌, ◌≢◌, All, IsTrue, ◌↔◌};
ghost use Rattle.crossing.specs.Lines.{FitsLine};
ghost use Rattle.crossing.specs.Ends as ends;
ghost use Rattle.crossing.specs.Ends.{IsEnd, AreCrossed, IsEndTime, IsFirstPair, IsMeeting, earlier_of};

use crate::leaders::{Leaders, Way, leaders_of};
use crate::line::WallLine;
use crate::zeros::zero_of;
use lex_height::Lex;
use std::cmp::Ordering;

/// The time past which some line of one way is negative, and the first one or two of its lines that
/// are zero then, by index.
#[derive(Clone, Copy)]
pub struct End {
    pub time: Lex,
    pub first: usize,
    pub second: Option<usize>,
}

/// The first two lines that are zero at a time, by index.
#[derive(Clone, Copy)]
pub struct Pair {
    pub time: Lex,
    pub first: usize,
    pub second: usize,
}

// The end of all lines of this way. `None` where no line goes this way.
fn end_of(way: Way, lines: &[WallLine]) -> Option<End>
    requires { All FitsLine lines.now }
    ensures { IsEnd way lines.now result }
{
    match leaders_of(way, lines) {
        Leaders::None => None,
        Leaders::One(index) => Some(End {
            time: zero_of(way, &lines[index]),
            first: index,
            second: None,
        }),
        Leaders::Two(first, second) => Some(End {
            time: zero_of(way, &lines[first]),
            first,
            second: Some(second),
        }),
    }
}

/// The two ends of the span, which is the set of times at which no line is negative.
#[derive(Clone, Copy)]
pub struct Ends {
    /// That of the rising lines.
    pub lower: Option<End>,
    /// That of the falling lines.
    pub upper: Option<End>,
}

impl Ends {
    /// The two ends of the lines.
    pub fn of(lines: &[WallLine]) -> Ends
        requires { All FitsLine lines.now }
        ensures rise { IsEnd Way.Rising lines.now result.lower }
        ensures fall { IsEnd Way.Falling lines.now result.upper }
    {
        Ends {
            lower: end_of(Way::Rising, lines),
            upper: end_of(Way::Falling, lines),
        }
    }

    /// Whether the upper end is before the lower one.
    pub fn are_crossed(&self) -> bool
        ensures { IsTrue result ↔ AreCrossed self.now.lower self.now.upper }
    {
        let (Some(lower), Some(upper)) = (&self.lower, &self.upper) else {
            return false;
        };
        match lower.time.cmp(&upper.time) {
            Ordering::Greater => true,
            _ => false,
        }
    }

    /// The time of the lower end; without one that of the upper end; without both 0.
    pub fn time(&self) -> Lex
        ensures { IsEndTime self.now.lower self.now.upper result }
    {
        match &self.lower {
            Some(end) => end.time,
            None => match &self.upper {
                Some(end) => end.time,
                None => Lex::new(&[], 1).unwrap(),
            },
        }
    }

    /// The first two lines of both ends, where these are one time.
    pub fn meeting(&self) -> Option<Pair>
        ensures { IsMeeting self.now.lower self.now.upper result }
    {
        let (Some(lower), Some(upper)) = (&self.lower, &self.upper) else {
            return None;
        };
        match lower.time.cmp(&upper.time) {
            Ordering::Equal => Some(first_two(lower, upper)),
            _ => None,
        }
    }
}

// The earlier of one index, if it is there, and another.
fn earlier(first: Option<usize>, second: usize) -> usize
    ensures { result ≡ earlier_of first second }
{
    match first {
        Some(first) => first.min(second),
        None => second,
    }
}

// The first two lines of two ends at one time.
fn first_two(lower: &End, upper: &End) -> Pair
    ensures { IsFirstPair lower.now upper.now result }
{
    if lower.first < upper.first {
        Pair {
            time: lower.time,
            first: lower.first,
            second: earlier(lower.second, upper.first),
        }
    } else {
        Pair {
            time: lower.time,
            first: upper.first,
            second: earlier(upper.second, lower.first),
        }
    }
}

/// The first two lines of an end that has two.
pub fn pair_of(end: &Option<End>) -> Option<Pair>
    ensures { result ≡ ends.pair_of end.now }
{
    match end {
        None => None,
        Some(end) => match end.second {
            None => None,
            Some(second) => Some(Pair {
                time: end.time,
                first: end.first,
                second,
            }),
        },
    }
}
