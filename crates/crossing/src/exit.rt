ghost use Rattle.std.specs.Prelude.{◌≡◌, ◌<◌, ◌≤◌, pos, All, HoldsAt, length, MatchOption, IsTrue, ◌↔◌};
ghost use Rattle.crossing.specs.Lines.{FitsLine, IsFlat};
ghost use Rattle.crossing.specs.Exits.{IsExit};
ghost use Rattle.crossing.specs.Found.{IsFirstFlat};

use crate::leaders::{Leaders, Way, leaders_of};
use crate::line::WallLine;
use crate::zeros::zero_of;
use lex_height::Lex;

/// Where the time on which all lines are positive ends. Places count from 1.
#[derive(Clone, Copy, Debug, PartialEq, Eq)]
pub enum Exit {
    /// No line falls, and none is zero at all times.
    Never,
    /// One line alone falls to zero at this time, before all others that fall.
    At {
        time: Lex,
        which: usize,
    },
    /// The first two of the lines that fall to zero at this time, before all others that fall.
    Tied {
        time: Lex,
        first: usize,
        second: usize,
    },
    /// The first line that is zero at all times.
    Flat {
        which: usize,
    },
}

/// Whether a line is zero at all times.
pub fn is_flat(line: &WallLine) -> bool
    requires { FitsLine line.now }
    ensures { IsTrue result ↔ IsFlat line.now }
{
    match line.fine.as_slice() {
        [] => line.alpha == 0 && line.beta == 0,
        [_, ..] => false,
    }
}

/// The index of the first line that is zero at all times.
pub fn first_flat(lines: &[WallLine]) -> Option<usize>
    requires { All FitsLine lines.now }
    ensures { IsFirstFlat lines.now result }
{
    for (index, line) in lines.iter().enumerate() {
        if is_flat(line) {
            return Some(index);
        }
    }
    None
}

/// The exit of the lines: `Flat` exactly where some line is zero at all times; else `Never` exactly
/// where no line falls; else the least zero of a falling line.
pub fn exit_of(lines: &[WallLine]) -> Exit
    requires { All FitsLine lines.now }
    ensures rule { IsExit lines.now result }
    ensures only { (other : Exit) → IsExit lines.now other → other ≡ result }
{
    if let Some(index) = first_flat(lines) {
        return Exit::Flat { which: index + 1 };
    }
    match leaders_of(Way::Falling, lines) {
        Leaders::None => Exit::Never,
        Leaders::One(index) => Exit::At {
            time: zero_of(Way::Falling, &lines[index]),
            which: index + 1,
        },
        Leaders::Two(first, second) => Exit::Tied {
            time: zero_of(Way::Falling, &lines[first]),
            first: first + 1,
            second: second + 1,
        },
    }
}
