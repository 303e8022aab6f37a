//! Where a cell ends, from its normal alone.
ghost use Rattle.std.specs.Prelude.{◌≡◌, ◌+◌, neg_ℤ, IfSome, MatchOption};
ghost use Rattle.wide_int.specs.Fractions as fractions;
ghost use Rattle.wide_int.specs.Fractions.{IsFraction};
ghost use Rattle.cayley.specs.Cells.{IsOf};
ghost use Rattle.cayley.specs.Problems.{version1, IsStill};
ghost use Rattle.inner_normal.specs.MovingNormals.{IsMovingNormal};
ghost use Rattle.cone_walls.specs.Fronts.{place_by, IsFall, IsTimeOf, AreFalls};
ghost use Rattle.cone_walls.specs.Ends.{TellsEnd, IsEndOf, IsFrontOf};

use crate::fronts::{Fall, Front};
use crate::passing::front_of;
use crate::rests::is_resting;
use crate::rooms::is_narrow_of;
use crate::steps::Steps;
use cayley::{Cell, Place, Problem};
use inner_normal::MovingNormal;
use lex_height::Lex;
use std::alloc::Global;
use std::sync::ledger::Ledger;
use wide_int::Frac;

/// Where a cell ends.
#[derive(Clone, Copy, Debug, PartialEq, Eq)]
pub enum End {
    /// It is alive at all late times.
    Never,
    /// At this time one further point alone is level.
    At {
        time: Lex,
        place: Place,
    },
    /// The first two of the further points that are level at this time.
    Tied {
        time: Lex,
        first: Place,
        second: Place,
    },
}

/// The time at which a line that falls is zero.
pub fn time_of(fall: &Fall) -> Lex
    requires { IsFall fall.now }
    ensures { IsTimeOf fall.now result }
{
    Lex::of(&zero_of(fall))
}

/// The place of the point of a line that falls.
pub fn place_of(fall: &Fall) -> Place
    ensures { result ≡ place_by fall.now }
{
    Place {
        support: fall.support,
        position: fall.position,
    }
}

// The zero of a line that falls as a fraction.
fn zero_of(fall: &Fall) -> Frac
    requires { IsFall fall.now }
    ensures value { IsFraction result fall.now.alpha (neg_ℤ fall.now.beta) }
    ensures lowest { fractions.IsLowest result }
{
    match Frac::lowest(fall.alpha as i128, -(fall.beta as i128)) {
        Some(zero) => zero,
        None => unreachable!(),
    }
}

// The end that a front tells.
fn end_at(front: &Front) -> End
    requires { AreFalls front.now }
    ensures { TellsEnd front.now result }
{
    match front {
        Front::Empty => End::Never,
        Front::One(fall) => End::At {
            time: time_of(fall),
            place: place_of(fall),
        },
        Front::Two(fall, other) => End::Tied {
            time: time_of(fall),
            first: place_of(fall),
            second: place_of(other),
        },
    }
}

/// The lines that end a cell of a problem of the first version whose file points rest, if it is alive
/// at some time, from its normal: of the lines of [`walls_of`](crate::walls_of) that fall, those that
/// are zero first. The cell ends at the time of the first of them, [`time_of`]. No line is kept, and
/// it takes no memory; a cell of file points alone needs no line at all. `None` where a number might
/// not fit in 64 bits: then it counts no step, else it is one.
pub fn ending_front<L: Ledger>(
    problem: &Problem,
    cell: &Cell,
    normal: &MovingNormal,
    steps: &mut Steps<L>,
) -> Option<Front>
    requires of { IsOf problem.now cell.now }
    requires normal { IsMovingNormal problem.now cell.now normal.now }
    requires still { IsStill problem.now }
    requires first { problem.now.version ≡ version1 }
    ensures step { MatchOption result (steps.new ≡ steps.old) (λ _. steps.new ≡ steps.old + 1) }
    ensures falls { IfSome result AreFalls }
    ensures end { IfSome result (IsFrontOf problem.now cell.now normal.now) }
{
    // A problem is valid by its type, as its readers tell.
    let _dim = problem.dim();
    if !is_narrow_of(problem, normal) {
        return None;
    }
    steps.tick();
    if is_resting(problem, cell, normal) {
        return Some(Front::Empty);
    }
    Some(front_of(problem, cell, normal))
}

/// Where a cell of a problem of the first version whose file points rest ends, if it is alive at some time, from its normal:
/// the least zero of a falling wall line, as `exit_of` gives it of the lines of
/// [`walls_of`](crate::walls_of). No line is kept, and it takes no memory; a cell of file points alone
/// needs no line at all. `None` where a number might
/// not fit in 64 bits: then it counts no step, else it is one.
pub fn end_of<L: Ledger>(
    _alloc: Global,
    problem: &Problem,
    cell: &Cell,
    normal: &MovingNormal,
    steps: &mut Steps<L>,
) -> Option<End>
    requires of { IsOf problem.now cell.now }
    requires normal { IsMovingNormal problem.now cell.now normal.now }
    requires still { IsStill problem.now }
    requires first { problem.now.version ≡ version1 }
    ensures step { MatchOption result (steps.new ≡ steps.old) (λ _. steps.new ≡ steps.old + 1) }
    ensures end { IfSome result (IsEndOf problem.now cell.now normal.now) }
{
    let front = ending_front(problem, cell, normal, steps)?;
    Some(end_at(&front))
}
