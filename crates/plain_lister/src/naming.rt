ghost use Rattle.std.specs.Prelude.{◌≡◌, MatchResult};
ghost use Rattle.cayley.specs.Cells.{IsOf};
ghost use Rattle.cayley.specs.Valid.{IsValidProblem};
ghost use Rattle.cone_walls.specs.Workings.{FitsWallWorking};
ghost use Rattle.cayley.specs.TieProofs.{spot_of};
ghost use Rattle.plain_lister.specs.LeastTies.{IsNamedOf};
ghost use Rattle.plain_lister.specs.TieProgress.{spot_at, IsPlace, HasPlaces, IsByPoints};
ghost use Rattle.reduced_rows.specs.Refusals.{IsFromFault};

use cayley::{Cell, Place, Problem};
use cone_walls::{CellFault, Steps, WallLine, walls_of};
use crossing::{Tie, tie_of};
use lex_height::Lex;
use reduced_rows::FromFault;
use std::alloc::Global;
use std::sync::ledger::Ledger;

/// The tie that is named for a cell, without the cell.
#[derive(Clone, Copy)]
pub(crate) struct NamedTie {
    pub time: Lex,
    pub first: Place,
    pub second: Option<Place>,
}

// The point of the line at a place, which counts from 1.
fn place_of(lines: &[WallLine], place: usize) -> Place
    requires { IsPlace lines.now place }
    ensures { spot_of result ≡ spot_at lines.now place }
{
    let line = &lines[place - 1];
    Place {
        support: line.support,
        position: line.position,
    }
}

// A tie of lines by their points.
fn by_points(lines: &[WallLine], tie: Tie) -> NamedTie
    requires { HasPlaces lines.now tie }
    ensures { IsByPoints lines.now tie result }
{
    let first = place_of(lines, tie.first);
    match tie.second {
        None => NamedTie {
            time: tie.time,
            first,
            second: None,
        },
        Some(second) => NamedTie {
            time: tie.time,
            first,
            second: Some(place_of(lines, second)),
        },
    }
}

/// The tie that is named for the cell, if it has one.
pub(crate) fn named_tie<L: Ledger>(
    alloc: Global,
    problem: &Problem,
    cell: &Cell,
    steps: &mut Steps<L>,
) -> Result<Option<NamedTie>, FromFault>
    requires valid { IsValidProblem problem.now }
    requires of { IsOf problem.now cell.now }
    ensures { MatchResult result
        (λ tie. FitsWallWorking problem.now cell.now × IsNamedOf problem.now cell.now tie)
        (IsFromFault (FitsWallWorking problem.now cell.now)) }
{
    let walls = match walls_of(alloc, problem, cell, steps) {
        Ok(walls) => walls,
        Err(CellFault::Dependent { .. }) => return Ok(None),
        Err(CellFault::Overflow) => return Err(FromFault::Overflow),
        Err(CellFault::OutOfMemory) => return Err(FromFault::OutOfMemory),
    };
    match tie_of(&walls.lines) {
        None => Ok(None),
        Some(tie) => Ok(Some(by_points(&walls.lines, tie))),
    }
}
