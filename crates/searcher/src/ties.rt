ghost use Rattle.cone_walls.specs.Ends.{place_at};
ghost use Rattle.std.specs.Prelude.{◌≡◌, ◌≤◌, length};
ghost use Rattle.searcher.specs.CellWalls.{tie_between};

use cayley::{Cell, Place, TieProof};
use crossing::WallLine;
use lex_height::Lex;

// The place of the point of a line; the lines count from 1.
fn place_of(lines: &[WallLine], which: usize) -> Place
    requires { (1 ≤ which) × (which ≤ length lines.now) }
    ensures { result ≡ place_at lines.now which }
{
    let line = &lines[which - 1];
    Place {
        support: line.support,
        position: line.position,
    }
}

// The tie of the points of two lines, which count from 1.
pub(crate) fn tie_of(
    cell: &Cell,
    lines: &[WallLine],
    time: Lex,
    first: usize,
    second: usize,
) -> TieProof
    requires first { (1 ≤ first) × (first ≤ length lines.now) }
    requires second { (1 ≤ second) × (second ≤ length lines.now) }
    ensures { result ≡ tie_between cell.now lines.now time first second }
{
    TieProof {
        cell: cell.copy(),
        time,
        first: place_of(lines, first),
        second: Some(place_of(lines, second)),
    }
}
