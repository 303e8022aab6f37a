// Cells that rest: no wall line of theirs falls.
ghost use Rattle.std.specs.Prelude.{◌≡◌, ◌↔◌, ◌≤◌, pos, IsTrue, length};
ghost use Rattle.cayley.specs.Cells.{IsOf};
ghost use Rattle.cayley.specs.Problems.{point_at};
ghost use Rattle.cayley.specs.Valid.{support_at};
ghost use Rattle.cone_walls.specs.Rests.{IsResting};

use cayley::{Cell, Problem};
use inner_normal::MovingNormal;

// Whether the point at a position of support i rests.
fn is_at_rest(problem: &Problem, i: u32, position: u32) -> bool
    requires least { 1 ≤ i }
    requires greatest { i ≤ problem.now.dimension }
    requires position { (1 ≤ position) × (position ≤ length (support_at problem.now i)) }
    ensures { IsTrue result → (point_at (support_at problem.now i) position).speed ≡ pos 0 }
{
    problem.point(i, position).speed == 0
}

// Whether the normal doesn't move, and the first point of each pair rests.
pub(crate) fn is_resting(problem: &Problem, cell: &Cell, normal: &MovingNormal) -> bool
    requires { IsOf problem.now cell.now }
    ensures { IsTrue result → IsResting problem.now cell.now normal.now }
{
    // A problem is valid by its type, as its readers tell.
    let _dim = problem.dim();
    if !normal.q.is_zero() {
        return false;
    }
    for (k, pair) in cell.pairs().iter().enumerate() {
        if !is_at_rest(problem, k as u32 + 1, pair.0) {
            return false;
        }
    }
    true
}
