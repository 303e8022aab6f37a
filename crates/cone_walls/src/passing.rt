// The front of the lines of all further points, one point after the other.
ghost use Rattle.std.specs.Prelude.{◌≡◌, ◌⊎◌, ◌↔◌, ◌≤◌, ◌++◌, [], ◌∷◌, ◌<ℤ◌, pos, List, IsTrue, length};
ghost use Rattle.cayley.specs.Cells.{IsOf};
ghost use Rattle.cayley.specs.Problems.{point_at, with_rank};
ghost use Rattle.cayley.specs.Stored.{point};
ghost use Rattle.cayley.specs.Valid.{support_at};
ghost use Rattle.crossing.specs.declared.line.WallLine.{WallLine};
ghost use Rattle.cone_walls.specs.Fronts.{AreFalls, IsFront};
ghost use Rattle.cone_walls.specs.Listed.{line_of, one_line, support_lines, wall_lines};
ghost use Rattle.cone_walls.specs.NarrowLines.{IsNarrowLine};
ghost use Rattle.cone_walls.specs.Numbers as numbers;
ghost use Rattle.cone_walls.specs.Rooms.{IsNarrowOf};

use crate::fronts::{Fall, Front, join};
use crate::slopes::{drift_of, growth, start};
use cayley::{Cell, Point, Problem};
use inner_normal::MovingNormal;

// Whether a position is one of the pair's.
#[inline(always)]
fn is_own(pair: (u32, u32), position: u32) -> bool
    ensures { IsTrue result ↔ ((position ≡ pair.0) ⊎ (position ≡ pair.1)) }
{
    position == pair.0 || position == pair.1
}

// The front with the line of c at a position of support i, which falls. A function of its own, so that
// the loop over all points stays short.
#[inline(never)]
fn fallen(
    front: &mut Front,
    normal: &MovingNormal,
    i: u32,
    a: &Point,
    position: u32,
    c: &Point,
    beta: i64,
)
    requires narrow { IsNarrowLine normal.now (point a.now) (point c.now) }
    requires beta { beta ≡ numbers.beta normal.now (point a.now) (point c.now) }
    requires fall { beta <ℤ pos 0 }
    requires falls { AreFalls front.old }
    ensures falls { AreFalls front.new }
    ensures front { (lines : List WallLine) → IsFront lines front.old → IsFront (lines ++ line_of normal.now i (point a.now) position (point c.now) ∷ []) front.new }
{
    let alpha = start(normal, a, c);
    let fall = Fall {
        support: i,
        position,
        alpha,
        beta,
    };
    join(front, fall);
}

// The front with the line of the point at a position of support i, unless it is of the pair. `drift` is
// that of the pair's first point.
#[inline(always)]
fn passed(
    front: &mut Front,
    problem: &Problem,
    normal: &MovingNormal,
    i: u32,
    pair: (u32, u32),
    a: &Point,
    drift: i64,
    position: u32,
)
    requires least { 1 ≤ i }
    requires greatest { i ≤ problem.now.dimension }
    requires pair { (1 ≤ pair.0) × (pair.0 ≤ length (support_at problem.now i)) }
    requires first { point a.now ≡ with_rank 0 (point_at (support_at problem.now i) pair.0) }
    requires drift { drift ≡ numbers.drift normal.now (point a.now) }
    requires position { (1 ≤ position) × (position ≤ length (support_at problem.now i)) }
    requires p_long { length normal.now.p ≡ problem.now.dimension }
    requires q_long { length normal.now.q ≡ problem.now.dimension }
    requires room { IsNarrowOf problem.now normal.now }
    requires falls { AreFalls front.old }
    ensures falls { AreFalls front.new }
    ensures front { (lines : List WallLine) → IsFront lines front.old → IsFront (lines ++ one_line normal.now i (support_at problem.now i) pair.0 pair.1 position) front.new }
{
    if is_own(pair, position) {
        return;
    }
    let c = problem.point(i, position);
    let other = drift_of(normal, c);
    if other >= drift {
        return;
    }
    let beta = growth(normal, a, c, drift, other);
    fallen(front, normal, i, a, position, c, beta);
}

// The front with the lines of the further points of support i.
fn passed_all(front: &mut Front, problem: &Problem, normal: &MovingNormal, i: u32, pair: (u32, u32))
    requires least { 1 ≤ i }
    requires greatest { i ≤ problem.now.dimension }
    requires pair { (1 ≤ pair.0) × (pair.0 ≤ length (support_at problem.now i)) }
    requires p_long { length normal.now.p ≡ problem.now.dimension }
    requires q_long { length normal.now.q ≡ problem.now.dimension }
    requires room { IsNarrowOf problem.now normal.now }
    requires falls { AreFalls front.old }
    ensures falls { AreFalls front.new }
    ensures front { (lines : List WallLine) → IsFront lines front.old → IsFront (lines ++ support_lines normal.now i (support_at problem.now i) pair.0 pair.1) front.new }
{
    let a = problem.point(i, pair.0);
    let drift = drift_of(normal, a);
    for index in 0..problem.count(i) {
        passed(front, problem, normal, i, pair, a, drift, index + 1);
    }
}

// The front of the lines of all further points.
pub(crate) fn front_of(problem: &Problem, cell: &Cell, normal: &MovingNormal) -> Front
    requires of { IsOf problem.now cell.now }
    requires p_long { length normal.now.p ≡ problem.now.dimension }
    requires q_long { length normal.now.q ≡ problem.now.dimension }
    requires room { IsNarrowOf problem.now normal.now }
    ensures falls { AreFalls result }
    ensures front { IsFront (wall_lines normal.now 1 problem.now.supports cell.now) result }
{
    // A problem is valid by its type, as its readers tell.
    let _dim = problem.dim();
    let mut leading = Front::Empty;
    for (i, pair) in cell.pairs().iter().enumerate() {
        passed_all(&mut leading, problem, normal, i as u32 + 1, *pair);
    }
    leading
}
