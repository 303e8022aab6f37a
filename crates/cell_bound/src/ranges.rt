ghost use Rattle.std.specs.Prelude.{◌≡◌, ◌≤◌, ◌-ℤ◌, ℕ, unsigned_abs, IfSome, IsTrue, length};
ghost use Rattle.int_vectors.specs.Bounds.{size};
ghost use Rattle.int_vectors.specs.Vectors.{Each, sub};
ghost use Rattle.cayley.specs.Cells.{Cell, IsOf};
ghost use Rattle.cayley.specs.Problems.{point_at};
ghost use Rattle.cayley.specs.Stored.{point};
ghost use Rattle.cayley.specs.Valid.{IsCornerCoordinate, support_at};
ghost use Rattle.cell_bound.specs.Ranges.{AreNear, AreAround, HasRange, AreBounds, FitsWhole};

use cayley::{Point, Problem};
use elimination_bound::{RowBounds, bounds_fit};

// The sum of the absolute differences of coordinates.
fn spread(a: &[i128], c: &[i128]) -> Option<u128>
    requires lengths { length a.now ≡ length c.now }
    requires a_small { Each a.now IsCornerCoordinate }
    requires c_small { Each c.now IsCornerCoordinate }
    ensures { IfSome result (λ total. total ≡ size (sub c.now a.now)) }
{
    let mut total = 0u128;
    for (k, x) in c.iter().enumerate() {
        let difference = *x - a[k];
        total = total.checked_add(difference.unsigned_abs())?;
    }
    Some(total)
}

fn distance(a: i64, c: i64) -> u128
    ensures { result ≡ unsigned_abs (c -ℤ a) }
{
    let difference = c as i128 - a as i128;
    difference.unsigned_abs()
}

// How far two points are from each other: in all coordinates, and in base and speed.
fn apart(a: &Point, c: &Point) -> Option<RowBounds>
    requires lengths { length a.now.coords ≡ length c.now.coords }
    requires a_small { Each a.now.coords IsCornerCoordinate }
    requires c_small { Each c.now.coords IsCornerCoordinate }
    ensures { IfSome result (λ b. AreNear b.front b.further (point a.now) (point c.now)) }
{
    let front = spread(a.coords.as_slice(), c.coords.as_slice())?;
    let base = distance(a.base, c.base);
    let speed = distance(a.speed, c.speed);
    let further = greater(base, speed);
    Some(RowBounds { front, further })
}

// How far the points of support i at two positions are from each other.
fn apart_at(problem: &Problem, i: u32, first: u32, second: u32) -> Option<RowBounds>
    requires least { 1 ≤ i }
    requires greatest { i ≤ problem.now.dimension }
    requires first { (1 ≤ first) × (first ≤ length (support_at problem.now i)) }
    requires second { (1 ≤ second) × (second ≤ length (support_at problem.now i)) }
    ensures { let s = support_at problem.now i in IfSome result (λ b. AreNear b.front b.further (point_at s first) (point_at s second)) }
{
    let a = problem.point(i, first);
    let x = problem.point(i, second);
    apart(a, x)
}

fn greater(a: u128, b: u128) -> u128
    ensures a { a ≤ result }
    ensures b { b ≤ result }
{
    if a < b { b } else { a }
}

// How far the points of support i are at most from the one at a position.
fn radius(problem: &Problem, i: u32, position: u32) -> Option<RowBounds>
    requires least { 1 ≤ i }
    requires greatest { i ≤ problem.now.dimension }
    requires position { (1 ≤ position) × (position ≤ length (support_at problem.now i)) }
    ensures { IfSome result (λ b. AreAround b.front b.further (support_at problem.now i) position) }
{
    let mut front = 0u128;
    let mut further = 0u128;
    for index in 0..problem.count(i) {
        let own = apart_at(problem, i, position, index + 1)?;
        front = greater(front, own.front);
        further = greater(further, own.further);
    }
    Some(RowBounds { front, further })
}

// The position of a point from which the others of support i aren't far: of its first corner, which
// is at the simplex around all of them, or else of its first point.
fn middle(problem: &Problem, i: u32) -> u32
    requires least { 1 ≤ i }
    requires greatest { i ≤ problem.now.dimension }
    ensures { (1 ≤ result) × (result ≤ length (support_at problem.now i)) }
{
    // A problem is valid by its type, as its readers tell.
    let _dim = problem.dim();
    let files = problem.file_count(i);
    if files < problem.count(i) {
        files + 1
    } else {
        1
    }
}

// The range of support i: two of its points are at most twice as far from each other as from the
// middle.
fn range_of(problem: &Problem, i: u32) -> Option<RowBounds>
    requires least { 1 ≤ i }
    requires greatest { i ≤ problem.now.dimension }
    ensures { IfSome result (λ b. (1 ≤ b.front) × (1 ≤ b.further) × HasRange b.front b.further (support_at problem.now i)) }
{
    // A problem is valid by its type, as its readers tell.
    let _dim = problem.dim();
    let position = middle(problem, i);
    let own = radius(problem, i, position)?;
    let twice = own.front.checked_mul(2)?;
    let other = own.further.checked_mul(2)?;
    let front = greater(1, twice);
    let further = greater(1, other);
    Some(RowBounds { front, further })
}

// The product of the supports' ranges of coordinates, and the sum of each range of heights times the
// others of these.
fn ranges_of(problem: &Problem) -> Option<RowBounds>
    ensures { IfSome result (λ b. AreBounds problem.now.supports b.front b.further) }
{
    let dim = problem.dim();
    let mut front = 1u128;
    let mut further = 0u128;
    for k in 0..dim {
        let i = (dim - k) as u32;
        let own = range_of(problem, i)?;
        let new = own.further.checked_mul(front)?;
        let kept = own.front.checked_mul(further)?;
        further = new.checked_add(kept)?;
        front = own.front.checked_mul(front)?;
    }
    Some(RowBounds { front, further })
}

/// Whether one test of the problem shows that the whole working of each of its cells fits: by the
/// product over the supports of the sums of absolute differences of coordinates, which bounds all
/// minors of a cell's differences. `false` says nothing.
pub fn every_cell_fits(problem: &Problem) -> bool
    ensures { IsTrue result → (cell : Cell) → IsOf problem.now cell → FitsWhole problem.now cell }
{
    // A problem is valid by its type, as its readers tell.
    let _dim = problem.dim();
    match ranges_of(problem) {
        Some(bounds) => bounds_fit(bounds),
        None => false,
    }
}
