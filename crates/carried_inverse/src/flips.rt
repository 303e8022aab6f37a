ghost use Rattle.std.specs.Prelude.{◌≡◌, ◌∷◌, [], ◌-◌, ◌+◌, ◌*◌, ◌<◌, ◌≤◌, ◌^◌, ℕ, ℤ, List, pos, ◌-ℤ◌, ◌+ℤ◌, ◌*ℤ◌, neg_ℤ, ◌<ℤ◌, unsigned_abs, IfSome, IsTrue, length};
ghost use Rattle.int_vectors.specs.Bounds.{Within, Room, size};
ghost use Rattle.int_vectors.specs.Vectors.{Each, sub, dot};
ghost use Rattle.cayley.specs.Cells.{IsOf};
ghost use Rattle.cayley.specs.Dependencies.{nth_support, pair_at};
ghost use Rattle.cayley.specs.Problems.{point_at};
ghost use Rattle.cayley.specs.Valid.{IsValidProblem, IsCornerCoordinate};
ghost use Rattle.cayley.specs.Signs.{HasSign};

use crate::entries::{greatest, plus_product};
use cayley::{Cell, Point, Problem, Sign};

// The point at a position of a support; both count from 1.
pub(crate) fn point_of(problem: &Problem, support: u32, position: u32) -> &Point
    requires support { (1 ≤ support) × (support ≤ problem.now.dimension) }
    requires position { (1 ≤ position) × (position ≤ length (nth_support problem.now.supports (support - 1))) }
    ensures same { result.now.coords ≡ (point_at (nth_support problem.now.supports (support - 1)) position).coordinates }
    ensures long { length result.now.coords ≡ problem.now.dimension }
    ensures near { Each result.now.coords IsCornerCoordinate }
    ensures valid { IsValidProblem problem.now }
{
    problem.point(support, position)
}

// The first position of the cell's pair in a support, which counts from 1.
pub(crate) fn first_of(problem: &Problem, cell: &Cell, support: u32) -> u32
    requires cell { IsOf problem.now cell.now }
    requires support { (1 ≤ support) × (support ≤ problem.now.dimension) }
    ensures same { result ≡ (pair_at cell.now (support - 1)).0 }
    ensures place { (1 ≤ result) × (result ≤ length (nth_support problem.now.supports (support - 1))) }
{
    // A problem is valid by its type, as its readers tell.
    let _dim = problem.dim();
    cell.pairs()[support as usize - 1].0
}

// The difference of two coordinates.
#[inline(always)]
fn between(a: i128, c: i128) -> i64
    requires a_small { IsCornerCoordinate a }
    requires c_small { IsCornerCoordinate c }
    ensures { result ≡ c -ℤ a }
{
    c as i64 - a as i64
}

// The sum of the products of c less a and a column.
fn product_between(a: &[i128], c: &[i128], column: &[i64]) -> i64
    requires a_length { length a.now ≡ length column.now }
    requires c_length { length c.now ≡ length column.now }
    requires a_small { Each a.now IsCornerCoordinate }
    requires c_small { Each c.now IsCornerCoordinate }
    requires room { Room (2 ^ 62) (pos 0) (sub c.now a.now) column.now }
    ensures { result ≡ dot (sub c.now a.now) column.now }
{
    let mut total = 0;
    for i in 0..column.len() {
        let d = between(a[i], c[i]);
        total = plus_product(total, d, column[i]);
    }
    total
}

fn is_low(n: usize, most: u64) -> bool
    ensures { IsTrue result → (n ≤ 16) × (most < 2 ^ 31) }
{
    n <= 16 && most < 1 << 31
}

// The same where a bound on the column shows that it fits.
pub(crate) fn product_within(a: &[i128], c: &[i128], column: &[i64]) -> Option<i64>
    requires a_length { length a.now ≡ length column.now }
    requires c_length { length c.now ≡ length column.now }
    requires a_small { Each a.now IsCornerCoordinate }
    requires c_small { Each c.now IsCornerCoordinate }
    ensures { IfSome result (λ m. m ≡ dot (sub c.now a.now) column.now) }
{
    if !is_low(column.len(), greatest(column)) {
        return None;
    }
    Some(product_between(a, c, column))
}

fn sign_between(x: i64, y: i64) -> Sign
    ensures { HasSign result (x -ℤ y) }
{
    if x < y {
        Sign::Minus
    } else if x == y {
        Sign::Zero
    } else {
        Sign::Plus
    }
}

// The signs of a dependency that is `den` at a further point, at the first and the second point of its
// pair, by the product m of the pair's column.
pub(crate) fn signs_of(m: i64, den: i64) -> (Sign, Sign)
    ensures { HasSign result.0 (m -ℤ den) × HasSign result.1 (pos 0 -ℤ m) }
{
    (sign_between(m, den), sign_between(0, m))
}

// Puts the differences of c and a in their places.
pub(crate) fn put_differences(a: &[i128], c: &[i128], row: &mut [i64])
    requires a_length { length a.now ≡ length row.old }
    requires c_length { length c.now ≡ length row.old }
    requires a_small { Each a.now IsCornerCoordinate }
    requires c_small { Each c.now IsCornerCoordinate }
    ensures { row.new ≡ sub c.now a.now }
{
    for i in 0..row.len() {
        row[i] = between(a[i], c[i]);
    }
}
