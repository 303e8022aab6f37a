// The differences of a cell's pairs times the columns of a matrix.
ghost use Rattle.std.specs.Prelude.{◌≡◌, ◌↔◌, ◌+◌, ◌-◌, ◌*◌, ◌<◌, ◌≤◌, IsTrue, MatchOption, SomeIff, ℕ, pos, [], length, slice_index_or};
ghost use Rattle.int_vectors.specs.Fits.{FitsDot};
ghost use Rattle.int_vectors.specs.Vectors.{Each, sub, dot};
ghost use Rattle.cayley.specs.Cells.{IsOf};
ghost use Rattle.cayley.specs.Dependencies.{nth_support, pair_at};
ghost use Rattle.cayley.specs.Problems.{point_at};
ghost use Rattle.cayley.specs.Valid.{IsCornerCoordinate, IsValidProblem};
ghost use Rattle.path_trace.specs.Inverses as inverses;
ghost use Rattle.path_trace.specs.Inverses.{pair_difference};
ghost use Rattle.log_check.specs.Products.{AreRow, FitsRow, TellsRow};

use cayley::{Cell, Problem};
use int_vectors::{IntVec, dot_between};

// The entry of g times the identity.
fn in_identity(g: i128, i: usize, k: usize) -> i128
    ensures { result ≡ inverses.in_identity g i k }
{
    if i == k { g } else { 0 }
}

fn are_both(a: bool, b: bool) -> bool
    ensures { IsTrue result ↔ (IsTrue a × IsTrue b) }
{
    a && b
}

fn is_equal(x: i128, y: i128) -> bool
    ensures { IsTrue result ↔ (x ≡ y) }
{
    x == y
}

// Whether the product of b less a and a column is the entry of g times the identity. `None` exactly
// where a number of it doesn't fit.
fn is_entry(g: i128, i: usize, k: usize, a: &[i128], b: &[i128], column: &[i128]) -> Option<bool>
    requires a_long { length a.now ≡ length column.now }
    requires b_long { length b.now ≡ length column.now }
    requires a_near { Each a.now IsCornerCoordinate }
    requires b_near { Each b.now IsCornerCoordinate }
    ensures { let v = sub b.now a.now in TellsRow result (FitsDot (pos 0) v column.now) (dot v column.now ≡ inverses.in_identity g i k) }
{
    let Some(made) = dot_between(0, a, b, column) else {
        return None;
    };
    Some(is_equal(made, in_identity(g, i, k)))
}

// Whether the products of b less a and the columns are row i of g times the identity. `None` exactly
// where a number of them doesn't fit.
fn is_row(g: i128, i: usize, a: &[i128], b: &[i128], columns: &[IntVec]) -> Option<bool>
    requires a_long { Each columns.now (λ column. length column ≡ length a.now) }
    requires b_long { Each columns.now (λ column. length column ≡ length b.now) }
    requires a_near { Each a.now IsCornerCoordinate }
    requires b_near { Each b.now IsCornerCoordinate }
    ensures { let v = sub b.now a.now in TellsRow result (FitsRow v columns.now (length columns.now)) (AreRow g i v columns.now (length columns.now)) }
{
    let mut same = true;
    for k in 0..columns.len() {
        let Some(one) = is_entry(g, i, k, a, b, columns[k].as_slice()) else {
            return None;
        };
        same = are_both(same, one);
    }
    Some(same)
}

// The coordinates of the point at a position of a support; both count from 1.
fn coordinates_at(problem: &Problem, support: u32, position: u32) -> &[i128]
    requires support { (1 ≤ support) × (support ≤ problem.now.dimension) }
    requires position { (1 ≤ position) × (position ≤ length (nth_support problem.now.supports (support - 1))) }
    ensures same { result.now ≡ (point_at (nth_support problem.now.supports (support - 1)) position).coordinates }
    ensures long { length result.now ≡ problem.now.dimension }
    ensures near { Each result.now IsCornerCoordinate }
{
    problem.point(support, position).coords.as_slice()
}

// The same for the difference of the cell's pair in the support at place i, which counts from 0.
fn is_pair_row(
    problem: &Problem,
    cell: &Cell,
    g: i128,
    i: usize,
    columns: &[IntVec],
) -> Option<bool>
    requires of { IsOf problem.now cell.now }
    requires place { i < problem.now.dimension }
    requires long { Each columns.now (λ column. length column ≡ problem.now.dimension) }
    ensures { let v = pair_difference problem.now cell.now i in TellsRow result (FitsRow v columns.now (length columns.now)) (AreRow g i v columns.now (length columns.now)) }
{
    // A problem is valid by its type, as its readers tell.
    let _dim = problem.dim();
    let pair = cell.pairs()[i];
    let support = i as u32 + 1;
    let a = coordinates_at(problem, support, pair.0);
    let b = coordinates_at(problem, support, pair.1);
    is_row(g, i, a, b, columns)
}

// Whether the differences of the cell's pairs times the columns are g times the identity. `None`
// exactly where a number of the products doesn't fit.
pub(crate) fn are_inverse(
    problem: &Problem,
    cell: &Cell,
    g: i128,
    columns: &[IntVec],
) -> Option<bool>
    requires of { IsOf problem.now cell.now }
    requires long { Each columns.now (λ column. length column ≡ problem.now.dimension) }
    ensures { let n = problem.now.dimension in let m = length columns.now in TellsRow result
        ((i : ℕ) → i < n → FitsRow (pair_difference problem.now cell.now i) columns.now m)
        ((i : ℕ) → i < n → AreRow g i (pair_difference problem.now cell.now i) columns.now m) }
{
    let mut same = true;
    for i in 0..problem.dim() {
        let Some(row) = is_pair_row(problem, cell, g, i, columns) else {
            return None;
        };
        same = are_both(same, row);
    }
    Some(same)
}
