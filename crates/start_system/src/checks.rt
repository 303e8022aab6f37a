ghost use Rattle.std.specs.Prelude.{◌≡◌, ◌≢◌, ◌<◌, ◌≤◌, ◌-◌, ◌↔◌, ◌≤ℤ◌, pos, suc, IsTrue, length};
ghost use Rattle.int_vectors.specs.Vectors.{Each, at};
ghost use Rattle.cayley.specs.Paths.{least_coordinates, simplex_edge};
ghost use Rattle.cayley.specs.Stored.{point};
ghost use Rattle.cayley.specs.Valid.{IsCoordinate, IsValidProblem, file_count_at, support_at};
ghost use Rattle.start_system.specs.Corners.{points_at, first_corner_at, IsFirstOf, IsDirectionOf, HasPathCorners};
ghost use Rattle.start_system.specs.Started.{IsStarted};

use crate::vectors::{is_moved, sum_above};
use cayley::{Point, Problem};
use int_vectors::IntVec;

// The least coordinate of the file points of support i at a place, which counts from 0.
fn least_at(problem: &Problem, i: u32, k: usize) -> i128
    requires valid { IsValidProblem problem.now }
    requires least { 1 ≤ i }
    requires greatest { i ≤ problem.now.dimension }
    requires place { k < problem.now.dimension }
    ensures { result ≡ at (least_coordinates (points_at problem.now i)) k }
{
    let mut least = problem.point(i, 1).coords.get(k);
    for c in 1..problem.file_count(i) {
        least = least.min(problem.point(i, c + 1).coords.get(k));
    }
    least
}

fn is_zero(base: i64) -> bool
    ensures { IsTrue result ↔ base ≡ pos 0 }
{
    base == 0
}

// Whether the corner is a first one of support i: at the least coordinates, with the height 0.
fn is_first(problem: &Problem, i: u32, corner: &Point) -> bool
    requires valid { IsValidProblem problem.now }
    requires least { 1 ≤ i }
    requires greatest { i ≤ problem.now.dimension }
    requires length { length corner.now.coords ≡ problem.now.dimension }
    ensures { IsTrue result ↔ IsFirstOf (points_at problem.now i) (point corner.now) }
{
    for k in 0..problem.dim() {
        if corner.coords.get(k) != least_at(problem, i, k) {
            return false;
        }
    }
    is_zero(corner.base)
}

// How far from m the corners of the directions of support i stand.
fn reach(problem: &Problem, i: u32, m: &IntVec) -> i128
    requires valid { IsValidProblem problem.now }
    requires least { 1 ≤ i }
    requires greatest { i ≤ problem.now.dimension }
    requires length { length m.now ≡ problem.now.dimension }
    requires small { Each m.now IsCoordinate }
    ensures value { result ≡ simplex_edge m.now (points_at problem.now i) }
    ensures least { pos 1 ≤ℤ result }
    ensures greatest { result ≤ℤ pos 32000000 }
{
    let mut most = 1;
    for c in 0..problem.file_count(i) {
        most = most.max(sum_above(&problem.point(i, c + 1).coords, m));
    }
    most
}

// Whether a start height is one of direction k: 0 for the own direction, else at least 1.
fn is_start(base: i64, own: usize, k: usize) -> bool
    ensures { IsTrue result ↔ ((k ≡ own → base ≡ pos 0) × (k ≢ own → pos 1 ≤ℤ base)) }
{
    if k == own { base == 0 } else { 1 <= base }
}

// Whether the corner is that of direction k; it and the own direction count from 0.
fn is_direction(corner: &Point, m: &IntVec, d: i128, own: usize, k: usize) -> bool
    requires lengths { length corner.now.coords ≡ length m.now }
    requires place { k < length m.now }
    requires small { Each m.now IsCoordinate }
    requires least { pos 0 ≤ℤ d }
    requires greatest { d ≤ℤ pos 32000000 }
    ensures { IsTrue result ↔ IsDirectionOf m.now d own k (point corner.now) }
{
    is_moved(&corner.coords, m, k, d) && is_start(corner.base, own, k)
}

// Whether support i has the corners of a path.
fn has_path_corners(problem: &Problem, i: u32) -> bool
    requires valid { IsValidProblem problem.now }
    requires least { 1 ≤ i }
    requires greatest { i ≤ problem.now.dimension }
    ensures { IsTrue result ↔ HasPathCorners problem.now.dimension i (file_count_at problem.now i) (support_at problem.now i) }
{
    let first = problem.file_count(i) + 1;
    if problem.count(i) < first {
        return false;
    }
    let corner = problem.point(i, first);
    if !is_first(problem, i, corner) {
        return false;
    }
    let d = reach(problem, i, &corner.coords);
    for k in 0..problem.dim() {
        let other = problem.point(i, first + k as u32 + 1);
        if !is_direction(other, &corner.coords, d, i as usize - 1, k) {
            return false;
        }
    }
    true
}

/// Whether the corners of each support are those of the path of its file points with some start
/// heights of at least 1: the least coordinates m with the height 0, then for each direction k the
/// point m + d e_k, with the height 0 where k is the support's own number. A problem without
/// corners isn't started.
pub fn is_started(problem: &Problem) -> bool
    ensures { IsTrue result ↔ IsStarted problem.now }
{
    for place in 0..problem.dim() {
        if !has_path_corners(problem, place as u32 + 1) {
            return false;
        }
    }
    true
}
