ghost use Rattle.std.specs.Prelude.{◌≡◌, ◌+◌, ◌≤◌, ◌↔◌, ◌⊎◌, IsTrue, MatchOption, MatchResult, ℕ, map, length, take, drop, pos};
ghost use Rattle.std.specs.List.{All};
ghost use Rattle.cayley.specs.Problems.{IsStill};
ghost use Rattle.cayley.specs.Shapes.{IsFaulty, IsOutside, IsFaultyOf, IsOutsideOf, IsFirstCorner, IsSupportFault, IsProblemFault, IsPlaceFault};
ghost use Rattle.cayley.specs.Stored.{held, point, unranked_of};
ghost use Rattle.cayley.specs.Valid.{HasProblemShape, IsValidProblem, IsWithinCorners, support_at, file_count_at};
ghost use Rattle.int_vectors.specs.Vectors.{Each};

use crate::faults::ShapeFault;
use crate::limits::{DIMENSIONS, POINTS, is_within_corners, is_within_resting};
use crate::points::{Point, Support};
use std::alloc::Global;
use std::collections::BTreeSet;

fn have_no_corners(supports: &[Support]) -> bool
    ensures { IsTrue result ↔ All (λ s. length s.points.items ≡ s.file) supports.now }
{
    supports.iter().all(|s| s.points.len() == s.file as usize)
}

fn have_corners(dim: usize, supports: &[Support]) -> bool
    requires { dim ≤ 16 }
    ensures { IsTrue result ↔ All (λ s. length s.points.items ≡ s.file + (dim + 1)) supports.now }
{
    supports
        .iter()
        .all(|s| s.points.len() == s.file as usize + (dim + 1))
}

fn have_coords(dim: usize, points: &[Point]) -> bool
    ensures { IsTrue result ↔ All (λ x. length x.coords ≡ dim) points.now }
{
    points.iter().all(|x| x.coords.len() == dim)
}

fn have_speed(speed: i64, points: &[Point]) -> bool
    ensures { IsTrue result ↔ All (λ x. x.speed ≡ speed) points.now }
{
    points.iter().all(|x| x.speed == speed)
}

// Whether the first `file` points rest and the others move.
fn have_speeds(file: usize, points: &[Point]) -> bool
    requires { file ≤ length points.now }
    ensures { IsTrue result ↔ (All (λ x. x.speed ≡ pos 0) (take file points.now) × All (λ x. x.speed ≡ pos 1) (drop file points.now)) }
{
    have_speed(0, &points[..file]) && have_speed(1, &points[file..])
}

/// Whether the file points of all supports rest.
pub(crate) fn are_still(supports: &[Support]) -> bool
    requires { All (λ s. s.file ≤ length s.points.items) supports.now }
    ensures { IsTrue result ↔ All (λ s. All (λ x. x.speed ≡ pos 0) (take s.file s.points.items)) supports.now }
{
    for s in supports {
        if !have_speed(0, &s.points[..s.file as usize]) {
            return false;
        }
    }
    true
}

// Whether a support has 1 to 1,000 file points that rest, corners that move, and `dim` coordinates
// in each point.
fn has_points(dim: usize, support: &Support) -> bool
    ensures { let s = support.now in let points = s.points.items in IsTrue result ↔ ((1 ≤ s.file) × (s.file ≤ 1000) × (s.file ≤ length points)
        × All (λ x. length x.coords ≡ dim) points
        × (All (λ x. x.speed ≡ pos 0) (take s.file points) × All (λ x. x.speed ≡ pos 1) (drop s.file points))) }
{
    let file = support.file as usize;
    1 <= file
        && file <= POINTS
        && file <= support.points.len()
        && have_coords(dim, &support.points)
        && have_speeds(file, &support.points)
}

fn have_points(dim: usize, supports: &[Support]) -> bool
    ensures { IsTrue result ↔ All (λ s. (1 ≤ s.file) × (s.file ≤ 1000) × (s.file ≤ length s.points.items)
        × All (λ x. length x.coords ≡ dim) s.points.items
        × (All (λ x. x.speed ≡ pos 0) (take s.file s.points.items) × All (λ x. x.speed ≡ pos 1) (drop s.file s.points.items))) supports.now }
{
    supports.iter().all(|s| has_points(dim, s))
}

// The first corner with a number out of its limits, counted from 0.
fn first_faulty_corner(corners: &[Point]) -> Option<usize>
    ensures { MatchOption result (Each (map point corners.now) IsWithinCorners) (IsFirstCorner (map point corners.now)) }
{
    for (k, x) in corners.iter().enumerate() {
        if !is_within_corners(x) {
            return Some(k);
        }
    }
    None
}

// The first fault of the file points of support `i`. The coordinates seen so far are kept in order.
fn check_file_points(alloc: Global, i: u32, points: &[Point]) -> Result<(), ShapeFault>
    requires { length points.now ≤ 1000 }
    ensures { let s = map (λ x. held (point x)) points.now in MatchResult result (λ _. (p : ℕ) → ¬ (IsFaulty s p)) (IsSupportFault i (IsFaulty s) (IsOutside s)) }
{
    let mut seen = BTreeSet::new(alloc);
    for (k, x) in points.iter().enumerate() {
        let position = k as u32 + 1;
        if !is_within_resting(x) {
            return Err(ShapeFault::Range {
                support: i,
                position,
            });
        }
        match seen.insert(x.coords.as_slice()) {
            Ok(true) => {}
            Ok(false) => return Err(ShapeFault::Repeated {
                support: i,
                position,
            }),
            Err(_) => return Err(ShapeFault::OutOfMemory),
        }
    }
    Ok(())
}

// The first fault of support `i`.
fn check_support(alloc: Global, i: u32, support: &Support) -> Result<(), ShapeFault>
    requires file { support.now.file ≤ 1000 }
    requires within { support.now.file ≤ length support.now.points.items }
    requires few { length support.now.points.items ≤ 2000 }
    requires rest { All (λ x. x.speed ≡ pos 0) (take support.now.file support.now.points.items) }
    ensures { let s = map point support.now.points.items in let f = support.now.file in
        MatchResult result (λ _. (q : ℕ) → ¬ (IsFaultyOf f s q)) (IsSupportFault i (IsFaultyOf f s) (IsOutsideOf f s)) }
{
    let (files, corners) = support.points.split_at(support.file as usize);
    check_file_points(alloc, i, files)?;
    match first_faulty_corner(corners) {
        Some(k) => Err(ShapeFault::Range {
            support: i,
            position: support.file + k as u32 + 1,
        }),
        None => Ok(()),
    }
}

fn is_dimension(dim: usize) -> bool
    ensures { IsTrue result ↔ ((1 ≤ dim) × (dim ≤ 16)) }
{
    1 <= dim && dim <= DIMENSIONS
}

// Whether dimension and supports have the shape of a problem.
fn has_problem_shape(dim: usize, supports: &[Support]) -> bool
    ensures { IsTrue result ↔ (HasProblemShape (unranked_of dim supports.now) × IsStill (unranked_of dim supports.now)) }
{
    is_dimension(dim) && has_supports(dim, supports)
}

fn has_supports(dim: usize, supports: &[Support]) -> bool
    requires { dim ≤ 16 }
    ensures { IsTrue result ↔ ((length supports.now ≡ dim)
        × (All (λ s. length s.points.items ≡ s.file) supports.now ⊎ All (λ s. length s.points.items ≡ s.file + (dim + 1)) supports.now)
        × All (λ s. (1 ≤ s.file) × (s.file ≤ 1000) × (s.file ≤ length s.points.items)
        × All (λ x. length x.coords ≡ dim) s.points.items
        × (All (λ x. x.speed ≡ pos 0) (take s.file s.points.items) × All (λ x. x.speed ≡ pos 1) (drop s.file s.points.items))) supports.now) }
{
    supports.len() == dim
        && (have_no_corners(supports) || have_corners(dim, supports))
        && have_points(dim, supports)
}

// The first fault of the points of a problem.
fn check_points(alloc: Global, dim: usize, supports: &[Support]) -> Result<(), ShapeFault>
    requires few { length supports.now ≤ 16 }
    requires counts { All (λ s. (s.file ≤ 1000) × (s.file ≤ length s.points.items) × (length s.points.items ≤ 2000)
        × All (λ x. x.speed ≡ pos 0) (take s.file s.points.items)) supports.now }
    ensures { let p = unranked_of dim supports.now in
        MatchResult result (λ _. (j q : ℕ) → 1 ≤ j → ¬ (IsFaultyOf (file_count_at p j) (support_at p j) q))
        (IsPlaceFault (λ j q. IsFaultyOf (file_count_at p j) (support_at p j) q) (λ j q. IsOutsideOf (file_count_at p j) (support_at p j) q)) }
{
    for (k, support) in supports.iter().enumerate() {
        check_support(alloc, k as u32 + 1, support)?;
    }
    Ok(())
}

/// Whether these make a problem, and the fault where they don't.
pub(crate) fn check_problem(
    alloc: Global,
    dim: usize,
    supports: &[Support],
) -> Result<(), ShapeFault>
    ensures { let given = unranked_of dim supports.now in MatchResult result (λ _. IsValidProblem given × IsStill given) (IsProblemFault given) }
{
    if !has_problem_shape(dim, supports) {
        return Err(ShapeFault::BadShape);
    }
    check_points(alloc, dim, supports)
}
