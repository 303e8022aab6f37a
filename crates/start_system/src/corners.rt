ghost use Rattle.std.specs.Prelude.{◌≡◌, ◌<◌, ◌≤◌, ◌-◌, ◌++◌, ◌≤ℤ◌, pos, suc, IfOk, OnOk, length, map, take};
ghost use Rattle.int_vectors.specs.Vectors.{Each, at};
ghost use Rattle.cayley.specs.Files.{resting};
ghost use Rattle.cayley.specs.Paths.{least_coordinates, simplex_edge, corner, direction_corners, corners};
ghost use Rattle.cayley.specs.Stored.{file_point, point};
ghost use Rattle.cayley.specs.Valid.{IsCoordinate};
ghost use Rattle.start_system.specs.Corners.{ArePoints};

use crate::lists::push;
use crate::vectors::{moved, sum_above};
use cayley::{FilePoint, Point};
use int_vectors::IntVec;
use std::alloc::Global;
use wide_int::OutOfMemory;

// The least coordinate of the points at a place, which counts from 0.
fn least_at(dim: usize, points: &[FilePoint], k: usize) -> i128
    requires points { ArePoints dim (map file_point points.now) }
    requires place { k < dim }
    ensures { result ≡ at (least_coordinates (map file_point points.now)) k }
{
    let mut least = points[0].coords.get(k);
    for c in 1..points.len() {
        least = least.min(points[c].coords.get(k));
    }
    least
}

// The least coordinate of the points at each place.
fn least_coordinates(alloc: Global, dim: usize, points: &[FilePoint]) -> Result<IntVec, OutOfMemory>
    requires { ArePoints dim (map file_point points.now) }
    ensures { IfOk result (λ least. least ≡ least_coordinates (map file_point points.now)) }
{
    let mut made = Vec::new(alloc);
    for k in 0..dim {
        push(&mut made, least_at(dim, points, k))?;
    }
    Ok(IntVec::from_vec(made))
}

// How far from m the corners of the directions stand: the greater of 1 and the greatest sum of a
// point's coordinates less m.
fn reach(dim: usize, points: &[FilePoint], m: &IntVec) -> i128
    requires dimension { dim ≤ 16 }
    requires points { ArePoints dim (map file_point points.now) }
    requires length { length m.now ≡ dim }
    requires small { Each m.now IsCoordinate }
    ensures value { result ≡ simplex_edge m.now (map file_point points.now) }
    ensures least { pos 1 ≤ℤ result }
    ensures greatest { result ≤ℤ pos 32000000 }
{
    let mut most = 1;
    for x in points {
        most = most.max(sum_above(&x.coords, m));
    }
    most
}

// The start height of direction k, where that of the own direction is 0 and isn't given; both
// count from 0.
fn start_of(starts: &[i64], own: usize, k: usize) -> i64
    requires own { own ≤ length starts.now }
    requires direction { k ≤ length starts.now }
    ensures own { k ≡ own → result ≡ pos 0 }
    ensures before { k < own → result ≡ at starts.now k }
    ensures after { own < k → result ≡ at starts.now (k - 1) }
{
    if k == own {
        0
    } else if k < own {
        starts[k]
    } else {
        starts[k - 1]
    }
}

// A corner, which has its start height at time 0 and rises with the time.
fn corner(coords: IntVec, start: i64) -> Point
    ensures { point result ≡ corner coords start }
{
    Point {
        coords,
        base: start,
        speed: 1,
    }
}

// Points that have the heights of these at every time.
fn resting(alloc: Global, points: &[FilePoint]) -> Result<Vec<Point>, OutOfMemory>
    ensures { IfOk result (λ made. map point made.items ≡ map resting (map file_point points.now)) }
{
    let mut made = Vec::new(alloc);
    for x in points {
        let point = Point {
            coords: x.coords.copy(alloc)?,
            base: x.height,
            speed: 0,
        };
        push(&mut made, point)?;
    }
    Ok(made)
}

// Appends the corners m + d e_k in order of the directions.
fn push_directions(
    alloc: Global,
    made: &mut Vec<Point>,
    m: &IntVec,
    d: i128,
    own: usize,
    starts: &[i64],
) -> Result<(), OutOfMemory>
    requires lengths { length m.now ≡ suc (length starts.now) }
    requires small { Each m.now IsCoordinate }
    requires least { pos 0 ≤ℤ d }
    requires greatest { d ≤ℤ pos 32000000 }
    requires own { own ≤ length starts.now }
    ensures { OnOk result (map point made.new.items ≡ map point made.old.items ++ direction_corners m.now d own 0 starts.now) }
{
    for k in 0..m.len() {
        let coords = moved(alloc, m, k, d)?;
        push(made, corner(coords, start_of(starts, own, k)))?;
    }
    Ok(())
}

// The points of support i, which counts from 1: its file points, then its corners.
pub(crate) fn path_points(
    alloc: Global,
    i: usize,
    points: &[FilePoint],
    starts: &[i64],
) -> Result<Vec<Point>, OutOfMemory>
    requires dimension { length starts.now ≤ 15 }
    requires least { 1 ≤ i }
    requires greatest { i ≤ suc (length starts.now) }
    requires points { ArePoints (suc (length starts.now)) (map file_point points.now) }
    ensures { IfOk result (λ made. map point made.items ≡ map resting (map file_point points.now) ++ corners i (map file_point points.now) starts.now) }
{
    let dim = starts.len() + 1;
    let m = least_coordinates(alloc, dim, points)?;
    let d = reach(dim, points, &m);
    let mut made = resting(alloc, points)?;
    push(&mut made, corner(m.copy(alloc)?, 0))?;
    push_directions(alloc, &mut made, &m, d, i - 1, starts)?;
    Ok(made)
}
