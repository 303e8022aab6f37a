ghost use Rattle.std.specs.Prelude.{◌≡◌, ◌≤◌, ◌<◌, ◌↔◌, IsTrue, MatchOption, MatchResult, IfOk, ℕ, ℤ, length, map, pos, slice_index_or};
ghost use Rattle.std.specs.List.{All};
ghost use Rattle.int_vectors.specs.Vectors.{Each};
ghost use Rattle.cayley.specs.Files.{File};
ghost use Rattle.cayley.specs.Files as files;
ghost use Rattle.cayley.specs.Shapes.{AreSecondHeights, IsBetweenFault, IsFirst, IsOutsideHeight};
ghost use Rattle.cayley.specs.Stored.{file_point, point};
ghost use Rattle.cayley.specs.Valid.{IsHeight};

use crate::faults::ShapeFault;
use crate::limits::HEIGHT;
use crate::points::{FilePoint, Point, Support};
use std::alloc::Global;
use wide_int::OutOfMemory;

// Whether there are as many heights as points in each support.
fn have_counts(supports: &[Vec<FilePoint>], second: &[Vec<i64>]) -> bool
    ensures { IsTrue result ↔ map (λ s. length s.items) second.now ≡ map (λ s. length s.items) supports.now }
{
    if supports.len() != second.len() {
        return false;
    }
    for (i, heights) in second.iter().enumerate() {
        if heights.len() != supports[i].len() {
            return false;
        }
    }
    true
}

// The first height out of its limits, counted from 0.
fn first_outside(heights: &[i64]) -> Option<usize>
    ensures { MatchOption result (Each heights.now IsHeight) (λ k. (k < length heights.now) × ¬ (IsHeight (slice_index_or heights.now k (pos 0)))
        × ((j : ℕ) → j < k → IsHeight (slice_index_or heights.now j (pos 0)))) }
{
    for (k, z) in heights.iter().enumerate() {
        if z.unsigned_abs() > HEIGHT {
            return Some(k);
        }
    }
    None
}

// The support and the position of the first height out of its limits, both counted from 1.
fn outside(second: &[Vec<i64>]) -> Option<(u32, u32)>
    requires few { length second.now ≤ 16 }
    requires counts { All (λ s. length s.items ≤ 1000) second.now }
    ensures { let given = map (λ s. s.items) second.now in
        MatchOption result (Each given (λ heights. Each heights IsHeight)) (λ place. IsFirst (IsOutsideHeight given) place.0 place.1) }
{
    for (k, heights) in second.iter().enumerate() {
        if let Some(q) = first_outside(heights) {
            return Some((k as u32 + 1, q as u32 + 1));
        }
    }
    None
}

/// Whether these are second heights of the supports' points, and the fault where they aren't.
pub(crate) fn check_second(
    supports: &[Vec<FilePoint>],
    second: &[Vec<i64>],
) -> Result<(), ShapeFault>
    requires few { length supports.now ≤ 16 }
    requires counts { All (λ s. length s.items ≤ 1000) supports.now }
    ensures { let given = map (λ s. s.items) second.now in
        (file : File) → map (λ s. map file_point s.items) supports.now ≡ file.supports → MatchResult result (λ _. AreSecondHeights file given) (IsBetweenFault file given) }
{
    if !have_counts(supports, second) {
        return Err(ShapeFault::BadShape);
    }
    match outside(second) {
        Some((support, position)) => Err(ShapeFault::Range { support, position }),
        None => Ok(()),
    }
}

// The point with its height at time 0 and this one at time 1.
fn moved(alloc: Global, x: &FilePoint, second: i64) -> Result<Point, OutOfMemory>
    requires first { IsHeight x.now.height }
    requires second { IsHeight second }
    ensures { IfOk result (λ made. point made ≡ files.moved (file_point x.now) second) }
{
    let coords = x.coords.copy(alloc)?;
    Ok(Point {
        coords,
        base: x.height,
        speed: second - x.height,
    })
}

// The points with their heights at time 0 and these at time 1.
fn moved_points(
    alloc: Global,
    points: &[FilePoint],
    second: &[i64],
) -> Result<Vec<Point>, OutOfMemory>
    requires count { length second.now ≡ length points.now }
    requires first { All (λ x. IsHeight x.height) points.now }
    requires second { All IsHeight second.now }
    ensures { IfOk result (λ made. map point made.items ≡ files.moved_points (map file_point points.now) second.now) }
{
    let Ok(mut made) = Vec::with_capacity(alloc, points.len()) else {
        return Err(OutOfMemory);
    };
    for (k, x) in points.iter().enumerate() {
        let point = moved(alloc, x, second[k])?;
        if let Err(_) = made.push(point) {
            return Err(OutOfMemory);
        }
    }
    Ok(made)
}

/// Supports of the points with their heights at time 0 and these at time 1.
pub(crate) fn moved_supports(
    alloc: Global,
    supports: &[Vec<FilePoint>],
    second: &[Vec<i64>],
) -> Result<Vec<Support>, OutOfMemory>
    requires few { All (λ s. length s.items ≤ 1000) supports.now }
    requires counts { map (λ s. length s.items) second.now ≡ map (λ s. length s.items) supports.now }
    requires first { All (λ s. All (λ x. IsHeight x.height) s.items) supports.now }
    requires second { All (λ s. All IsHeight s.items) second.now }
    ensures files { IfOk result (λ made. map (λ s. s.file) made.items ≡ map (λ s. length s.items) supports.now) }
    ensures points { IfOk result (λ made. map (λ s. map point s.points.items) made.items
        ≡ files.moved_supports (map (λ s. map file_point s.items) supports.now) (map (λ s. s.items) second.now)) }
{
    let Ok(mut made) = Vec::with_capacity(alloc, supports.len()) else {
        return Err(OutOfMemory);
    };
    for (k, points) in supports.iter().enumerate() {
        let support = Support {
            points: moved_points(alloc, points, &second[k])?,
            file: points.len() as u32,
        };
        if let Err(_) = made.push(support) {
            return Err(OutOfMemory);
        }
    }
    Ok(made)
}
