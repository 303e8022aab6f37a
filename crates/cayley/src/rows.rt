ghost use Rattle.std.specs.Prelude.{◌≡◌, ◌+◌, ◌<◌, ◌≤◌, ◌++◌, ◌∷◌, [], ◌-ℤ◌, IfOk, OnOk, map, length};
ghost use Rattle.std.specs.List.{All};
ghost use Rattle.wide_int.specs.Whole.{FitsWhole};
ghost use Rattle.int_vectors.specs.Fits.{AllFit};
ghost use Rattle.int_vectors.specs.Vectors.{Each, sub};
ghost use Rattle.cayley.specs.Cells.{EachPair};
ghost use Rattle.cayley.specs.Problems.{point_at};
ghost use Rattle.cayley.specs.Rows.{edge_row, edge_rows_from, unit_row};
ghost use Rattle.cayley.specs.Stored.{point};
ghost use Rattle.cayley.specs.Valid.{IsCornerCoordinate};

use crate::points::{Point, Support};
use int_vectors::IntVec;
use std::alloc::Global;
use wide_int::OutOfMemory;

fn push(row: &mut Vec<i128>, entry: i128) -> Result<(), OutOfMemory>
    ensures { OnOk result (row.new.items ≡ row.old.items ++ entry ∷ []) }
{
    match row.push(entry) {
        Ok(()) => Ok(()),
        Err(_) => Err(OutOfMemory),
    }
}

// Appends the differences of coordinates.
fn push_differences(row: &mut Vec<i128>, to: &[i128], from: &[i128]) -> Result<(), OutOfMemory>
    requires lengths { length to.now ≡ length from.now }
    requires to_small { Each to.now IsCornerCoordinate }
    requires from_small { Each from.now IsCornerCoordinate }
    ensures { OnOk result (row.new.items ≡ row.old.items ++ sub to.now from.now) }
{
    for (k, x) in to.iter().enumerate() {
        push(row, *x - from[k])?;
    }
    Ok(())
}

fn difference(to: i64, from: i64) -> i128
    ensures value { result ≡ to -ℤ from }
    ensures fits { FitsWhole result }
{
    to as i128 - from as i128
}

// Appends n numbers that are 0 but for a 1 in a place, counted from 0.
fn push_unit(row: &mut Vec<i128>, n: usize, place: usize) -> Result<(), OutOfMemory>
    requires place { place < n }
    requires short { length row.old.items + n ≤ 1000 }
    ensures { OnOk result (row.new.items ≡ row.old.items ++ unit_row n place) }
{
    let start = row.len();
    if let Err(_) = row.resize(start + n, 0) {
        return Err(OutOfMemory);
    }
    row[start + place] = 1;
    Ok(())
}

// The numbers of the row of two points, in a place counted from 0.
fn entries_of(
    alloc: Global,
    dim: usize,
    place: usize,
    a: &Point,
    b: &Point,
) -> Result<Vec<i128>, OutOfMemory>
    requires dim { dim ≤ 16 }
    requires place { place < dim }
    requires a_fits { (length a.now.coords ≡ dim) × Each a.now.coords IsCornerCoordinate }
    requires b_fits { (length b.now.coords ≡ dim) × Each b.now.coords IsCornerCoordinate }
    ensures value { IfOk result (λ row. row.items ≡ edge_row dim place (point a.now) (point b.now)) }
    ensures fits { IfOk result (λ row. AllFit row.items) }
{
    let Ok(mut row) = Vec::with_capacity(alloc, 2 * dim + 2) else {
        return Err(OutOfMemory);
    };
    push_differences(&mut row, b.coords.as_slice(), a.coords.as_slice())?;
    push(&mut row, difference(b.base, a.base))?;
    push(&mut row, difference(b.speed, a.speed))?;
    push_unit(&mut row, dim, place)?;
    Ok(row)
}

/// The row of a pair of positions of a support.
pub(crate) fn pair_row(
    alloc: Global,
    dim: usize,
    place: usize,
    points: &[Point],
    pair: (u32, u32),
) -> Result<IntVec, OutOfMemory>
    requires dim { dim ≤ 16 }
    requires place { place < dim }
    requires points { All (λ x. (length x.coords ≡ dim) × Each x.coords IsCornerCoordinate) points.now }
    requires positions { (1 ≤ pair.0) × (pair.0 < pair.1) × (pair.1 ≤ length points.now) }
    ensures { let s = map point points.now in IfOk result (λ row. row ≡ edge_row dim place (point_at s pair.0) (point_at s pair.1)) }
{
    let a = &points[pair.0 as usize - 1];
    let b = &points[pair.1 as usize - 1];
    let entries = entries_of(alloc, dim, place, a, b)?;
    Ok(IntVec::from_vec(entries))
}

/// The rows of pairs of points of the supports.
pub(crate) fn rows_of(
    alloc: Global,
    dim: usize,
    supports: &[Support],
    pairs: &[(u32, u32)],
) -> Result<Vec<IntVec>, OutOfMemory>
    requires dim { dim ≤ 16 }
    requires count { length supports.now ≡ dim }
    requires points { All (λ s. All (λ x. (length x.coords ≡ dim) × Each x.coords IsCornerCoordinate) s.points.items) supports.now }
    requires positions { EachPair (map (λ s. map point s.points.items) supports.now) pairs.now (λ s a b. (1 ≤ a) × (a < b) × (b ≤ length s)) }
    ensures { IfOk result (λ rows. rows.items ≡ edge_rows_from dim 0 (map (λ s. map point s.points.items) supports.now) pairs.now) }
{
    let Ok(mut rows) = Vec::with_capacity(alloc, dim) else {
        return Err(OutOfMemory);
    };
    for (i, support) in supports.iter().enumerate() {
        let row = pair_row(alloc, dim, i, &support.points, pairs[i])?;
        if let Err(_) = rows.push(row) {
            return Err(OutOfMemory);
        }
    }
    Ok(rows)
}
