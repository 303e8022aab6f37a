// How much each point of a line's supports lies over the pair of its support, times the denominator.
ghost use Rattle.std.specs.Prelude.{◌≡◌, ◌+◌, ◌<◌, ◌↔◌, ◌⊎◌, ◌-ℤ◌, ◌*ℤ◌, MatchOption, MatchResult, IsTrue, length, map};
ghost use Rattle.wide_int.specs.Whole.{FitsWhole};
ghost use Rattle.int_vectors.specs.Vectors.{Each};
ghost use Rattle.cayley.specs.Files.{plain_problem};
ghost use Rattle.cayley.specs.Resting as resting;
ghost use Rattle.cayley.specs.Stored.{file_point};
ghost use Rattle.cell_certificate.specs.Judgements.{HasSums, HasLevel};
ghost use Rattle.cell_certificate.specs.Sides.{seen, IsNear, IsPairOf, FitsSupport};
ghost use Rattle.cell_certificate.specs.Sums.{FitsRise};
ghost use Rattle.cell_certificate.specs.Written.{IsListed};
ghost use Rattle.homotopy_rows.specs.Answers.{IsLineFault};
ghost use Rattle.homotopy_rows.specs.Flat.{IsFlatAt, IsFlat};
ghost use Rattle.homotopy_rows.specs.Powers.{sums_over, sums_of};
ghost use Rattle.homotopy_rows.specs.Points.{IsLevelPair, IsTieAt, IsSumAt};

use crate::rows::RowFault;
use cayley::{FilePoint, LiftFile, Normal};
use int_vectors::{IntVec, dot_between_unchecked};
use listing_text::ListedCell;
use std::alloc::Global;

// How much higher `x` is than `a`.
fn height_above(a: &FilePoint, x: &FilePoint) -> i128
    ensures { result ≡ x.now.height -ℤ a.now.height }
{
    x.height as i128 - a.height as i128
}

// A product that fits.
fn times(a: i128, b: i128) -> i128
    requires { FitsWhole (a *ℤ b) }
    ensures { result ≡ a *ℤ b }
{
    a * b
}

// The sum of point `x` against point `a`, whose numbers all fit.
fn rise(normal: &Normal, a: &FilePoint, x: &FilePoint) -> i128
    requires a_near { IsNear (length normal.now.v) (file_point a.now) }
    requires x_near { IsNear (length normal.now.v) (file_point x.now) }
    requires fits { FitsRise normal.now.den normal.now.v (seen a.now) (seen x.now) }
    ensures value { result ≡ resting.rise normal.now.den normal.now.v (seen a.now) (seen x.now) }
    ensures fits { FitsWhole result }
{
    dot_between_unchecked(
        times(normal.den, height_above(a, x)),
        a.coords.as_slice(),
        x.coords.as_slice(),
        normal.v.as_slice(),
    )
}

// Whether a position is one of the pair.
fn is_of_pair(pair: (u32, u32), position: usize) -> bool
    ensures { IsTrue result ↔ ((position ≡ pair.0) ⊎ (position ≡ pair.1)) }
{
    position == pair.0 as usize || position == pair.1 as usize
}

// The sum of the point at a place, which counts from 0. `None` exactly where it is a further point
// of the sum 0.
fn sum_at(points: &[FilePoint], pair: (u32, u32), place: usize, normal: &Normal) -> Option<i128>
    requires near { Each (map file_point points.now) (IsNear (length normal.now.v)) }
    requires pair { IsPairOf (length points.now) pair }
    requires place { place < length points.now }
    requires fits { FitsSupport normal.now.den normal.now.v (map seen points.now) pair.0 pair.1 }
    requires level { IsLevelPair normal.now.den normal.now.v (map seen points.now) pair.0 pair.1 }
    ensures { let den = normal.now.den in let v = normal.now.v in let s = map seen points.now in
        MatchOption result (IsTieAt den v s pair.0 pair.1 (place + 1)) (λ w. IsSumAt den v s pair.0 pair.1 (place + 1) w) }
{
    if is_of_pair(pair, place + 1) {
        return Some(0);
    }
    let sum = rise(normal, &points[pair.0 as usize - 1], &points[place]);
    if sum == 0 { None } else { Some(sum) }
}

// The sums of a support's points, each against the first of the pair. `Flat` with the line's number
// exactly where that of a further point is 0.
fn support_sums(
    alloc: Global,
    points: &[FilePoint],
    pair: (u32, u32),
    listed: &ListedCell,
) -> Result<IntVec, RowFault>
    requires near { Each (map file_point points.now) (IsNear (length listed.now.normal.v)) }
    requires pair { IsPairOf (length points.now) pair }
    requires fits { FitsSupport listed.now.normal.den listed.now.normal.v (map seen points.now) pair.0 pair.1 }
    requires level { IsLevelPair listed.now.normal.den listed.now.normal.v (map seen points.now) pair.0 pair.1 }
    ensures { let den = listed.now.normal.den in let v = listed.now.normal.v in let s = map seen points.now in
        MatchResult result (λ ws. (ws ≡ sums_over den v s pair.0) × ¬ (IsFlatAt den v s pair.0 pair.1)) (IsLineFault (IsFlatAt den v s pair.0 pair.1) listed.now.line) }
{
    let mut sums = Vec::new(alloc);
    if sums.reserve(points.len()).is_err() {
        return Err(RowFault::OutOfMemory);
    }
    for place in 0..points.len() {
        if sums.reserve(1).is_err() {
            return Err(RowFault::OutOfMemory);
        }
        let Some(sum) = sum_at(points, pair, place, &listed.normal) else {
            return Err(RowFault::Flat { line: listed.line });
        };
        sums.push_reserved(sum);
    }
    Ok(IntVec::from_vec(sums))
}

/// The sums of all points of a line's supports, each against the first of its pair. `Flat` with the
/// line's number exactly where that of a further point is 0.
pub(crate) fn all_sums(
    alloc: Global,
    file: &LiftFile,
    listed: &ListedCell,
) -> Result<Vec<IntVec>, RowFault>
    requires listed { IsListed (plain_problem file.now) listed.now }
    requires fits { HasSums (plain_problem file.now) listed.now }
    requires level { HasLevel (plain_problem file.now) listed.now }
    ensures { let p = plain_problem file.now in
        MatchResult result (λ rows. (rows.items ≡ sums_of p listed.now) × ¬ (IsFlat p listed.now)) (IsLineFault (IsFlat p listed.now) listed.now.line) }
{
    let mut sums = Vec::new(alloc);
    let pairs = listed.cell.pairs();
    for k in 0..file.dim() {
        if sums.reserve(1).is_err() {
            return Err(RowFault::OutOfMemory);
        }
        let own = match support_sums(alloc, file.support(k as u32 + 1), pairs[k], listed) {
            Ok(own) => own,
            Err(fault) => return Err(fault),
        };
        sums.push_reserved(own);
    }
    Ok(sums)
}
