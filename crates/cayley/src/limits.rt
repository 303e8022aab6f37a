ghost use Rattle.std.specs.Prelude.{◌≡◌, ◌≤◌, ◌↔◌, IsTrue, unsigned_abs};
ghost use Rattle.int_vectors.specs.Vectors.{Each};
ghost use Rattle.cayley.specs.Stored.{file_point, held, point};
ghost use Rattle.cayley.specs.Valid.{IsCornerBase, IsHeight, IsStart, IsWithinCorners, IsWithinFile};

use crate::points::{FilePoint, Point};

/// The greatest dimension.
pub const DIMENSIONS: usize = 16;

/// The greatest number of points of a support of a file.
pub const POINTS: usize = 1_000;

/// The greatest absolute value of a coordinate of a file point.
pub const COORDINATE: u128 = 1_000_000;

/// The greatest absolute value of a height.
pub const HEIGHT: u64 = 1_000_000_000;

/// The greatest absolute value of a coordinate of a corner.
pub const CORNER: u128 = 33_000_000;

// Whether no coordinate has an absolute value above `most`.
pub(crate) fn are_within(coords: &[i128], most: u128) -> bool
    ensures { IsTrue result ↔ Each coords.now (λ z. unsigned_abs z ≤ most) }
{
    coords.iter().all(|z| z.unsigned_abs() <= most)
}

/// Whether the numbers of a file point are within their limits.
pub(crate) fn is_within_file(x: &FilePoint) -> bool
    ensures { IsTrue result ↔ IsWithinFile (file_point x.now) }
{
    are_within(x.coords.as_slice(), COORDINATE) && x.height.unsigned_abs() <= HEIGHT
}

/// Whether the numbers of a file point of a problem that rests are within their limits.
pub(crate) fn is_within_resting(x: &Point) -> bool
    ensures { IsTrue result ↔ IsWithinFile (held (point x.now)) }
{
    are_within(x.coords.as_slice(), COORDINATE) && x.base.unsigned_abs() <= HEIGHT
}

fn is_corner_base(base: i64) -> bool
    ensures { IsTrue result ↔ IsCornerBase base }
{
    0 <= base && base <= HEIGHT as i64
}

/// Whether the numbers of a corner are within their limits.
pub(crate) fn is_within_corners(x: &Point) -> bool
    ensures { IsTrue result ↔ IsWithinCorners (point x.now) }
{
    are_within(x.coords.as_slice(), CORNER) && is_corner_base(x.base)
}

/// Whether start heights are within their limits.
pub(crate) fn are_starts(heights: &[i64]) -> bool
    ensures { IsTrue result ↔ Each heights.now IsStart }
{
    heights.iter().all(|z| 1 <= *z && *z <= HEIGHT as i64)
}
