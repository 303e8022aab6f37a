ghost use Rattle.std.specs.Prelude.{◌≡◌, ◌≤◌, IfOk, length, map};
ghost use Rattle.std.specs.List.{All};
ghost use Rattle.cayley.specs.Files.{resting};
ghost use Rattle.cayley.specs.Stored.{file_point, point};

use crate::points::{FilePoint, Point, Support};
use std::alloc::Global;
use wide_int::OutOfMemory;

// Points of a problem that have the heights of these at every time.
fn resting_points(alloc: Global, points: &[FilePoint]) -> Result<Vec<Point>, OutOfMemory>
    ensures { IfOk result (λ made. map point made.items ≡ map (λ x. resting (file_point x)) points.now) }
{
    let Ok(mut made) = Vec::with_capacity(alloc, points.len()) else {
        return Err(OutOfMemory);
    };
    for x in points {
        let coords = x.coords.copy(alloc)?;
        let point = Point {
            coords,
            base: x.height,
            speed: 0,
        };
        if let Err(_) = made.push(point) {
            return Err(OutOfMemory);
        }
    }
    Ok(made)
}

/// Supports of points that have the heights of these at every time.
pub(crate) fn resting_supports(
    alloc: Global,
    supports: &[Vec<FilePoint>],
) -> Result<Vec<Support>, OutOfMemory>
    requires { All (λ s. length s.items ≤ 1000) supports.now }
    ensures files { IfOk result (λ made. map (λ s. s.file) made.items ≡ map (λ s. length s.items) supports.now) }
    ensures points { IfOk result (λ made. map (λ s. map point s.points.items) made.items ≡ map (λ s. map (λ x. resting (file_point x)) s.items) supports.now) }
{
    let Ok(mut made) = Vec::with_capacity(alloc, supports.len()) else {
        return Err(OutOfMemory);
    };
    for points in supports {
        let support = Support {
            points: resting_points(alloc, points)?,
            file: points.len() as u32,
        };
        if let Err(_) = made.push(support) {
            return Err(OutOfMemory);
        }
    }
    Ok(made)
}
