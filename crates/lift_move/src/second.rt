ghost use Rattle.std.specs.Prelude.{◌≡◌, IfOk, length, map};
ghost use Rattle.std.specs.Option.{option_map};
ghost use Rattle.cayley.specs.Shapes.{AreSecondHeights};
ghost use Rattle.cayley.specs.Stored.{file_point};
ghost use Rattle.lift_move.specs.Segments as segments;
ghost use Rattle.cayley.specs.Files.{between_problem, plain_problem};
ghost use Rattle.cayley.specs.Problems.{version1};
ghost use Rattle.lift_move.specs.Segments.{end_of, second_of};

use cayley::{FilePoint, LiftFile};
use std::alloc::Global;
use wide_int::OutOfMemory;

// The points with these heights.
fn lifted_points(
    alloc: Global,
    points: &[FilePoint],
    heights: &[i64],
) -> Result<Vec<FilePoint>, OutOfMemory>
    requires { length heights.now ≡ length points.now }
    ensures { IfOk result (λ made. map file_point made.items ≡ segments.lifted_points (map file_point points.now) heights.now) }
{
    let Ok(mut made) = Vec::with_capacity(alloc, points.len()) else {
        return Err(OutOfMemory);
    };
    for (k, x) in points.iter().enumerate() {
        let coords = x.coords.copy(alloc)?;
        let point = FilePoint {
            coords,
            height: heights[k],
        };
        if let Err(_) = made.push(point) {
            return Err(OutOfMemory);
        }
    }
    Ok(made)
}

// The supports with these heights.
fn lifted_supports(
    alloc: Global,
    supports: &[Vec<FilePoint>],
    second: &[Vec<i64>],
) -> Result<Vec<Vec<FilePoint>>, OutOfMemory>
    requires { map (λ s. length s.items) second.now ≡ map (λ s. length s.items) supports.now }
    ensures { IfOk result (λ made. map (λ s. map file_point s.items) made.items
        ≡ segments.lifted_supports (map (λ s. map file_point s.items) supports.now) (map (λ s. s.items) second.now)) }
{
    let Ok(mut made) = Vec::with_capacity(alloc, supports.len()) else {
        return Err(OutOfMemory);
    };
    for (k, points) in supports.iter().enumerate() {
        let support = lifted_points(alloc, points, &second[k])?;
        if let Err(_) = made.push(support) {
            return Err(OutOfMemory);
        }
    }
    Ok(made)
}

// The same numbers.
fn copied(alloc: Global, numbers: &[i64]) -> Result<Vec<i64>, OutOfMemory>
    ensures { IfOk result (λ made. made.items ≡ numbers.now) }
{
    let mut made = Vec::new(alloc);
    match made.extend_from_slice(numbers) {
        Ok(()) => Ok(made),
        Err(_) => Err(OutOfMemory),
    }
}

// The same start lines.
fn copied_all(alloc: Global, starts: &[Vec<i64>]) -> Result<Vec<Vec<i64>>, OutOfMemory>
    ensures { IfOk result (λ made. map (λ s. s.items) made.items ≡ map (λ s. s.items) starts.now) }
{
    let Ok(mut made) = Vec::with_capacity(alloc, starts.len()) else {
        return Err(OutOfMemory);
    };
    for start in starts {
        let next = copied(alloc, start)?;
        if let Err(_) = made.push(next) {
            return Err(OutOfMemory);
        }
    }
    Ok(made)
}

// The same start heights, if there are any.
fn copied_starts(
    alloc: Global,
    starts: Option<&[Vec<i64>]>,
) -> Result<Option<Vec<Vec<i64>>>, OutOfMemory>
    ensures { IfOk result (λ made. option_map (λ ss. map (λ s. s.items) ss.items) made ≡ option_map (λ ss. map (λ s. s.items) ss.now) starts.entry) }
{
    match starts {
        Some(starts) => match copied_all(alloc, starts) {
            Ok(made) => Ok(Some(made)),
            Err(fault) => Err(fault),
        },
        None => Ok(None),
    }
}

/// The file with the same points and start lines and with the second heights, one number for each
/// point, from -1,000,000,000 to 1,000,000,000. `OutOfMemory` is the one refusal.
pub fn second_file(
    alloc: Global,
    file: &LiftFile,
    second: &[Vec<i64>],
) -> Result<LiftFile, OutOfMemory>
    requires heights { AreSecondHeights file.now (map (λ s. s.items) second.now) }
    ensures value { IfOk result (λ made. made ≡ second_of file.now (map (λ s. s.items) second.now)) }
    // In version 1 its points are the end of the segment from the file to the second heights.
    ensures end { file.now.version ≡ version1 → IfOk result (λ made. plain_problem made ≡ end_of (between_problem file.now (map (λ s. s.items) second.now))) }
{
    let supports = lifted_supports(alloc, file.supports(), second)?;
    let starts = copied_starts(alloc, file.starts())?;
    Ok(LiftFile::from_parts(file.form(), file.dim(), supports, starts))
}
