// Heights for given points.
ghost use Rattle.std.specs.Prelude.{◌≡◌, ◌+◌, ◌≤◌, IfOk, OnOk, length, map};
ghost use Rattle.int_vectors.specs.Vectors.{Each};
ghost use Rattle.cayley.specs.Stored.{file_point};
ghost use Rattle.cayley.specs.Valid.{AreDistinct, IsCoordinate};
ghost use Rattle.family_gen.specs.Generator.{number};
ghost use Rattle.family_gen.specs.Lifts.{lift_file, lifted, lifted_supports};

use crate::generator::Generator;
use cayley::{FilePoint, LiftFile, Version};
use int_vectors::IntVec;
use std::alloc::Global;
use wide_int::OutOfMemory;

// The points with the next heights, in order.
fn lifted_points(
    alloc: Global,
    points: Vec<IntVec>,
    generator: &mut Generator,
) -> Result<Vec<FilePoint>, OutOfMemory>
    ensures points { IfOk result (λ made. map file_point made.items ≡ lifted generator.old.last 0 points.items) }
    ensures last { OnOk result (generator.new.last ≡ number generator.old.last (length points.items)) }
{
    let Ok(mut made) = Vec::with_capacity(alloc, points.len()) else {
        return Err(OutOfMemory);
    };
    for coords in points {
        let height = generator.height();
        if let Err(_) = made.push(FilePoint { coords, height }) {
            return Err(OutOfMemory);
        }
    }
    Ok(made)
}

// The supports with the next heights, support by support.
fn lifted_all(
    alloc: Global,
    supports: Vec<Vec<IntVec>>,
    generator: &mut Generator,
) -> Result<Vec<Vec<FilePoint>>, OutOfMemory>
    ensures { IfOk result (λ made. map (λ s. map file_point s.items) made.items ≡ lifted_supports generator.old.last 0 (map (λ s. s.items) supports.items)) }
{
    let Ok(mut made) = Vec::with_capacity(alloc, supports.len()) else {
        return Err(OutOfMemory);
    };
    for points in supports {
        let support = lifted_points(alloc, points, generator)?;
        if let Err(_) = made.push(support) {
            return Err(OutOfMemory);
        }
    }
    Ok(made)
}

/// The file of these supports with heights from the generator, drawn support by support and point by
/// point, and without start heights.
///
/// There are `dim` supports, from 1 to 16. Each has 1 to 1,000 points of `dim` coordinates from
/// -1,000,000 to 1,000,000, no two the same ones. A height is the upper 24 bits of a number of the
/// generator `x -> 6364136223846793005 x + 1442695040888963407 mod 2^64`, which starts behind `seed`.
/// `OutOfMemory` is the one refusal.
pub fn lift(
    alloc: Global,
    dim: usize,
    supports: Vec<Vec<IntVec>>,
    seed: u64,
) -> Result<LiftFile, OutOfMemory>
    requires least { 1 ≤ dim }
    requires greatest { dim ≤ 16 }
    requires count { length supports.items ≡ dim }
    requires counts { Each supports.items (λ s. (1 ≤ length s.items) × (length s.items ≤ 1000)) }
    requires points { Each supports.items (λ s. Each s.items (λ x. length x ≡ dim)) }
    requires limits { Each supports.items (λ s. Each s.items (λ x. Each x IsCoordinate)) }
    requires distinct { Each supports.items (λ s. AreDistinct s.items) }
    ensures { IfOk result (λ file. file ≡ lift_file dim (map (λ s. s.items) supports.items) seed) }
{
    let mut generator = Generator { last: seed };
    let lifted = lifted_all(alloc, supports, &mut generator)?;
    Ok(LiftFile::from_parts(Version::First, dim, lifted, None))
}
