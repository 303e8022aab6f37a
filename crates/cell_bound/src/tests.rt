use crate::every_cell_fits;
use cayley::{Point, Problem, Support};
use int_vectors::IntVec;
use std::alloc::Global;
use std::test::Fail;

// The origin and one point, both at height 0.
fn two_points(alloc: Global, coords: &[i128]) -> Result<Support, Fail> {
    let mut points = Vec::with_capacity(alloc, 2)?;
    points.push(Point {
        coords: IntVec::from_slice(alloc, &[0, 0, 0])?,
        base: 0,
        speed: 0,
    })?;
    points.push(Point {
        coords: IntVec::from_slice(alloc, coords)?,
        base: 0,
        speed: 0,
    })?;
    Ok(Support { points, file: 2 })
}

// Three supports of these two points.
fn thrice(alloc: Global, coords: &[i128]) -> Result<Problem, Fail> {
    let mut supports = Vec::with_capacity(alloc, 3)?;
    for _ in 0..3 {
        supports.push(two_points(alloc, coords)?)?;
    }
    Ok(Problem::new(alloc, 3, supports)?)
}

// The points of a support differ by at most twice 2^20 - 1, so that the product over the three is
// below 2^63 and twice its square below 2^127; the next greater difference makes it 2^63.
#[test]
fn the_bound_from_both_sides(rt: HostRuntime) -> Result<(), Fail> {
    let inside = thrice(rt.alloc(), &[1_000_000, -48_575, 0])?;
    assert!(rt; every_cell_fits(&inside));
    let outside = thrice(rt.alloc(), &[1_000_000, -48_576, 0])?;
    assert!(rt; !every_cell_fits(&outside));
    Ok(())
}
