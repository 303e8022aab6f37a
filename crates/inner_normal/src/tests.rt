ghost use Rattle.std.specs.Prelude.{pos, ◌<ℤ◌};

use crate::{CellFault, MovingNormal, normal_from, normal_of, target_normal};
use cayley::{Cell, Normal, Point, Problem, ShapeFault, Support};
use int_vectors::IntVec;
use reduced_rows::reduce;
use std::alloc::Global;
use std::test::Fail;

// Two squares, and the corners of their path.
const FIRST: [(&[i128], i64, i64); 7] = [
    (&[0, 0], 3, 0),
    (&[1, 0], 10, 0),
    (&[0, 1], 20, 0),
    (&[1, 1], 90, 0),
    (&[0, 0], 0, 1),
    (&[2, 0], 0, 1),
    (&[0, 2], 100, 1),
];

const SECOND: [(&[i128], i64, i64); 7] = [
    (&[0, 0], 5, 0),
    (&[1, 0], 40, 0),
    (&[0, 1], 9, 0),
    (&[1, 1], 1, 0),
    (&[0, 0], 0, 1),
    (&[2, 0], 100, 1),
    (&[0, 2], 0, 1),
];

// Primes near the greatest difference of two coordinates.
const PRIMES: [i128; 7] = [
    1_999_993, 1_999_979, 1_999_969, 1_999_957, 1_999_891, 1_999_889, 1_999_871,
];

fn support(alloc: Global, given: &[(&[i128], i64, i64)], file: u32) -> Result<Support, Fail> {
    let mut points = Vec::new(alloc);
    for (coords, base, speed) in given {
        let coords = IntVec::from_slice(alloc, coords)?;
        points.push(Point {
            coords,
            base: *base,
            speed: *speed,
        })?;
    }
    Ok(Support { points, file })
}

fn squares(alloc: Global) -> Result<Problem, Fail> {
    let mut supports = Vec::new(alloc);
    for points in [&FIRST, &SECOND] {
        supports.push(support(alloc, points, 4)?)?;
    }
    Ok(Problem::new(alloc, 2, supports)?)
}

// Two points for each side, which differ by it in one coordinate, and by `rise` in height.
fn box_of(alloc: Global, sides: &[i128], rise: i64) -> Result<Problem, Fail> {
    let mut supports = Vec::new(alloc);
    for (place, side) in sides.iter().enumerate() {
        let mut from = Vec::new(alloc);
        let mut to = Vec::new(alloc);
        for k in 0..sides.len() {
            from.push(if k == place { -1_000_000 } else { 0 })?;
            to.push(if k == place {
                side.wrapping_sub(1_000_000)
            } else {
                0
            })?;
        }
        let from = IntVec::from_slice(alloc, &from)?;
        let to = IntVec::from_slice(alloc, &to)?;
        let mut points = Vec::new(alloc);
        points.push(Point {
            coords: from,
            base: -1_000_000_000,
            speed: 0,
        })?;
        points.push(Point {
            coords: to,
            base: rise.wrapping_sub(1_000_000_000),
            speed: 0,
        })?;
        supports.push(Support { points, file: 2 })?;
    }
    Ok(Problem::new(alloc, sides.len(), supports)?)
}

fn answer(
    alloc: Global,
    problem: &Problem,
    pairs: &[(u32, u32)],
) -> Result<Result<MovingNormal, CellFault>, Fail> {
    let Some(cell) = Cell::new(alloc, pairs) else {
        return Err(Fail::from("not a cell"));
    };
    if !problem.contains(&cell) {
        return Err(Fail::from("not a cell of the problem"));
    }
    Ok(normal_of(alloc, problem, &cell))
}

// The cell of a box.
fn box_answer(
    alloc: Global,
    sides: &[i128],
    rise: i64,
) -> Result<Result<MovingNormal, CellFault>, Fail> {
    let problem = box_of(alloc, sides, rise)?;
    answer(alloc, &problem, &[(1, 2); 7][..sides.len().min(7)])
}

#[test]
fn a_normal_that_moves(rt: HostRuntime) -> Result<(), Fail> {
    let problem = squares(rt.alloc())?;
    let moving = answer(rt.alloc(), &problem, &[(1, 6), (4, 5)])??;
    assert_eq!(rt; moving.p.as_slice(), [3, -5].as_slice());
    assert_eq!(rt; moving.q.as_slice(), [-1, 3].as_slice());
    assert_eq!(rt; moving.den, 2);
    Ok(())
}

#[test]
fn a_dependent_cell_and_its_kernel(rt: HostRuntime) -> Result<(), Fail> {
    let problem = squares(rt.alloc())?;
    let answer = answer(rt.alloc(), &problem, &[(1, 4), (1, 4)])?;
    if let Err(CellFault::Dependent { kernel }) = &answer {
        assert_eq!(rt; kernel.as_slice(), [-1, 1].as_slice());
    } else {
        assert!(rt; false, "the cell is dependent");
    }
    Ok(())
}

#[test]
fn a_normal_of_reduced_rows(rt: HostRuntime) -> Result<(), Fail> {
    let problem = squares(rt.alloc())?;
    let cell = Cell::new(rt.alloc(), &[(1, 6), (4, 5)]);
    if let Some(cell) = &cell {
        if problem.contains(cell) {
            let rows = problem.edge_rows(rt.alloc(), cell)?;
            let reduced = reduce(rt.alloc(), rows, problem.dim())?;
            let moving = normal_from(rt.alloc(), &reduced)?;
            assert_eq!(rt; moving.p.as_slice(), [3, -5].as_slice());
            assert_eq!(rt; moving.q.as_slice(), [-1, 3].as_slice());
            assert_eq!(rt; moving.den, 2);
        } else {
            assert!(rt; false, "a cell of the problem");
        }
    } else {
        assert!(rt; false, "pairs that rise");
    }
    Ok(())
}

#[test]
fn the_normal_of_a_box(rt: HostRuntime) -> Result<(), Fail> {
    let moving = box_answer(rt.alloc(), &[4, 6], 2)??;
    assert_eq!(rt; moving.p.as_slice(), [-6, -4].as_slice());
    assert_eq!(rt; moving.q.as_slice(), [0, 0].as_slice());
    assert_eq!(rt; moving.den, 12);
    let moving = box_answer(rt.alloc(), &PRIMES[..6], 5_317_472)??;
    assert_eq!(rt;
        moving.den,
        63_989_696_609_439_490_295_102_903_391_934_811_149
    );
    Ok(())
}

#[test]
fn numbers_that_do_not_fit(rt: HostRuntime) -> Result<(), Fail> {
    let seven = box_answer(rt.alloc(), &PRIMES, 0)?;
    assert!(rt; matches!(seven, Err(CellFault::Overflow)));
    let steep = box_answer(rt.alloc(), &PRIMES[..6], 5_317_473)?;
    assert!(rt; matches!(steep, Err(CellFault::Overflow)));
    Ok(())
}

// A normal that rests, in lowest terms.
fn lowest(alloc: Global, p: &[i128], den: i128) -> Result<Normal, Fail>
    requires { pos 0 <ℤ den }
{
    let p = IntVec::from_slice(alloc, p)?;
    let q = IntVec::from_slice(alloc, &[0, 0])?;
    Ok(target_normal(MovingNormal { p, q, den }))
}

#[test]
fn normals_in_lowest_terms(rt: HostRuntime) -> Result<(), Fail> {
    let normal = lowest(rt.alloc(), &[-14, 22], 2)?;
    assert_eq!(rt; normal.v.as_slice(), [-7, 11].as_slice());
    assert_eq!(rt; normal.den, 1);
    let normal = lowest(rt.alloc(), &[6, -4], 4)?;
    assert_eq!(rt; normal.v.as_slice(), [3, -2].as_slice());
    assert_eq!(rt; normal.den, 2);
    let normal = lowest(rt.alloc(), &[6, -4], 1)?;
    assert_eq!(rt; normal.v.as_slice(), [6, -4].as_slice());
    assert_eq!(rt; normal.den, 1);
    let normal = lowest(rt.alloc(), &[0, 0], 5)?;
    assert_eq!(rt; normal.v.as_slice(), [0, 0].as_slice());
    assert_eq!(rt; normal.den, 1);
    Ok(())
}
