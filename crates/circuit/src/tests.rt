ghost use Rattle.std.specs.Prelude.{◌-◌, ◌≤◌, IsTrue};
ghost use Rattle.cayley.specs.Cells.{IsOf};
ghost use Rattle.cayley.specs.Dependencies.{IsFurtherAt};

use crate::{CellFault, Sign, circuit_from, circuit_of, circuit_with};
use cayley::{Cell, FilePoint, LiftFile, Point, Problem, Support};
use inner_normal::Eliminated;
use int_vectors::IntVec;
use std::alloc::Global;
use std::test::Fail;

// The first square, and the corners of its path.
const FIRST: [(&[i128], i64, i64); 7] = [
    (&[0, 0], 3, 0),
    (&[1, 0], 10, 0),
    (&[0, 1], 20, 0),
    (&[1, 1], 90, 0),
    (&[0, 0], 0, 1),
    (&[2, 0], 0, 1),
    (&[0, 2], 331, 1),
];

const SECOND: [(&[i128], i64, i64); 7] = [
    (&[0, 0], 5, 0),
    (&[1, 0], 40, 0),
    (&[0, 1], 9, 0),
    (&[1, 1], 1, 0),
    (&[0, 0], 0, 1),
    (&[2, 0], 365, 1),
    (&[0, 2], 0, 1),
];

fn support(alloc: Global, given: &[(&[i128], i64, i64)]) -> Result<Support, Fail> {
    let mut points = Vec::new(alloc);
    for (coords, base, speed) in given {
        let coords = IntVec::from_slice(alloc, coords)?;
        points.push(Point {
            coords,
            base: *base,
            speed: *speed,
        })?;
    }
    Ok(Support { points, file: 4 })
}

// The path of the two squares.
fn squares(alloc: Global) -> Result<Problem, Fail> {
    let mut supports = Vec::new(alloc);
    for points in [&FIRST, &SECOND] {
        supports.push(support(alloc, points)?)?;
    }
    Ok(Problem::new(alloc, 2, supports)?)
}

// The file of the two squares.
fn squares_file(alloc: Global) -> Result<LiftFile, Fail> {
    let mut supports = Vec::new(alloc);
    for points in [&FIRST, &SECOND] {
        let mut made = Vec::new(alloc);
        for (coords, height, _) in &points[..4] {
            let coords = IntVec::from_slice(alloc, coords)?;
            made.push(FilePoint {
                coords,
                height: *height,
            })?;
        }
        supports.push(made)?;
    }
    Ok(LiftFile::new(alloc, 2, supports, None)?)
}

// The problem of their points without corners.
fn squares_alone(alloc: Global) -> Result<Problem, Fail> {
    let mut supports = Vec::new(alloc);
    for points in [&FIRST, &SECOND] {
        supports.push(support(alloc, &points[..4])?)?;
    }
    Ok(Problem::new(alloc, 2, supports)?)
}

// Whether a support of both problems reads the same.
fn same_support(p: &Problem, q: &Problem, i: u32) -> bool
    requires least { 1 ≤ i }
    requires in_p { i ≤ p.now.dimension }
    requires in_q { i ≤ q.now.dimension }
{
    if p.count(i) != q.count(i) || p.file_count(i) != q.file_count(i) {
        return false;
    }
    for k in 0..p.count(i) {
        let x = p.point(i, k + 1);
        let y = q.point(i, k + 1);
        if x.coords.as_slice() != y.coords.as_slice() || x.base != y.base || x.speed != y.speed {
            return false;
        }
    }
    true
}

fn cell_of(alloc: Global, pairs: &[(u32, u32)]) -> Result<Cell, Fail> {
    match Cell::new(alloc, pairs) {
        Some(cell) => Ok(cell),
        None => Err(Fail::from("not a cell")),
    }
}

// Whether the problem contains the cell, and the place is a further point of it.
fn is_further(problem: &Problem, cell: &Cell, support: u32, position: u32) -> bool
    ensures cell { IsTrue result → IsOf problem.now cell.now }
    ensures point { IsTrue result → (1 ≤ support) × (support ≤ problem.now.dimension) × IsFurtherAt problem.now cell.now (support - 1) position }
{
    if !problem.contains(cell) || support < 1 || problem.dim() < support as usize {
        return false;
    }
    let pair = cell.pairs()[support as usize - 1];
    if position < 1 || problem.count(support) < position || position == pair.0 {
        return false;
    }
    position != pair.1
}

#[test]
fn points_without_corners_are_the_plain_problem(rt: HostRuntime) -> Result<(), Fail> {
    let given = squares_alone(rt.alloc())?;
    let file = squares_file(rt.alloc())?;
    let plain = Problem::plain(rt.alloc(), &file)?;
    assert!(rt; given.dim() == 2 && plain.dim() == 2);
    assert!(rt; plain.count(1) == 4 && plain.count(2) == 4);
    assert!(rt; same_support(&given, &plain, 1) && same_support(&given, &plain, 2));
    Ok(())
}

#[test]
fn a_circuit_of_two_squares(rt: HostRuntime) -> Result<(), Fail> {
    let problem = squares(rt.alloc())?;
    let cell = cell_of(rt.alloc(), &[(5, 6), (5, 7)])?;
    assert!(rt; is_further(&problem, &cell, 2, 4));
    let circuit = circuit_of(rt.alloc(), &problem, &cell, 2, 4)?;
    assert_eq!(rt;
        circuit.coefficients.as_slice(),
        [1, -1, -1, -1, 2].as_slice()
    );
    assert_eq!(rt; (circuit.scale, circuit.support), (2, 2));
    assert_eq!(rt; circuit.signs(), [Sign::Minus, Sign::Minus, Sign::Plus]);
    Ok(())
}

#[test]
fn the_same_from_reduced_rows(rt: HostRuntime) -> Result<(), Fail> {
    let problem = squares(rt.alloc())?;
    let cell = cell_of(rt.alloc(), &[(5, 6), (5, 7)])?;
    assert!(rt; is_further(&problem, &cell, 2, 4));
    assert!(rt; problem.dim() == 2);
    let eliminated = Eliminated::of(rt.alloc(), &problem, &cell)?;
    let reduced = eliminated.reduced();
    let circuit = circuit_from(rt.alloc(), &problem, &cell, reduced, 2, 4)?;
    assert_eq!(rt;
        circuit.coefficients.as_slice(),
        [1, -1, -1, -1, 2].as_slice()
    );
    assert_eq!(rt; (circuit.scale, circuit.support), (2, 2));
    let inverse = eliminated.inverse(rt.alloc())?;
    let shared = circuit_with(rt.alloc(), &problem, &cell, &inverse, 2, 4)?;
    assert_eq!(rt;
        shared.coefficients.as_slice(),
        [1, -1, -1, -1, 2].as_slice()
    );
    assert_eq!(rt; (shared.scale, shared.support), (2, 2));
    Ok(())
}

#[test]
fn a_dependent_cell_has_a_kernel(rt: HostRuntime) -> Result<(), Fail> {
    let problem = squares(rt.alloc())?;
    let cell = cell_of(rt.alloc(), &[(1, 4), (1, 4)])?;
    assert!(rt; is_further(&problem, &cell, 1, 2));
    let answer = circuit_of(rt.alloc(), &problem, &cell, 1, 2);
    if let Err(CellFault::Dependent { kernel }) = &answer {
        assert_eq!(rt; kernel.as_slice(), [-1, 1].as_slice());
        Ok(())
    } else {
        Err(Fail::from("not called dependent"))
    }
}
