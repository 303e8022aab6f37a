ghost use Rattle.std.specs.Prelude.{◌≡◌, ◌<◌};
ghost use Rattle.cayley.specs.Problems.{IsStill};

use crate::{
    Begin, Branch, Counted, Found, FoundCell, HaltCause, Stopped, count_alone, search_alone,
};
use cayley::{Cell, Point, Problem, Support};
use cone_walls::Steps;
use int_vectors::IntVec;
use lex_height::{Lex, LexPart};
use std::alloc::Global;
use std::marker::Brand;
use std::sync::ledger::{Blank, Ledger};
use std::test::Fail;
use wide_int::{Frac, OutOfMemory};

// Two squares, and the corners of their path.
const FIRST_SQUARE: [(&[i128], i64, i64); 7] = [
    (&[0, 0], 3, 0),
    (&[1, 0], 10, 0),
    (&[0, 1], 20, 0),
    (&[1, 1], 90, 0),
    (&[0, 0], 0, 1),
    (&[2, 0], 0, 1),
    (&[0, 2], 100, 1),
];

const SECOND_SQUARE: [(&[i128], i64, i64); 7] = [
    (&[0, 0], 5, 0),
    (&[1, 0], 40, 0),
    (&[0, 1], 9, 0),
    (&[1, 1], 1, 0),
    (&[0, 0], 0, 1),
    (&[2, 0], 100, 1),
    (&[0, 2], 0, 1),
];

// Two triangles, and the corners of their path.
const FIRST_TRIANGLE: [(&[i128], i64, i64); 6] = [
    (&[0, 0], 3, 0),
    (&[1, 0], 10, 0),
    (&[0, 1], 20, 0),
    (&[0, 0], 0, 1),
    (&[1, 0], 0, 1),
    (&[0, 1], 100, 1),
];

const SECOND_TRIANGLE: [(&[i128], i64, i64); 6] = [
    (&[0, 0], 5, 0),
    (&[1, 0], 40, 0),
    (&[0, 1], 9, 0),
    (&[0, 0], 0, 1),
    (&[1, 0], 100, 1),
    (&[0, 1], 0, 1),
];

const THREE_POINTS: [(&[i128], i64, i64); 5] = [
    (&[0], 0, 0),
    (&[1], -2, 0),
    (&[3], 0, 0),
    (&[0], 0, 1),
    (&[3], 0, 1),
];

const LEVEL_POINTS: [(&[i128], i64, i64); 5] = [
    (&[0], 0, 0),
    (&[1], 0, 0),
    (&[2], 0, 0),
    (&[0], 0, 1),
    (&[2], 0, 1),
];

const TWO_LEVEL_POINTS: [(&[i128], i64, i64); 4] = [
    (&[0], 7, 0),
    (&[1], 7, 0),
    (&[0], 0, 1),
    (&[1], 0, 1),
];

const ONE_POINT: [(&[i128], i64, i64); 3] = [(&[5], 7, 0), (&[5], 0, 1), (&[6], 0, 1)];

pub(crate) fn support(
    alloc: Global,
    given: &[(&[i128], i64, i64)],
    file: u32,
) -> Result<Support, Fail> {
    let mut points = Vec::new(alloc);
    for (coords, base, speed) in given {
        let coords = IntVec::from_slice(alloc, coords)?;
        points.push(Point {
            coords,
            base: *base,
            speed: *speed,
        })?;
    }
    Ok(Support { points, file })
}

fn line(alloc: Global, given: &[(&[i128], i64, i64)], file: u32) -> Result<Vec<Support>, Fail> {
    let mut supports = Vec::new(alloc);
    supports.push(support(alloc, given, file)?)?;
    Ok(supports)
}

fn plane(
    alloc: Global,
    first: &[(&[i128], i64, i64)],
    second: &[(&[i128], i64, i64)],
    file: u32,
) -> Result<Problem, Fail> {
    let mut supports = Vec::new(alloc);
    supports.push(support(alloc, first, file)?)?;
    supports.push(support(alloc, second, file)?)?;
    Ok(Problem::new(alloc, 2, supports)?)
}

pub(crate) fn branch(alloc: Global, pairs: &[(u32, u32)], begin: Begin) -> Result<Branch, Fail> {
    match Cell::new(alloc, pairs) {
        Some(cell) => Ok(Branch::new(cell, begin)),
        None => Err(OutOfMemory.into()),
    }
}

// The beginning at a whole time.
fn at(time: i128) -> Result<Begin, Fail> {
    match Frac::lowest(time, 1) {
        Some(time) => Ok(Begin::At(Lex::of(&time))),
        None => Err(OutOfMemory.into()),
    }
}

fn just(alloc: Global, branch: Branch) -> Result<Vec<Branch>, Fail> {
    let mut branches = Vec::new(alloc);
    branches.push(branch)?;
    Ok(branches)
}

// The positions of the cells one after the other.
pub(crate) fn positions(alloc: Global, found: &[FoundCell]) -> Result<Vec<u32>, Fail> {
    let mut all = Vec::new(alloc);
    for one in found {
        for (a, b) in one.cell.pairs() {
            all.push(*a)?;
            all.push(*b)?;
        }
    }
    Ok(all)
}

// The normals of the cells one after the other, each with its denominator behind it.
pub(crate) fn normals(alloc: Global, found: &[FoundCell]) -> Result<Vec<i128>, Fail> {
    let mut all = Vec::new(alloc);
    for one in found {
        all.extend_from_slice(one.normal.v.as_slice())?;
        all.push(one.normal.den)?;
    }
    Ok(all)
}

// By a counter of its own.
fn searched<L: Ledger>(
    alloc: Global,
    problem: &Problem,
    branches: Vec<Branch>,
    blank: Blank,
) -> Result<Found, Stopped>
    requires ledger { (blank.name ≡ L.name) × (blank.parts ≡ L.parts) × (0 < blank.parts) }
    requires still { IsStill problem.now }
{
    let mut steps = Steps::<L>::new(blank);
    search_alone(alloc, problem, branches, &mut steps)
}

// Counted, by a counter of its own.
fn counted<L: Ledger>(
    alloc: Global,
    problem: &Problem,
    branches: Vec<Branch>,
    blank: Blank,
) -> Result<Counted, HaltCause>
    requires ledger { (blank.name ≡ L.name) × (blank.parts ≡ L.parts) × (0 < blank.parts) }
    requires still { IsStill problem.now }
{
    let mut steps = Steps::<L>::new(blank);
    count_alone(alloc, problem, branches, &mut steps)
}

// What a count over a still problem answers.
fn count(
    alloc: Global,
    problem: &Problem,
    branches: Vec<Branch>,
) -> Result<Result<Counted, HaltCause>, Fail> {
    if !problem.is_still() {
        return Err(OutOfMemory.into());
    }
    Ok(counted::<Brand>(alloc, problem, branches, Blank::new(1)))
}

// What a search of a still problem answers.
fn search(
    alloc: Global,
    problem: &Problem,
    branches: Vec<Branch>,
) -> Result<Result<Found, Stopped>, Fail> {
    if !problem.is_still() {
        return Err(OutOfMemory.into());
    }
    Ok(searched::<Brand>(alloc, problem, branches, Blank::new(1)))
}

// What a search finds that isn't halted.
pub(crate) fn found(
    alloc: Global,
    problem: &Problem,
    branches: Vec<Branch>,
) -> Result<Found, Fail> {
    match search(alloc, problem, branches)? {
        Ok(found) => Ok(found),
        Err(_stopped) => Err(OutOfMemory.into()),
    }
}

#[test]
fn two_squares_from_the_start_and_a_stranger(rt: HostRuntime) -> Result<(), Fail> {
    let problem = plane(rt.alloc(), &FIRST_SQUARE, &SECOND_SQUARE, 4)?;
    let start = branch(rt.alloc(), &[(5, 6), (5, 7)], Begin::Start)?;
    let mut branches = just(rt.alloc(), start)?;
    branches.push(branch(rt.alloc(), &[(1, 2), (1, 4)], at(5)?)?)?;
    let found = found(rt.alloc(), &problem, branches)?;
    let cells = positions(rt.alloc(), &found.cells)?;
    assert!(rt; cells.as_slice() == [1, 2, 1, 4, 1, 3, 3, 4].as_slice());
    let all = normals(rt.alloc(), &found.cells)?;
    assert!(rt; all.as_slice() == [-7, 11, 1, 8, -17, 1].as_slice());
    assert_eq!(rt; found.solves, 14);
    Ok(())
}

#[test]
fn a_cell_of_no_position_costs_nothing(rt: HostRuntime) -> Result<(), Fail> {
    let problem = plane(rt.alloc(), &FIRST_SQUARE, &SECOND_SQUARE, 4)?;
    let foreign = branch(rt.alloc(), &[(1, 2), (1, 8)], Begin::Start)?;
    let found = found(rt.alloc(), &problem, just(rt.alloc(), foreign)?)?;
    assert!(rt; found.cells.is_empty());
    assert_eq!(rt; found.solves, 0);
    Ok(())
}

#[test]
fn three_points(rt: HostRuntime) -> Result<(), Fail> {
    let problem = Problem::new(rt.alloc(), 1, line(rt.alloc(), &THREE_POINTS, 3)?)?;
    let start = branch(rt.alloc(), &[(4, 5)], Begin::Start)?;
    let found = found(rt.alloc(), &problem, just(rt.alloc(), start)?)?;
    let cells = positions(rt.alloc(), &found.cells)?;
    assert!(rt; cells.as_slice() == [1, 2, 2, 3].as_slice());
    let all = normals(rt.alloc(), &found.cells)?;
    assert!(rt; all.as_slice() == [2, 1, -1, 1].as_slice());
    assert_eq!(rt; found.solves, 5);
    Ok(())
}

#[test]
fn one_point(rt: HostRuntime) -> Result<(), Fail> {
    let problem = Problem::new(rt.alloc(), 1, line(rt.alloc(), &ONE_POINT, 1)?)?;
    let start = branch(rt.alloc(), &[(2, 3)], Begin::Start)?;
    let found = found(rt.alloc(), &problem, just(rt.alloc(), start)?)?;
    assert!(rt; found.cells.is_empty());
    assert_eq!(rt; found.solves, 2);
    Ok(())
}

#[test]
fn two_triangles(rt: HostRuntime) -> Result<(), Fail> {
    let problem = plane(rt.alloc(), &FIRST_TRIANGLE, &SECOND_TRIANGLE, 3)?;
    let start = branch(rt.alloc(), &[(4, 5), (4, 6)], Begin::Start)?;
    let found = found(rt.alloc(), &problem, just(rt.alloc(), start)?)?;
    let cells = positions(rt.alloc(), &found.cells)?;
    assert!(rt; cells.as_slice() == [1, 2, 1, 3].as_slice());
    let all = normals(rt.alloc(), &found.cells)?;
    assert!(rt; all.as_slice() == [-7, -4, 1].as_slice());
    assert_eq!(rt; found.solves, 5);
    Ok(())
}

#[test]
fn a_branch_given_twice_counts_twice(rt: HostRuntime) -> Result<(), Fail> {
    let problem = plane(rt.alloc(), &FIRST_TRIANGLE, &SECOND_TRIANGLE, 3)?;
    let mut branches = Vec::new(rt.alloc());
    branches.push(branch(rt.alloc(), &[(1, 5), (1, 3)], at(9)?)?)?;
    branches.push(branch(rt.alloc(), &[(1, 5), (1, 3)], at(9)?)?)?;
    let found = found(rt.alloc(), &problem, branches)?;
    let cells = positions(rt.alloc(), &found.cells)?;
    assert!(rt; cells.as_slice() == [1, 2, 1, 3, 1, 2, 1, 3].as_slice());
    assert_eq!(rt; found.solves, 4);
    Ok(())
}

#[test]
fn three_level_points_perturbed(rt: HostRuntime) -> Result<(), Fail> {
    let problem = Problem::perturbed(rt.alloc(), 1, line(rt.alloc(), &LEVEL_POINTS, 3)?)?;
    let start = branch(rt.alloc(), &[(4, 5)], Begin::Start)?;
    let found = found(rt.alloc(), &problem, just(rt.alloc(), start)?)?;
    let cells = positions(rt.alloc(), &found.cells)?;
    assert!(rt; cells.as_slice() == [1, 2, 2, 3].as_slice());
    let all = normals(rt.alloc(), &found.cells)?;
    assert!(rt; all.as_slice() == [0, 1, 0, 1].as_slice());
    assert_eq!(rt; found.solves, 5);
    Ok(())
}

#[test]
fn a_search_from_the_last_cell_that_begins(rt: HostRuntime) -> Result<(), Fail> {
    let problem = Problem::perturbed(rt.alloc(), 1, line(rt.alloc(), &LEVEL_POINTS, 3)?)?;
    let parts = [LexPart { rank: 1, num: 1 }];
    let Some(time) = Lex::new(&parts, 1) else {
        return Err(OutOfMemory.into());
    };
    let last = branch(rt.alloc(), &[(1, 2)], Begin::At(time))?;
    let found = found(rt.alloc(), &problem, just(rt.alloc(), last)?)?;
    let cells = positions(rt.alloc(), &found.cells)?;
    assert!(rt; cells.as_slice() == [1, 2].as_slice());
    assert_eq!(rt; found.solves, 1);
    Ok(())
}

#[test]
fn two_points_of_equal_height(rt: HostRuntime) -> Result<(), Fail> {
    let problem = Problem::new(rt.alloc(), 1, line(rt.alloc(), &TWO_LEVEL_POINTS, 2)?)?;
    let start = branch(rt.alloc(), &[(3, 4)], Begin::Start)?;
    let Err(stopped) = search(rt.alloc(), &problem, just(rt.alloc(), start)?)? else {
        return Err(OutOfMemory.into());
    };
    if let HaltCause::Tie(proof) = &stopped.cause {
        assert!(rt; proof.cell.pairs() == [(3, 4)].as_slice());
    }
    if let HaltCause::OutOfMemory = &stopped.cause {
        return Err(OutOfMemory.into());
    }
    assert!(rt; matches!(stopped.cause, HaltCause::Tie(_)));
    assert!(rt; stopped.left.len() == 1);
    for left in &stopped.left {
        assert!(rt; left.cell().pairs() == [(3, 4)].as_slice());
    }
    assert!(rt; stopped.found.cells.is_empty());
    assert_eq!(rt; stopped.found.solves, 1);
    Ok(())
}

#[test]
fn counts_without_the_cells(rt: HostRuntime) -> Result<(), Fail> {
    let problem = plane(rt.alloc(), &FIRST_SQUARE, &SECOND_SQUARE, 4)?;
    let start = branch(rt.alloc(), &[(5, 6), (5, 7)], Begin::Start)?;
    let mut branches = just(rt.alloc(), start)?;
    branches.push(branch(rt.alloc(), &[(1, 2), (1, 4)], at(5)?)?)?;
    let Ok(counted) = count(rt.alloc(), &problem, branches)? else {
        return Err(OutOfMemory.into());
    };
    assert_eq!(rt; counted.cells, 2);
    assert_eq!(rt; counted.solves, 14);
    let level = Problem::new(rt.alloc(), 1, line(rt.alloc(), &TWO_LEVEL_POINTS, 2)?)?;
    let start = branch(rt.alloc(), &[(3, 4)], Begin::Start)?;
    let Err(cause) = count(rt.alloc(), &level, just(rt.alloc(), start)?)? else {
        return Err(OutOfMemory.into());
    };
    if let HaltCause::OutOfMemory = &cause {
        return Err(OutOfMemory.into());
    }
    assert!(rt; matches!(cause, HaltCause::Tie(_)));
    Ok(())
}
