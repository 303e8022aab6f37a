ghost use Rattle.std.specs.Prelude.{◌<◌, IfOk};
ghost use Rattle.cayley.specs.Problems.{IsStill, HasNoCorners};

use crate::{PlainFault, is_tie_free, plain_list};
use cayley::{FilePoint, FoundCell, LiftFile, Place, Point, Problem, Support};
use int_vectors::IntVec;
use std::alloc::Global;
use std::test::Fail;

// The problem of a file's points.
fn of_file(alloc: Global, file: &LiftFile) -> Result<Problem, Fail>
    ensures { IfOk result (λ p. HasNoCorners p × IsStill p) }
{
    let _dim = file.dim();
    match Problem::plain(alloc, file) {
        Ok(problem) => Ok(problem),
        Err(fault) => Err(fault.into()),
    }
}

fn problem(alloc: Global, supports: Vec<Vec<FilePoint>>) -> Result<Problem, Fail>
    ensures { IfOk result (λ p. HasNoCorners p × IsStill p) }
{
    of_file(
        alloc,
        &LiftFile::new(alloc, supports.len(), supports, None)?,
    )
}

fn perturbed(alloc: Global, supports: Vec<Vec<FilePoint>>) -> Result<Problem, Fail>
    ensures { IfOk result (λ p. HasNoCorners p × IsStill p) }
{
    of_file(
        alloc,
        &LiftFile::perturbed(alloc, supports.len(), supports, None)?,
    )
}

// The numbers of a point from a place on: its coordinates, then its height.
fn point(alloc: Global, dim: usize, numbers: &[i64], start: usize) -> Result<FilePoint, Fail> {
    let mut coords = Vec::new(alloc);
    for k in 0..dim {
        coords.push(i128::from(numbers.get(start.saturating_add(k)).copied().unwrap_or(0)))?;
    }
    Ok(FilePoint {
        coords: IntVec::from_slice(alloc, &coords)?,
        height: numbers.get(start.saturating_add(dim)).copied().unwrap_or(0),
    })
}

// Supports of so many points each, with the numbers of the points one after the other.
fn supports_of(
    alloc: Global,
    counts: &[usize],
    numbers: &[i64],
) -> Result<Vec<Vec<FilePoint>>, Fail> {
    let mut supports = Vec::new(alloc);
    let mut start: usize = 0;
    for count in counts {
        let mut points = Vec::new(alloc);
        for _k in 0..*count {
            points.push(point(alloc, counts.len(), numbers, start)?)?;
            start = start.saturating_add(counts.len()).saturating_add(1);
        }
        supports.push(points)?;
    }
    Ok(supports)
}

// The numbers of each cell: its positions, its normal and the denominator.
fn numbers_of(alloc: Global, found: &[FoundCell]) -> Result<Vec<i128>, Fail> {
    let mut numbers = Vec::new(alloc);
    for cell in found {
        for pair in cell.cell.pairs() {
            numbers.push(i128::from(pair.0))?;
            numbers.push(i128::from(pair.1))?;
        }
        numbers.extend_from_slice(cell.normal.v.as_slice())?;
        numbers.push(cell.normal.den)?;
    }
    Ok(numbers)
}

#[test]
fn lists_of_worked_problems(rt: HostRuntime) -> Result<(), Fail> {
    let triangles = [0, 0, 3, 1, 0, 10, 0, 1, 20, 0, 0, 5, 1, 0, 40, 0, 1, 9];
    let squares = [
        0, 0, 3, 1, 0, 10, 0, 1, 20, 1, 1, 90, 0, 0, 5, 1, 0, 40, 0, 1, 9, 1, 1, 1,
    ];
    let table: [(&[usize], &[i64], &[i128]); 9] = [
        (&[3], &[0, 0, 1, -2, 3, 0], &[1, 2, 2, 1, 2, 3, -1, 1]),
        (&[3], &[0, 0, 1, 5, 3, 0], &[1, 3, 0, 1]),
        (&[2], &[0, 0, 2, 1], &[1, 2, -1, 2]),
        (&[1], &[5, 7], &[]),
        (&[3, 3], &triangles, &[1, 2, 1, 3, -7, -4, 1]),
        (
            &[4, 4],
            &squares,
            &[1, 2, 1, 4, -7, 11, 1, 1, 3, 3, 4, 8, -17, 1],
        ),
        (&[2], &[0, 7, 1, 7], &[1, 2, 0, 1]),
        (&[3], &[0, 0, 1, 0, 2, 0], &[]),
        (&[2], &[0, 0, 1_000_000, 1], &[1, 2, -1, 1_000_000]),
    ];
    for (counts, numbers, want) in table {
        let supports = supports_of(rt.alloc(), counts, numbers)?;
        match plain_list(rt.alloc(), &problem(rt.alloc(), supports)?) {
            Ok(found) => assert!(rt; numbers_of(rt.alloc(), &found)?.as_slice() == want),
            Err(_fault) => assert!(rt; false),
        }
    }
    Ok(())
}

#[test]
fn perturbed_heights_split_level_points(rt: HostRuntime) -> Result<(), Fail> {
    let squares = [
        0, 0, 3, 1, 0, 10, 0, 1, 20, 1, 1, 90, 0, 0, 5, 1, 0, 40, 0, 1, 9, 1, 1, 1,
    ];
    let table: [(&[usize], &[i64], &[i128]); 3] = [
        (&[3], &[0, 0, 1, 0, 2, 0], &[1, 2, 0, 1, 2, 3, 0, 1]),
        (&[2], &[0, 7, 1, 7], &[1, 2, 0, 1]),
        (
            &[4, 4],
            &squares,
            &[1, 2, 1, 4, -7, 11, 1, 1, 3, 3, 4, 8, -17, 1],
        ),
    ];
    for (counts, numbers, want) in table {
        let supports = supports_of(rt.alloc(), counts, numbers)?;
        match plain_list(rt.alloc(), &perturbed(rt.alloc(), supports)?) {
            Ok(found) => assert!(rt; numbers_of(rt.alloc(), &found)?.as_slice() == want),
            Err(_fault) => assert!(rt; false),
        }
    }
    Ok(())
}

// The origin and a point on one axis.
fn edge(alloc: Global, axis: usize, length: i128) -> Result<Vec<FilePoint>, Fail>
    requires { axis < 7 }
{
    let mut end = [0; 7];
    let origin = IntVec::from_slice(alloc, &end)?;
    end[axis] = length;
    let end = IntVec::from_slice(alloc, &end)?;
    let mut points = Vec::new(alloc);
    for coords in [origin, end] {
        points.push(FilePoint { coords, height: 0 })?;
    }
    Ok(points)
}

// Seven long edges, whose common denominator is the product of their lengths.
#[test]
fn seven_long_edges_overflow(rt: HostRuntime) -> Result<(), Fail> {
    let alloc = rt.alloc();
    let lengths = [
        1_000_000, 999_999, 999_997, 999_991, 999_989, 999_983, 999_979,
    ];
    let mut supports = Vec::new(alloc);
    for (axis, length) in lengths.iter().enumerate() {
        supports.push(edge(alloc, axis, *length)?)?;
    }
    let problem = problem(alloc, supports)?;
    match plain_list(alloc, &problem) {
        Err(PlainFault::Overflow { cell }) => assert!(rt; cell.pairs() == [(1, 2); 7].as_slice()),
        Err(_fault) => assert!(rt; false),
        Ok(_found) => assert!(rt; false),
    }
    match is_tie_free(alloc, &problem) {
        Err(PlainFault::Overflow { cell }) => assert!(rt; cell.pairs() == [(1, 2); 7].as_slice()),
        Err(_fault) => assert!(rt; false),
        Ok(_tie) => assert!(rt; false),
    }
    Ok(())
}

// 46 points have 1,035 pairs, and 1,035 squared is 1,071,225.
#[test]
fn too_many_choices(rt: HostRuntime) -> Result<(), Fail> {
    let alloc = rt.alloc();
    for (last, want) in [(2, Some(1_071_225)), (1, None)] {
        let mut supports = Vec::new(alloc);
        for count in [46, 46, last] {
            let mut points = Vec::new(alloc);
            for k in 0..count {
                let coords = IntVec::from_slice(alloc, &[k, 0, 0])?;
                points.push(FilePoint { coords, height: 0 })?;
            }
            supports.push(points)?;
        }
        let number = match plain_list(alloc, &problem(alloc, supports)?) {
            Err(PlainFault::TooMany { choices }) => Some(choices),
            _ => None,
        };
        assert_eq!(rt; number, want);
    }
    Ok(())
}

// Supports of so many file points and one corner more than the dimension, with the numbers of the
// points one after the other.
fn path(alloc: Global, dim: u32, files: u32, numbers: &[i64]) -> Result<Vec<Support>, Fail> {
    let mut supports = Vec::new(alloc);
    let mut start: usize = 0;
    for _i in 0..dim {
        let mut points = Vec::new(alloc);
        for k in 0..files.saturating_add(dim).saturating_add(1) {
            let FilePoint { coords, height } = point(alloc, dim as usize, numbers, start)?;
            let speed = if k < files { 0 } else { 1 };
            points.push(Point {
                coords,
                base: height,
                speed,
            })?;
            start = start.saturating_add(dim as usize).saturating_add(1);
        }
        supports.push(Support {
            points,
            file: files,
        })?;
    }
    Ok(supports)
}

// The cell's positions, the time, and support and position of the first and the second point.
fn tie_of(alloc: Global, problem: &Problem) -> Result<Vec<i128>, Fail> {
    let mut numbers = Vec::new(alloc);
    if !problem.is_still() {
        return Ok(numbers);
    }
    match is_tie_free(alloc, problem) {
        Ok(None) => {}
        Ok(Some(tie)) => {
            for pair in tie.cell.pairs() {
                numbers.push(i128::from(pair.0))?;
                numbers.push(i128::from(pair.1))?;
            }
            numbers.push(tie.time.frac().num())?;
            numbers.push(tie.time.frac().den())?;
            push_place(&mut numbers, tie.first)?;
            if let Some(second) = tie.second {
                push_place(&mut numbers, second)?;
            }
        }
        Err(PlainFault::TooMany { choices }) => numbers.push(i128::from(choices))?,
        Err(_fault) => numbers.push(-1)?,
    }
    Ok(numbers)
}

fn push_place(numbers: &mut Vec<i128>, place: Place) -> Result<(), Fail> {
    numbers.push(i128::from(place.support))?;
    numbers.push(i128::from(place.position))?;
    Ok(())
}

#[test]
fn ties_of_worked_paths(rt: HostRuntime) -> Result<(), Fail> {
    let squares = [
        0, 0, 3, 1, 0, 10, 0, 1, 20, 1, 1, 90, 0, 0, 0, 2, 0, 0, 0, 2, 100, 0, 0, 5, 1, 0, 40, 0,
        1, 9, 1, 1, 1, 0, 0, 0, 2, 0, 100, 0, 2, 0,
    ];
    let two_points = [0, 7, 1, 7, 0, 0, 1, 0];
    let table: [(u32, u32, &[i64], &[i128]); 2] = [
        (2, 4, &squares, &[]),
        (1, 2, &two_points, &[1, 2, 7, 1, 1, 3, 1, 4]),
    ];
    for (dim, files, numbers, want) in table {
        let problem = Problem::new(
            rt.alloc(),
            dim as usize,
            path(rt.alloc(), dim, files, numbers)?,
        )?;
        assert!(rt; tie_of(rt.alloc(), &problem)?.as_slice() == want);
    }
    let problem = Problem::perturbed(rt.alloc(), 1, path(rt.alloc(), 1, 2, &two_points)?)?;
    assert!(rt; tie_of(rt.alloc(), &problem)?.as_slice() == [].as_slice());
    Ok(())
}

// Three points that are level at all times: without an end the tie is at time 0.
#[test]
fn tie_at_all_times(rt: HostRuntime) -> Result<(), Fail> {
    let level = [0, 0, 1, 0, 2, 0];
    let supports = supports_of(rt.alloc(), &[3], &level)?;
    let tie = tie_of(rt.alloc(), &problem(rt.alloc(), supports)?)?;
    assert!(rt; tie.as_slice() == [1, 2, 0, 1, 1, 3].as_slice());
    let supports = supports_of(rt.alloc(), &[3], &level)?;
    let tie = tie_of(rt.alloc(), &perturbed(rt.alloc(), supports)?)?;
    assert!(rt; tie.as_slice() == [].as_slice());
    Ok(())
}
