use crate::{default_starts, is_started, start_cell, with_corners};
use cayley::{FilePoint, LiftFile, Point, Problem, Support};
use int_vectors::IntVec;
use std::alloc::Global;
use std::test::Fail;

#[test]
fn default_heights_in_two_dimensions(rt: HostRuntime) -> Result<(), Fail> {
    let starts = default_starts(rt.alloc(), 2)?;
    assert!(rt; starts.len() == 2);
    assert!(rt; starts[0].as_slice() == [331].as_slice());
    assert!(rt; starts[1].as_slice() == [365].as_slice());
    Ok(())
}

#[test]
fn default_heights_in_seven_dimensions(rt: HostRuntime) -> Result<(), Fail> {
    let table: [[i64; 6]; 7] = [
        [331, 593, 544, 250, 286, 209],
        [365, 354, 358, 117, 206, 182],
        [603, 330, 246, 567, 200, 229],
        [406, 186, 607, 582, 268, 350],
        [283, 116, 590, 244, 410, 545],
        [234, 120, 138, 354, 325, 305],
        [259, 198, 269, 538, 562, 407],
    ];
    let starts = default_starts(rt.alloc(), 7)?;
    assert!(rt; starts.len() == 7);
    for (row, want) in starts.iter().zip(&table) {
        assert!(rt; row.as_slice() == want.as_slice());
    }
    Ok(())
}

fn square(alloc: Global, heights: [i64; 4]) -> Result<Vec<FilePoint>, Fail> {
    let corners: [[i128; 2]; 4] = [[0, 0], [1, 0], [0, 1], [1, 1]];
    let mut points = Vec::new(alloc);
    for (coords, height) in corners.iter().zip(&heights) {
        let coords = IntVec::from_slice(alloc, coords)?;
        points.push(FilePoint {
            coords,
            height: *height,
        })?;
    }
    Ok(points)
}

fn two_squares(alloc: Global, given: bool) -> Result<LiftFile, Fail> {
    let mut supports = Vec::new(alloc);
    supports.push(square(alloc, [3, 10, 20, 90])?)?;
    supports.push(square(alloc, [5, 40, 9, 1])?)?;
    let mut starts = Vec::new(alloc);
    starts.push(Vec::from_array(alloc, [100])?)?;
    starts.push(Vec::from_array(alloc, [100])?)?;
    let starts = if given { Some(starts) } else { None };
    Ok(LiftFile::new(alloc, 2, supports, starts)?)
}

// The supports of a problem of dimension 1 with the file point 5 at height 7 and these corners.
fn one_point(alloc: Global, corners: &[i128]) -> Result<Vec<Support>, Fail> {
    let mut points = Vec::new(alloc);
    points.push(Point {
        coords: IntVec::from_slice(alloc, &[5])?,
        base: 7,
        speed: 0,
    })?;
    for x in corners {
        points.push(Point {
            coords: IntVec::from_slice(alloc, &[*x])?,
            base: 0,
            speed: 1,
        })?;
    }
    let mut supports = Vec::new(alloc);
    supports.push(Support { points, file: 1 })?;
    Ok(supports)
}

// Whether these are the numbers of the point at a position of a support.
fn is_point(path: &Problem, place: (u32, u32), coords: [i128; 2], base: i64, speed: i64) -> bool {
    let (i, position) = place;
    if i < 1 || path.dim() < i as usize || position < 1 || path.count(i) < position {
        return false;
    }
    let point = path.point(i, position);
    point.coords.as_slice() == coords.as_slice() && point.base == base && point.speed == speed
}

#[test]
fn path_of_two_squares(rt: HostRuntime) -> Result<(), Fail> {
    let alloc = rt.alloc();
    let path = with_corners(alloc, &two_squares(alloc, true)?)?;
    assert!(rt; is_point(&path, (1, 1), [0, 0], 3, 0));
    assert!(rt; is_point(&path, (2, 4), [1, 1], 1, 0));
    assert!(rt; is_point(&path, (1, 5), [0, 0], 0, 1));
    assert!(rt; is_point(&path, (1, 6), [2, 0], 0, 1));
    assert!(rt; is_point(&path, (1, 7), [0, 2], 100, 1));
    assert!(rt; is_point(&path, (2, 5), [0, 0], 0, 1));
    assert!(rt; is_point(&path, (2, 6), [2, 0], 100, 1));
    assert!(rt; is_point(&path, (2, 7), [0, 2], 0, 1));
    assert!(rt; is_started(&path));
    let cell = start_cell(alloc, &path);
    assert!(rt; cell.pairs() == [(5, 6), (5, 7)].as_slice());
    Ok(())
}

#[test]
fn default_path_of_two_squares(rt: HostRuntime) -> Result<(), Fail> {
    let alloc = rt.alloc();
    let path = with_corners(alloc, &two_squares(alloc, false)?)?;
    assert!(rt; is_point(&path, (1, 7), [0, 2], 331, 1));
    assert!(rt; is_point(&path, (2, 6), [2, 0], 365, 1));
    assert!(rt; is_started(&path));
    Ok(())
}

#[test]
fn started_problems(rt: HostRuntime) -> Result<(), Fail> {
    let alloc = rt.alloc();
    let made = Problem::new(alloc, 1, one_point(alloc, &[5, 6])?)?;
    assert!(rt; is_started(&made));
    let moved = Problem::new(alloc, 1, one_point(alloc, &[5, 7])?)?;
    assert!(rt; !is_started(&moved));
    let plain = Problem::new(alloc, 1, one_point(alloc, &[])?)?;
    assert!(rt; !is_started(&plain));
    Ok(())
}
