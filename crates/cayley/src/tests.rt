use crate::{Cell, FilePoint, LiftFile, Point, Problem, ShapeFault, Support, Version};
use int_vectors::IntVec;
use std::alloc::Global;
use std::cmp::Ordering;
use std::test::Fail;

// The first square, and the corners of its path.
const FIRST: [(&[i128], i64, i64); 7] = [
    (&[0, 0], 3, 0),
    (&[1, 0], 10, 0),
    (&[0, 1], 20, 0),
    (&[1, 1], 90, 0),
    (&[0, 0], 0, 1),
    (&[2, 0], 0, 1),
    (&[0, 2], 100, 1),
];

const SECOND: [(&[i128], i64, i64); 7] = [
    (&[0, 0], 5, 0),
    (&[1, 0], 40, 0),
    (&[0, 1], 9, 0),
    (&[1, 1], 1, 0),
    (&[0, 0], 0, 1),
    (&[2, 0], 100, 1),
    (&[0, 2], 0, 1),
];

fn file_points(alloc: Global, points: &[(&[i128], i64)]) -> Result<Vec<FilePoint>, Fail> {
    let mut made = Vec::new(alloc);
    for (coords, height) in points {
        let coords = IntVec::from_slice(alloc, coords)?;
        made.push(FilePoint {
            coords,
            height: *height,
        })?;
    }
    Ok(made)
}

fn support(alloc: Global, given: &[(&[i128], i64, i64)], file: u32) -> Result<Support, Fail> {
    let mut points = Vec::new(alloc);
    for (coords, base, speed) in given {
        let coords = IntVec::from_slice(alloc, coords)?;
        points.push(Point {
            coords,
            base: *base,
            speed: *speed,
        })?;
    }
    Ok(Support { points, file })
}

// The file of one support in dimension 1, without start heights.
fn segment(alloc: Global, points: &[(&[i128], i64)]) -> Result<Result<LiftFile, ShapeFault>, Fail> {
    let mut supports = Vec::new(alloc);
    supports.push(file_points(alloc, points)?)?;
    Ok(LiftFile::new(alloc, 1, supports, None))
}

// The fault of one point in each of two supports with these start heights.
fn starts_fault(alloc: Global, first: i64, second: i64) -> Result<Option<ShapeFault>, Fail> {
    let mut supports = Vec::new(alloc);
    let mut starts = Vec::new(alloc);
    for height in [first, second] {
        supports.push(file_points(alloc, &[(&[0, 0], 1)])?)?;
        starts.push(Vec::from_slice(alloc, &[height])?)?;
    }
    Ok(LiftFile::new(alloc, 2, supports, Some(starts)).err())
}

// The problem of the first points of each square.
fn squares(alloc: Global, count: usize) -> Result<Result<Problem, ShapeFault>, Fail> {
    let mut supports = Vec::new(alloc);
    for points in [&FIRST, &SECOND] {
        supports.push(support(alloc, &points[..count.min(7)], 4)?)?;
    }
    Ok(Problem::new(alloc, 2, supports))
}

fn problem_fault(
    alloc: Global,
    points: &[(&[i128], i64, i64)],
    file: u32,
) -> Result<Option<ShapeFault>, Fail> {
    let mut supports = Vec::new(alloc);
    supports.push(support(alloc, points, file)?)?;
    Ok(Problem::new(alloc, 1, supports).err())
}

fn order(alloc: Global, first: &[(u32, u32)], second: &[(u32, u32)]) -> Option<Ordering> {
    let first = Cell::new(alloc, first)?;
    let second = Cell::new(alloc, second)?;
    Some(first.cmp(&second))
}

#[test]
fn cells_are_pairs_that_rise(rt: HostRuntime) {
    let table: [(&[(u32, u32)], bool); 6] = [
        (&[(1, 2)], true),
        (&[(1, 2), (3, 7)], true),
        (&[], false),
        (&[(0, 1)], false),
        (&[(2, 2)], false),
        (&[(1, 2); 17], false),
    ];
    for (pairs, want) in table {
        let kept = Cell::new(rt.alloc(), pairs).map(|cell| cell.copy().pairs() == pairs);
        assert_eq!(rt; kept, if want { Some(true) } else { None });
    }
}

#[test]
fn cells_are_ordered_by_their_numbers(rt: HostRuntime) {
    let table: [(&[(u32, u32)], &[(u32, u32)], Ordering); 4] = [
        (&[(1, 2), (1, 3)], &[(1, 2), (1, 4)], Ordering::Less),
        (&[(1, 2)], &[(1, 2), (1, 2)], Ordering::Less),
        (&[(1, 3)], &[(1, 2), (9, 10)], Ordering::Greater),
        (&[(3, 4)], &[(3, 4)], Ordering::Equal),
    ];
    for (first, second, want) in table {
        assert_eq!(rt; order(rt.alloc(), first, second), Some(want));
    }
}

#[test]
fn faults_of_a_file(rt: HostRuntime) -> Result<(), Fail> {
    let table: [(&[(&[i128], i64)], Option<ShapeFault>); 7] = [
        (&[(&[0], 0), (&[2], 1)], None),
        (&[], Some(ShapeFault::BadShape)),
        (&[(&[0], 0), (&[0, 1], 0)], Some(ShapeFault::BadShape)),
        (
            &[(&[0], 0), (&[1_000_001], 1)],
            Some(ShapeFault::Range {
                support: 1,
                position: 2,
            }),
        ),
        (
            &[(&[0], 1_000_000_001)],
            Some(ShapeFault::Range {
                support: 1,
                position: 1,
            }),
        ),
        (
            &[(&[4], 0), (&[7], 1), (&[4], 2)],
            Some(ShapeFault::Repeated {
                support: 1,
                position: 3,
            }),
        ),
        (
            &[(&[4], 0), (&[4], -1_000_000_001)],
            Some(ShapeFault::Range {
                support: 1,
                position: 2,
            }),
        ),
    ];
    for (points, want) in table {
        assert_eq!(rt; segment(rt.alloc(), points)?.err(), want);
    }
    Ok(())
}

#[test]
fn start_heights_have_limits(rt: HostRuntime) -> Result<(), Fail> {
    for (first, second, want) in [
        (100, 1_000_000_000, None),
        (100, 0, Some(ShapeFault::StartRange { support: 2 })),
        (
            1_000_000_001,
            0,
            Some(ShapeFault::StartRange { support: 1 }),
        ),
    ] {
        assert_eq!(rt; starts_fault(rt.alloc(), first, second)?, want);
    }
    Ok(())
}

#[test]
fn a_file_makes_a_plain_problem(rt: HostRuntime) -> Result<(), Fail> {
    let file = segment(rt.alloc(), &[(&[0], 0), (&[1], -2), (&[3], 0)])??;
    assert!(rt; file.dim() == 1 && file.support(1).len() == 3 && file.starts().is_none());
    let problem = Problem::plain(rt.alloc(), &file)?;
    assert!(rt; problem.dim() == 1 && problem.count(1) == 3 && problem.file_count(1) == 3);
    let point = problem.point(1, 2);
    assert!(rt; point.coords.as_slice() == [1].as_slice() && point.base == -2 && point.speed == 0);
    assert!(rt; problem.is_file_point(1, 3));
    Ok(())
}

#[test]
fn faults_of_a_problem(rt: HostRuntime) -> Result<(), Fail> {
    let table: [(&[(&[i128], i64, i64)], u32, Option<ShapeFault>); 8] = [
        (&[(&[5], 7, 0), (&[5], 0, 1), (&[6], 0, 1)], 1, None),
        (&[(&[5], 7, 1)], 1, Some(ShapeFault::BadShape)),
        (&[(&[5], 7, 0), (&[5], 0, 1)], 1, Some(ShapeFault::BadShape)),
        (
            &[(&[5], 7, 0), (&[5], 0, 0), (&[6], 0, 1)],
            1,
            Some(ShapeFault::BadShape),
        ),
        (
            &[(&[5], 7, 0), (&[6], 7, 0), (&[5], 8, 0)],
            3,
            Some(ShapeFault::Repeated {
                support: 1,
                position: 3,
            }),
        ),
        (
            &[(&[5], 7, 0), (&[33_000_001], 0, 1), (&[6], 0, 1)],
            1,
            Some(ShapeFault::Range {
                support: 1,
                position: 2,
            }),
        ),
        (
            &[(&[5], 7, 0), (&[33_000_000], 0, 1), (&[6], -1, 1)],
            1,
            Some(ShapeFault::Range {
                support: 1,
                position: 3,
            }),
        ),
        (
            &[(&[1_000_001], 7, 0)],
            1,
            Some(ShapeFault::Range {
                support: 1,
                position: 1,
            }),
        ),
    ];
    for (points, file, want) in table {
        assert_eq!(rt; problem_fault(rt.alloc(), points, file)?, want);
    }
    Ok(())
}

#[test]
fn rows_of_a_cell_of_two_squares(rt: HostRuntime) -> Result<(), Fail> {
    let plain = squares(rt.alloc(), 4)??;
    let path = squares(rt.alloc(), 7)??;
    assert!(rt; path.dim() == 2 && plain.dim() == 2);
    assert!(rt; plain.count(2) == 4 && path.count(2) == 7 && path.file_count(2) == 4);
    let cell = Cell::new(rt.alloc(), &[(1, 6), (4, 5)]);
    assert!(rt; cell.is_some());
    if let Some(cell) = &cell {
        assert!(rt; path.contains(cell) && !plain.contains(cell));
        let rows = path.edge_rows(rt.alloc(), cell)?;
        assert!(rt; rows.len() == 2);
        assert_eq!(rt; rows[0].as_slice(), [2, 0, -3, 1, 1, 0].as_slice());
        assert_eq!(rt; rows[1].as_slice(), [-1, -1, -1, 1, 0, 1].as_slice());
    }
    Ok(())
}

// The file of one support in dimension 1, perturbed.
fn perturbed(
    alloc: Global,
    points: &[(&[i128], i64)],
) -> Result<Result<LiftFile, ShapeFault>, Fail> {
    let mut supports = Vec::new(alloc);
    supports.push(file_points(alloc, points)?)?;
    Ok(LiftFile::perturbed(alloc, 1, supports, None))
}

fn second_heights(alloc: Global, heights: &[i64]) -> Result<Vec<Vec<i64>>, Fail> {
    let mut second = Vec::new(alloc);
    second.push(Vec::from_slice(alloc, heights)?)?;
    Ok(second)
}

// The fault of second heights for the points 0 and 2.
fn between_fault(alloc: Global, heights: &[i64]) -> Result<Option<ShapeFault>, Fail> {
    let file = segment(alloc, &[(&[0], 0), (&[2], 1)])??;
    let second = second_heights(alloc, heights)?;
    Ok(Problem::between(alloc, &file, &second).err())
}

#[test]
fn files_have_a_version(rt: HostRuntime) -> Result<(), Fail> {
    let first = segment(rt.alloc(), &[(&[0], 0), (&[2], 1)])??;
    let second = perturbed(rt.alloc(), &[(&[0], 0), (&[2], 1)])??;
    assert!(rt; first.version() == 1 && first.form() == Version::First);
    assert!(rt; second.version() == 2 && second.form() == Version::Second);
    let plain = Problem::plain(rt.alloc(), &second)?;
    assert!(rt; plain.dim() == 1 && plain.count(1) == 2);
    assert!(rt; plain.version() == 2 && plain.is_still());
    assert!(rt; plain.rank(1, 1) == 1 && plain.rank(1, 2) == 2);
    let faulty = perturbed(rt.alloc(), &[(&[0], 0), (&[0], 1)])?;
    let want = ShapeFault::Repeated {
        support: 1,
        position: 2,
    };
    assert_eq!(rt; faulty.err(), Some(want));
    Ok(())
}

#[test]
fn all_but_the_start_corners_have_a_rank(rt: HostRuntime) -> Result<(), Fail> {
    let mut supports = Vec::new(rt.alloc());
    for points in [&FIRST, &SECOND] {
        supports.push(support(rt.alloc(), points, 4)?)?;
    }
    let problem = Problem::perturbed(rt.alloc(), 2, supports)?;
    assert!(rt; problem.dim() == 2 && problem.count(1) == 7 && problem.count(2) == 7);
    assert!(rt; problem.version() == 2 && problem.is_still());
    assert!(rt; problem.rank(1, 4) == 4 && problem.rank(1, 5) == 0);
    assert!(rt; problem.rank(1, 6) == 0 && problem.rank(1, 7) == 5);
    assert!(rt; problem.rank(2, 1) == 6 && problem.rank(2, 5) == 0);
    assert!(rt; problem.rank(2, 6) == 10 && problem.rank(2, 7) == 0);
    let plain = squares(rt.alloc(), 7)??;
    assert!(rt; plain.dim() == 2 && plain.count(2) == 7);
    assert!(rt; plain.version() == 1 && plain.rank(2, 6) == 0);
    Ok(())
}

#[test]
fn heights_go_from_one_lift_to_another(rt: HostRuntime) -> Result<(), Fail> {
    let file = perturbed(rt.alloc(), &[(&[0], 4), (&[2], -1)])??;
    let second = second_heights(rt.alloc(), &[4, 1_000_000_000])?;
    let problem = Problem::between(rt.alloc(), &file, &second)?;
    assert!(rt; problem.dim() == 1 && problem.count(1) == 2);
    assert!(rt; problem.version() == 1 && !problem.is_still() && problem.rank(1, 2) == 0);
    let resting = problem.point(1, 1);
    assert!(rt; resting.base == 4 && resting.speed == 0);
    let rising = problem.point(1, 2);
    assert!(rt; rising.base == -1 && rising.speed == 1_000_000_001);
    Ok(())
}

#[test]
fn faults_of_second_heights(rt: HostRuntime) -> Result<(), Fail> {
    let table: [(&[i64], Option<ShapeFault>); 4] = [
        (&[0, 5], None),
        (&[0], Some(ShapeFault::BadShape)),
        (
            &[0, -1_000_000_001],
            Some(ShapeFault::Range {
                support: 1,
                position: 2,
            }),
        ),
        (
            &[1_000_000_001, 1_000_000_001],
            Some(ShapeFault::Range {
                support: 1,
                position: 1,
            }),
        ),
    ];
    for (heights, want) in table {
        assert_eq!(rt; between_fault(rt.alloc(), heights)?, want);
    }
    Ok(())
}
