ghost use Rattle.std.specs.Prelude.{IsTrue};
ghost use Rattle.int_vectors.specs.Vectors.{Each};
ghost use Rattle.cell_certificate.specs.Written.{IsListed};

use crate::{CheckFault, Verdict, check};
use cayley::{Cell, FilePoint, LiftFile, Normal, Problem};
use int_vectors::IntVec;
use listing_text::{ListedCell, Listing};
use std::alloc::Global;
use std::test::Fail;

// The number of a line, its pairs, its normal and the denominator.
type Line = (u64, [(u32, u32); 2], [i128; 2], i128);

const FIRST: [(u32, u32); 2] = [(1, 2), (1, 4)];

const SECOND: [(u32, u32); 2] = [(1, 3), (3, 4)];

// Two supports of the four corners of a square.
fn two_squares(alloc: Global) -> Result<LiftFile, Fail> {
    let mut supports = Vec::new(alloc);
    for heights in [[3, 10, 20, 90], [5, 40, 9, 1]] {
        let mut points = Vec::new(alloc);
        for (place, coords) in [[0, 0], [1, 0], [0, 1], [1, 1]].iter().enumerate() {
            let coords = IntVec::from_slice(alloc, coords)?;
            points.push(FilePoint {
                coords,
                height: heights[place],
            })?;
        }
        supports.push(points)?;
    }
    Ok(LiftFile::new(alloc, 2, supports, None)?)
}

fn listing(alloc: Global, lines: &[Line]) -> Result<Listing, Fail> {
    let mut cells = Vec::new(alloc);
    for (line, pairs, v, den) in lines {
        let Some(cell) = Cell::new(alloc, pairs) else {
            return Err(Fail::from("not a cell"));
        };
        let normal = Normal {
            v: IntVec::from_slice(alloc, v)?,
            den: *den,
        };
        cells.push(ListedCell {
            line: *line,
            cell,
            normal,
        })?;
    }
    let file = two_squares(alloc)?;
    Ok(Listing { file, cells })
}

// Whether each line has one pair of points for each support, and as many numbers over a denominator
// of at least 1.
fn are_listed(problem: &Problem, cells: &[ListedCell]) -> bool
    ensures { IsTrue result → Each cells.now (IsListed problem.now) }
{
    cells.iter().all(|x| {
        problem.contains(&x.cell) && x.normal.v.len() == problem.dim() && 0 < x.normal.den
    })
}

// Three points of a line of equal heights with infinitesimals, and a list of cells with the normal 0.
fn level_points(alloc: Global, lines: &[(u64, (u32, u32))]) -> Result<Listing, Fail> {
    let mut points = Vec::new(alloc);
    for x in [0, 1, 2] {
        let coords = IntVec::from_slice(alloc, &[x])?;
        points.push(FilePoint { coords, height: 0 })?;
    }
    let mut supports = Vec::new(alloc);
    supports.push(points)?;
    let file = LiftFile::perturbed(alloc, 1, supports, None)?;
    let mut cells = Vec::new(alloc);
    for (line, pair) in lines {
        let Some(cell) = Cell::new(alloc, &[*pair]) else {
            return Err(Fail::from("not a cell"));
        };
        let v = IntVec::from_slice(alloc, &[0])?;
        cells.push(ListedCell {
            line: *line,
            cell,
            normal: Normal { v, den: 1 },
        })?;
    }
    Ok(Listing { file, cells })
}

#[test]
fn lines_are_judged_in_order(rt: HostRuntime) -> Result<(), Fail> {
    const GREATEST: i128 = i128::MAX;
    let last = (18, SECOND, [8, -17], 1);
    let table: [(&[Line], Result<Verdict, CheckFault>); 8] = [
        (&[], Ok(Verdict::Yes)),
        (&[(17, FIRST, [-7, 11], 1), last], Ok(Verdict::Yes)),
        (
            &[(17, FIRST, [-7, 12], 1), last],
            Ok(Verdict::No {
                line: 17,
                reason: 3,
            }),
        ),
        (
            &[(17, SECOND, [8, -17], 1), (18, FIRST, [-7, 11], 1)],
            Ok(Verdict::No {
                line: 18,
                reason: 1,
            }),
        ),
        (
            &[(17, FIRST, [-14, 22], 2), last],
            Ok(Verdict::No {
                line: 17,
                reason: 5,
            }),
        ),
        (
            &[(17, [(1, 2), (1, 3)], [-7, -4], 1), last],
            Ok(Verdict::No {
                line: 17,
                reason: 4,
            }),
        ),
        (
            &[(17, [(1, 4), (1, 4)], [0, 0], 1)],
            Ok(Verdict::No {
                line: 17,
                reason: 2,
            }),
        ),
        (
            &[(17, FIRST, [GREATEST, 11], 1)],
            Err(CheckFault::Overflow { line: 17 }),
        ),
    ];
    for (lines, want) in table {
        let listing = listing(rt.alloc(), lines)?;
        let problem = Problem::plain(rt.alloc(), &listing.file)?;
        assert!(rt; are_listed(&problem, &listing.cells));
        assert_eq!(rt; check(rt.alloc(), &listing), want);
    }
    Ok(())
}

#[test]
fn points_of_sum_zero_are_told_by_their_circuits(rt: HostRuntime) -> Result<(), Fail> {
    let table: [(&[(u64, (u32, u32))], Result<Verdict, CheckFault>); 2] = [
        (&[(9, (1, 2)), (10, (2, 3))], Ok(Verdict::Yes)),
        (&[(9, (1, 3))], Ok(Verdict::No { line: 9, reason: 4 })),
    ];
    for (lines, want) in table {
        let listing = level_points(rt.alloc(), lines)?;
        let problem = Problem::plain(rt.alloc(), &listing.file)?;
        assert!(rt; are_listed(&problem, &listing.cells));
        assert_eq!(rt; check(rt.alloc(), &listing), want);
    }
    Ok(())
}
