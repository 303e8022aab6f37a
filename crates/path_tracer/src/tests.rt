ghost use Rattle.std.specs.Prelude.{◌≡◌, ◌<◌};
ghost use Rattle.start_system.specs.Started.{IsStarted};

use crate::{HaltCause, Trace, trace_alone};
use cayley::{Point, Problem, Support};
use cone_walls::Steps;
use int_vectors::IntVec;
use start_system::is_started;
use std::alloc::Global;
use std::marker::Brand;
use std::sync::ledger::{Blank, Ledger};
use std::test::Fail;
use wide_int::OutOfMemory;

// Two squares, and the corners of their path.
const FIRST_SQUARE: [(&[i128], i64, i64); 7] = [
    (&[0, 0], 3, 0),
    (&[1, 0], 10, 0),
    (&[0, 1], 20, 0),
    (&[1, 1], 90, 0),
    (&[0, 0], 0, 1),
    (&[2, 0], 0, 1),
    (&[0, 2], 100, 1),
];

const SECOND_SQUARE: [(&[i128], i64, i64); 7] = [
    (&[0, 0], 5, 0),
    (&[1, 0], 40, 0),
    (&[0, 1], 9, 0),
    (&[1, 1], 1, 0),
    (&[0, 0], 0, 1),
    (&[2, 0], 100, 1),
    (&[0, 2], 0, 1),
];

// A segment of length two, and the corners of its path.
const SEGMENT: [(&[i128], i64, i64); 4] = [(&[0], 0, 0), (&[2], 1, 0), (&[0], 0, 1), (&[2], 0, 1)];

// Two points of equal height, and the corners of their path.
const TWO_LEVEL_POINTS: [(&[i128], i64, i64); 4] = [
    (&[0], 7, 0),
    (&[1], 7, 0),
    (&[0], 0, 1),
    (&[1], 0, 1),
];

// The cells of the path tree of the two squares in preorder, each with the least number that makes
// the inverse of its differences whole, and that number times the inverse.
#[rattlefmt::skip]
const TWO_SQUARES: [i128; 117] = [
    5, 6, 5, 7, 2, 1, 0, 0, 1, 5, 6, 4, 5, 2, 1, 0, -1, -2, 1, 6, 4, 5, 2, 1, 0, -1, -2, 1, 6, 1,
    4, 2, 1, 0, -1, 2, 1, 2, 1, 4, 1, 1, 0, -1, 1, 2, 6, 1, 4, 1, 1, 0, -1, 1, 2, 6, 2, 4, 1, 1, 0,
    0, 1, 5, 6, 4, 7, 2, 1, 0, 1, 2, 1, 6, 4, 7, 2, 1, 0, 1, 2, 1, 3, 4, 7, 1, 1, -1, 1, 0, 1, 3,
    3, 4, 1, 0, 1, 1, 0, 3, 6, 4, 7, 1, 1, 1, 1, 2, 3, 4, 4, 7, 1, 1, 0, 1, 1,
];

fn support(alloc: Global, given: &[(&[i128], i64, i64)], file: u32) -> Result<Support, Fail> {
    let mut points = Vec::new(alloc);
    for (coords, base, speed) in given {
        let coords = IntVec::from_slice(alloc, coords)?;
        points.push(Point {
            coords,
            base: *base,
            speed: *speed,
        })?;
    }
    Ok(Support { points, file })
}

fn two_squares(alloc: Global) -> Result<Problem, Fail> {
    let mut supports = Vec::new(alloc);
    supports.push(support(alloc, &FIRST_SQUARE, 4)?)?;
    supports.push(support(alloc, &SECOND_SQUARE, 4)?)?;
    Ok(Problem::new(alloc, 2, supports)?)
}

// The path of two points of a line.
fn two_points(alloc: Global, given: &[(&[i128], i64, i64)]) -> Result<Problem, Fail> {
    let mut supports = Vec::new(alloc);
    supports.push(support(alloc, given, 2)?)?;
    Ok(Problem::new(alloc, 1, supports)?)
}

// By a counter of its own.
fn counted<L: Ledger>(alloc: Global, problem: &Problem, blank: Blank) -> Result<Trace, HaltCause>
    requires ledger { (blank.name ≡ L.name) × (blank.parts ≡ L.parts) × (0 < blank.parts) }
    requires started { IsStarted problem.now }
{
    let mut steps = Steps::<L>::new(blank);
    trace_alone(alloc, problem, &mut steps)
}

fn traced(alloc: Global, problem: &Problem) -> Result<Result<Trace, HaltCause>, Fail> {
    if !is_started(problem) {
        return Err(OutOfMemory.into());
    }
    Ok(counted::<Brand>(alloc, problem, Blank::new(1)))
}

// The positions, the scale and the numbers of each node, and the normal of each found cell.
fn shown(alloc: Global, trace: &Trace) -> Result<Vec<i128>, Fail> {
    let mut shown = Vec::new(alloc);
    for node in &trace.nodes {
        for (a, b) in node.cell.pairs() {
            shown.push(i128::from(*a))?;
            shown.push(i128::from(*b))?;
        }
        shown.push(node.scale)?;
        for x in node.inverse.as_slice() {
            shown.push(*x)?;
        }
    }
    for found in &trace.found {
        for x in found.normal.v.as_slice() {
            shown.push(*x)?;
        }
        shown.push(found.normal.den)?;
    }
    Ok(shown)
}

#[test]
fn a_segment_and_two_squares(rt: HostRuntime) -> Result<(), Fail> {
    let alloc = rt.alloc();
    let Ok(trace) = traced(alloc, &two_points(alloc, &SEGMENT)?)? else {
        return Err(OutOfMemory.into());
    };
    let nodes = shown(alloc, &trace)?;
    let want = [3, 4, 2, 1, 1, 4, 2, 1, 1, 2, 2, 1, -1, 2];
    assert_eq!(rt; nodes.as_slice(), want.as_slice());
    let Ok(trace) = traced(alloc, &two_squares(alloc)?)? else {
        return Err(OutOfMemory.into());
    };
    let nodes = shown(alloc, &trace)?;
    assert!(rt; nodes.starts_with(&TWO_SQUARES));
    assert_eq!(rt;
        (nodes.len(), trace.nodes.len(), trace.found.len()),
        (123, 13, 2)
    );
    Ok(())
}

#[test]
fn a_tie_halts_it(rt: HostRuntime) -> Result<(), Fail> {
    let alloc = rt.alloc();
    let answer = traced(alloc, &two_points(alloc, &TWO_LEVEL_POINTS)?)?;
    if let Err(HaltCause::Tie(proof)) = &answer {
        assert_eq!(rt; proof.cell.pairs(), [(3, 4)].as_slice());
        return Ok(());
    }
    Err(OutOfMemory.into())
}
