ghost use Rattle.std.specs.Prelude.{◌≤◌};
ghost use Rattle.branch_pool.specs.declared.rule.TheConstants.{SEATS};

use crate::{TeamStopped, search_shared, search_together};
use cayley::{Begin, Cell, FoundCell, Point, Problem, Support};
use edge_io::{Gate, HoldGate, NoGate};
use int_vectors::IntVec;
use lex_height::Lex;
use searcher::{Branch, Found, HaltCause};
use start_system::is_started;
use std::alloc::Global;
use std::sync::Wait;
use std::test::Fail;
use std::thread::Threads;
use wide_int::{Frac, OutOfMemory};

// Two squares, and the corners of their path.
const FIRST_SQUARE: [(&[i128], i64, i64); 7] = [
    (&[0, 0], 3, 0),
    (&[1, 0], 10, 0),
    (&[0, 1], 20, 0),
    (&[1, 1], 90, 0),
    (&[0, 0], 0, 1),
    (&[2, 0], 0, 1),
    (&[0, 2], 100, 1),
];

const SECOND_SQUARE: [(&[i128], i64, i64); 7] = [
    (&[0, 0], 5, 0),
    (&[1, 0], 40, 0),
    (&[0, 1], 9, 0),
    (&[1, 1], 1, 0),
    (&[0, 0], 0, 1),
    (&[2, 0], 100, 1),
    (&[0, 2], 0, 1),
];

// Two points of equal height, and the corners of their path.
const TWO_LEVEL_POINTS: [(&[i128], i64, i64); 4] = [
    (&[0], 7, 0),
    (&[1], 7, 0),
    (&[0], 0, 1),
    (&[1], 0, 1),
];

fn support(alloc: Global, given: &[(&[i128], i64, i64)], file: u32) -> Result<Support, Fail> {
    let mut points = Vec::new(alloc);
    for (coords, base, speed) in given {
        let coords = IntVec::from_slice(alloc, coords)?;
        points.push(Point {
            coords,
            base: *base,
            speed: *speed,
        })?;
    }
    Ok(Support { points, file })
}

fn two_squares(alloc: Global) -> Result<Problem, Fail> {
    let mut supports = Vec::new(alloc);
    supports.push(support(alloc, &FIRST_SQUARE, 4)?)?;
    supports.push(support(alloc, &SECOND_SQUARE, 4)?)?;
    Ok(Problem::new(alloc, 2, supports)?)
}

fn two_level_points(alloc: Global) -> Result<Problem, Fail> {
    let mut supports = Vec::new(alloc);
    supports.push(support(alloc, &TWO_LEVEL_POINTS, 2)?)?;
    Ok(Problem::new(alloc, 1, supports)?)
}

fn branch(alloc: Global, pairs: &[(u32, u32)], begin: Begin) -> Result<Branch, Fail> {
    match Cell::new(alloc, pairs) {
        Some(cell) => Ok(Branch::new(cell, begin)),
        None => Err(OutOfMemory.into()),
    }
}

// The beginning at a whole time.
fn at(time: i128) -> Result<Begin, Fail> {
    match Frac::lowest(time, 1) {
        Some(time) => Ok(Begin::At(Lex::of(&time))),
        None => Err(OutOfMemory.into()),
    }
}

fn just(alloc: Global, branch: Branch) -> Result<Vec<Branch>, Fail> {
    let mut branches = Vec::new(alloc);
    branches.push(branch)?;
    Ok(branches)
}

// The positions of the cells one after the other.
fn positions(alloc: Global, found: &[FoundCell]) -> Result<Vec<u32>, Fail> {
    let mut all = Vec::new(alloc);
    for one in found {
        for (a, b) in one.cell.pairs() {
            all.push(*a)?;
            all.push(*b)?;
        }
    }
    Ok(all)
}

// What a team finds on a path from its start branch.
fn together<G: Gate, R: Threads + Wait + Sync>(
    rt: &R,
    alloc: Global,
    problem: &Problem,
    searchers: u32,
    gate: &G,
) -> Result<Found, Fail>
    requires { (1 ≤ searchers) × (searchers ≤ SEATS) }
{
    if !is_started(problem) {
        return Err(OutOfMemory.into());
    }
    match search_together(rt, alloc, problem, searchers, gate) {
        Ok(found) => Ok(found),
        Err(_cause) => Err(OutOfMemory.into()),
    }
}

// What a team answers on branches of a still problem.
fn shared<G: Gate, R: Threads + Wait + Sync>(
    rt: &R,
    alloc: Global,
    problem: &Problem,
    branches: Vec<Branch>,
    searchers: u32,
    gate: &G,
) -> Result<Result<Found, TeamStopped>, Fail>
    requires { (1 ≤ searchers) × (searchers ≤ SEATS) }
{
    if !problem.is_still() {
        return Err(OutOfMemory.into());
    }
    Ok(search_shared(rt, alloc, problem, branches, searchers, gate))
}

// What a team finds that doesn't stop.
fn found<G: Gate, R: Threads + Wait + Sync>(
    rt: &R,
    alloc: Global,
    problem: &Problem,
    branches: Vec<Branch>,
    searchers: u32,
    gate: &G,
) -> Result<Found, Fail>
    requires { (1 ≤ searchers) × (searchers ≤ SEATS) }
{
    match shared(rt, alloc, problem, branches, searchers, gate)? {
        Ok(found) => Ok(found),
        Err(_stopped) => Err(OutOfMemory.into()),
    }
}

#[test]
fn two_squares_by_one_two_and_eight(rt: HostRuntime) -> Result<(), Fail> {
    let problem = two_squares(rt.alloc())?;
    for searchers in [1u32, 2, 8] {
        assert!(rt; searchers >= 1 && searchers <= 64);
        let found = together(&rt, rt.alloc(), &problem, searchers, &NoGate)?;
        let cells = positions(rt.alloc(), &found.cells)?;
        assert!(rt; cells.as_slice() == [1, 2, 1, 4, 1, 3, 3, 4].as_slice());
        assert_eq!(rt; found.solves, 13);
    }
    Ok(())
}

// The second expansion is held until the other searcher has passed one.
#[test]
fn two_searchers_meet(rt: HostRuntime) -> Result<(), Fail> {
    let problem = two_squares(rt.alloc())?;
    let gate = HoldGate::new(2, 10_000_000);
    let found = together(&rt, rt.alloc(), &problem, 2, &gate)?;
    let cells = positions(rt.alloc(), &found.cells)?;
    assert!(rt; cells.as_slice() == [1, 2, 1, 4, 1, 3, 3, 4].as_slice());
    assert!(rt; gate.met());
    Ok(())
}

#[test]
fn the_start_branch_and_a_stranger(rt: HostRuntime) -> Result<(), Fail> {
    let problem = two_squares(rt.alloc())?;
    for searchers in [1u32, 2] {
        assert!(rt; searchers >= 1 && searchers <= 64);
        let start = branch(rt.alloc(), &[(5, 6), (5, 7)], Begin::Start)?;
        let mut branches = just(rt.alloc(), start)?;
        branches.push(branch(rt.alloc(), &[(1, 2), (1, 4)], at(5)?)?)?;
        let found = found(&rt, rt.alloc(), &problem, branches, searchers, &NoGate)?;
        let cells = positions(rt.alloc(), &found.cells)?;
        assert!(rt; cells.as_slice() == [1, 2, 1, 4, 1, 3, 3, 4].as_slice());
        assert_eq!(rt; found.solves, 14);
    }
    Ok(())
}

#[test]
fn a_cell_of_the_target(rt: HostRuntime) -> Result<(), Fail> {
    let problem = two_squares(rt.alloc())?;
    let last = branch(rt.alloc(), &[(1, 2), (1, 4)], at(17)?)?;
    let found = found(
        &rt,
        rt.alloc(),
        &problem,
        just(rt.alloc(), last)?,
        2,
        &NoGate,
    )?;
    let cells = positions(rt.alloc(), &found.cells)?;
    assert!(rt; cells.as_slice() == [1, 2, 1, 4].as_slice());
    assert_eq!(rt; found.solves, 1);
    Ok(())
}

#[test]
fn a_tie_hands_the_start_branch_back(rt: HostRuntime) -> Result<(), Fail> {
    let problem = two_level_points(rt.alloc())?;
    for searchers in [1u32, 2] {
        assert!(rt; searchers >= 1 && searchers <= 64);
        let start = branch(rt.alloc(), &[(3, 4)], Begin::Start)?;
        let Err(stopped) = shared(
            &rt,
            rt.alloc(),
            &problem,
            just(rt.alloc(), start)?,
            searchers,
            &NoGate,
        )?
        else {
            return Err(OutOfMemory.into());
        };
        if let HaltCause::Tie(proof) = &stopped.cause {
            assert!(rt; proof.cell.pairs() == [(3, 4)].as_slice());
        }
        assert!(rt; matches!(stopped.cause, HaltCause::Tie(_)));
        let mut left = Vec::new(rt.alloc());
        for part in &stopped.parts {
            assert!(rt; part.found.is_empty());
            for branch in &part.left {
                for (a, b) in branch.cell().pairs() {
                    left.push(*a)?;
                    left.push(*b)?;
                }
            }
        }
        assert!(rt; left.as_slice() == [3, 4].as_slice());
        assert!(rt; stopped.unoffered.is_empty());
        assert!(rt; stopped.rest.is_none());
    }
    Ok(())
}
