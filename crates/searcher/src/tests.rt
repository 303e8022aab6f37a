ghost use Rattle.std.specs.Prelude.{◌≡◌, ◌<◌};
ghost use Rattle.cayley.specs.Problems.{IsStill};

use crate::{Begin, Branch, Children, Expansion, Halt, HaltCause, expand};
use cayley::{Cell, Point, Problem, Support};
use cone_walls::Steps;
use int_vectors::IntVec;
use lex_height::{Lex, LexPart};
use std::alloc::Global;
use std::marker::Brand;
use std::sync::ledger::{Blank, Ledger};
use std::test::Fail;
use wide_int::OutOfMemory;

// Two squares, and the corners of their path.
const FIRST: [(&[i128], i64, i64); 7] = [
    (&[0, 0], 3, 0),
    (&[1, 0], 10, 0),
    (&[0, 1], 20, 0),
    (&[1, 1], 90, 0),
    (&[0, 0], 0, 1),
    (&[2, 0], 0, 1),
    (&[0, 2], 100, 1),
];

const SECOND: [(&[i128], i64, i64); 7] = [
    (&[0, 0], 5, 0),
    (&[1, 0], 40, 0),
    (&[0, 1], 9, 0),
    (&[1, 1], 1, 0),
    (&[0, 0], 0, 1),
    (&[2, 0], 100, 1),
    (&[0, 2], 0, 1),
];

// Three points of one height on a line, and the corners of their path.
const LEVEL: [(&[i128], i64, i64); 5] = [
    (&[0], 0, 0),
    (&[1], 0, 0),
    (&[2], 0, 0),
    (&[0], 0, 1),
    (&[2], 0, 1),
];

const INNER: i128 = 1;

const TARGET: i128 = 2;

const ENDLESS: i128 = 3;

const STRANGER: i128 = 4;

const TIE: i128 = 5;

fn support(alloc: Global, given: &[(&[i128], i64, i64)], file: u32) -> Result<Support, Fail> {
    let mut points = Vec::new(alloc);
    for (coords, base, speed) in given {
        let coords = IntVec::from_slice(alloc, coords)?;
        points.push(Point {
            coords,
            base: *base,
            speed: *speed,
        })?;
    }
    Ok(Support { points, file })
}

fn squares(alloc: Global) -> Result<Problem, Fail> {
    let mut supports = Vec::new(alloc);
    for points in [&FIRST, &SECOND] {
        supports.push(support(alloc, points, 4)?)?;
    }
    Ok(Problem::new(alloc, 2, supports)?)
}

fn level_supports(alloc: Global) -> Result<Vec<Support>, Fail> {
    let mut supports = Vec::new(alloc);
    supports.push(support(alloc, &LEVEL, 3)?)?;
    Ok(supports)
}

// The beginning at a whole number over another.
fn at(num: i128, den: i128) -> Option<Begin> {
    Some(Begin::At(Lex::new(&[LexPart { rank: 0, num }], den)?))
}

// The beginning at infinitesimals.
fn near_zero(parts: &[LexPart]) -> Option<Begin> {
    Some(Begin::At(Lex::new(parts, 1)?))
}

// The pairs of a branch, the ranks and numbers of its time, and the time's denominator.
fn push_branch(shown: &mut Vec<i128>, branch: &Branch) -> Result<(), Fail> {
    for (a, b) in branch.cell().pairs() {
        shown.push(i128::from(*a))?;
        shown.push(i128::from(*b))?;
    }
    if let Begin::At(time) = branch.begin() {
        for part in time.parts() {
            shown.push(i128::from(part.rank))?;
            shown.push(part.num)?;
        }
        shown.push(time.den())?;
    }
    Ok(())
}

fn push_children(shown: &mut Vec<i128>, children: &Children) -> Result<(), Fail> {
    match children {
        Children::None => Ok(()),
        Children::One(first) => push_branch(shown, first),
        Children::Two(first, second) => {
            push_branch(shown, first)?;
            push_branch(shown, second)
        }
    }
}

// A word for the answer, and what it has in it.
fn shown(alloc: Global, answer: &Result<Expansion, Halt>) -> Result<Vec<i128>, Fail> {
    let mut shown = Vec::new(alloc);
    match answer {
        Ok(Expansion::Inner { children }) => {
            shown.push(INNER)?;
            push_children(&mut shown, children)?;
        }
        Ok(Expansion::Target(found)) => {
            shown.push(TARGET)?;
            for x in found.normal.v.as_slice() {
                shown.push(*x)?;
            }
            shown.push(found.normal.den)?;
        }
        Ok(Expansion::Endless) => shown.push(ENDLESS)?,
        Ok(Expansion::Stranger { branch }) => {
            shown.push(STRANGER)?;
            push_branch(&mut shown, branch)?;
        }
        Err(halt) => {
            if let HaltCause::Tie(proof) = &halt.cause {
                shown.push(TIE)?;
                for part in proof.time.parts() {
                    shown.push(part.num)?;
                }
                shown.push(i128::from(proof.first.position))?;
                if let Some(second) = &proof.second {
                    shown.push(i128::from(second.position))?;
                }
            }
        }
    }
    Ok(shown)
}

// By a counter of its own.
fn counted<L: Ledger>(
    alloc: Global,
    problem: &Problem,
    branch: Branch,
    blank: Blank,
) -> Result<Expansion, Halt>
    requires ledger { (blank.name ≡ L.name) × (blank.parts ≡ L.parts) × (0 < blank.parts) }
    requires still { IsStill problem.now }
{
    let mut steps = Steps::<L>::new(blank);
    expand(alloc, problem, branch, &mut steps)
}

// The expansion of the branch of a cell, as shown.
fn expanded(
    alloc: Global,
    problem: &Problem,
    pairs: &[(u32, u32)],
    begin: Option<Begin>,
) -> Result<Vec<i128>, Fail> {
    let (Some(cell), Some(begin)) = (Cell::new(alloc, pairs), begin) else {
        return Ok(Vec::new(alloc));
    };
    if !problem.is_still() {
        return Ok(Vec::new(alloc));
    }
    let answer = counted::<Brand>(alloc, problem, Branch::new(cell, begin), Blank::new(1));
    if let Err(halt) = &answer {
        if let HaltCause::OutOfMemory = &halt.cause {
            return Err(OutOfMemory.into());
        }
    }
    shown(alloc, &answer)
}

#[test]
fn start_of_two_squares(rt: HostRuntime) -> Result<(), Fail> {
    let alloc = rt.alloc();
    let path = squares(alloc)?;
    let start = expanded(alloc, &path, &[(5, 6), (5, 7)], Some(Begin::Start))?;
    let want = [INNER, 5, 6, 4, 5, 0, 1, 1, 5, 6, 4, 7, 0, 1, 1];
    assert_eq!(rt; start.as_slice(), want.as_slice());
    let target = expanded(alloc, &path, &[(1, 2), (1, 4)], at(17, 1))?;
    assert_eq!(rt; target.as_slice(), [TARGET, -7, 11, 1].as_slice());
    let stranger = expanded(alloc, &path, &[(1, 2), (1, 4)], at(5, 1))?;
    assert_eq!(rt;
        stranger.as_slice(),
        [STRANGER, 1, 2, 1, 4, 0, 5, 1].as_slice()
    );
    let endless = expanded(alloc, &path, &[(2, 6), (2, 4)], at(45, 1))?;
    assert_eq!(rt; endless.as_slice(), [ENDLESS].as_slice());
    Ok(())
}

#[test]
fn inner_cells_of_two_squares(rt: HostRuntime) -> Result<(), Fail> {
    let alloc = rt.alloc();
    let path = squares(alloc)?;
    let cell = expanded(alloc, &path, &[(5, 6), (4, 5)], at(1, 1))?;
    assert_eq!(rt; cell.as_slice(), [INNER, 1, 6, 4, 5, 0, 3, 1].as_slice());
    let cell = expanded(alloc, &path, &[(5, 6), (4, 7)], at(1, 1))?;
    assert_eq!(rt; cell.as_slice(), [INNER, 1, 6, 4, 7, 0, 3, 1].as_slice());
    let cell = expanded(alloc, &path, &[(1, 6), (4, 5)], at(3, 1))?;
    assert_eq!(rt; cell.as_slice(), [INNER, 1, 6, 1, 4, 0, 5, 1].as_slice());
    let cell = expanded(alloc, &path, &[(1, 6), (4, 7)], at(3, 1))?;
    let want = [INNER, 1, 3, 4, 7, 0, 13, 1, 3, 6, 4, 7, 0, 13, 1];
    assert_eq!(rt; cell.as_slice(), want.as_slice());
    let cell = expanded(alloc, &path, &[(1, 6), (1, 4)], at(5, 1))?;
    let want = [INNER, 1, 2, 1, 4, 0, 17, 1, 2, 6, 1, 4, 0, 17, 1];
    assert_eq!(rt; cell.as_slice(), want.as_slice());
    let cell = expanded(alloc, &path, &[(1, 3), (4, 7)], at(13, 1))?;
    assert_eq!(rt; cell.as_slice(), [INNER, 1, 3, 3, 4, 0, 26, 1].as_slice());
    let cell = expanded(alloc, &path, &[(3, 6), (4, 7)], at(13, 1))?;
    assert_eq!(rt; cell.as_slice(), [INNER, 3, 4, 4, 7, 0, 91, 2].as_slice());
    let cell = expanded(alloc, &path, &[(2, 6), (1, 4)], at(17, 1))?;
    assert_eq!(rt; cell.as_slice(), [INNER, 2, 6, 2, 4, 0, 45, 1].as_slice());
    let cell = expanded(alloc, &path, &[(1, 3), (3, 4)], at(26, 1))?;
    assert_eq!(rt; cell.as_slice(), [TARGET, 8, -17, 1].as_slice());
    let cell = expanded(alloc, &path, &[(3, 4), (4, 7)], at(91, 2))?;
    assert_eq!(rt; cell.as_slice(), [ENDLESS].as_slice());
    Ok(())
}

#[test]
fn cells_of_three_level_points(rt: HostRuntime) -> Result<(), Fail> {
    let alloc = rt.alloc();
    let path = Problem::perturbed(alloc, 1, level_supports(alloc)?)?;
    let third = [LexPart { rank: 3, num: 1 }];
    let second = [LexPart { rank: 2, num: 2 }, LexPart { rank: 3, num: -1 }];
    let first = [LexPart { rank: 1, num: 1 }];
    let cell = expanded(alloc, &path, &[(4, 5)], Some(Begin::Start))?;
    assert_eq!(rt; cell.as_slice(), [INNER, 3, 4, 3, 1, 1].as_slice());
    let cell = expanded(alloc, &path, &[(3, 4)], near_zero(&third))?;
    let want = [INNER, 2, 3, 2, 2, 3, -1, 1, 2, 4, 2, 2, 3, -1, 1];
    assert_eq!(rt; cell.as_slice(), want.as_slice());
    let cell = expanded(alloc, &path, &[(2, 3)], near_zero(&second))?;
    assert_eq!(rt; cell.as_slice(), [TARGET, 0, 1].as_slice());
    let cell = expanded(alloc, &path, &[(2, 4)], near_zero(&second))?;
    assert_eq!(rt; cell.as_slice(), [INNER, 1, 2, 1, 1, 1].as_slice());
    let cell = expanded(alloc, &path, &[(1, 2)], near_zero(&first))?;
    assert_eq!(rt; cell.as_slice(), [TARGET, 0, 1].as_slice());
    Ok(())
}

#[test]
fn tie_of_three_level_points(rt: HostRuntime) -> Result<(), Fail> {
    let alloc = rt.alloc();
    let path = Problem::new(alloc, 1, level_supports(alloc)?)?;
    let cell = expanded(alloc, &path, &[(4, 5)], Some(Begin::Start))?;
    assert_eq!(rt; cell.as_slice(), [TIE, 1, 2].as_slice());
    Ok(())
}
