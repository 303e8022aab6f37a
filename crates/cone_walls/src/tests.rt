ghost use Rattle.std.specs.Prelude.{◌≡◌, ◌+◌, ◌<◌, All, IfOk};
ghost use Rattle.cayley.specs.Cells.{IsOf};
ghost use Rattle.cayley.specs.Problems.{version1, IsStill};
ghost use Rattle.crossing.specs.Lines.{FitsLine};

use crate::{CellFault, End, Steps, WallLine, Walls, end_of, walls_of};
use cayley::{Cell, Place, Point, Problem, Support};
use crossing::{Entry, Exit, entry_of, exit_of};
use int_vectors::IntVec;
use lex_height::{Lex, LexPart};
use std::alloc::Global;
use std::marker::Brand;
use std::sync::ledger::{Blank, Ledger};
use std::test::Fail;
use wide_int::{Frac, OutOfMemory};

// Two squares, and the corners of their path.
const FIRST: [(&[i128], i64, i64); 7] = [
    (&[0, 0], 3, 0),
    (&[1, 0], 10, 0),
    (&[0, 1], 20, 0),
    (&[1, 1], 90, 0),
    (&[0, 0], 0, 1),
    (&[2, 0], 0, 1),
    (&[0, 2], 100, 1),
];

const SECOND: [(&[i128], i64, i64); 7] = [
    (&[0, 0], 5, 0),
    (&[1, 0], 40, 0),
    (&[0, 1], 9, 0),
    (&[1, 1], 1, 0),
    (&[0, 0], 0, 1),
    (&[2, 0], 100, 1),
    (&[0, 2], 0, 1),
];

fn support(alloc: Global, given: &[(&[i128], i64, i64)], file: u32) -> Result<Support, Fail> {
    let mut points = Vec::new(alloc);
    for (coords, base, speed) in given {
        let coords = IntVec::from_slice(alloc, coords)?;
        points.push(Point {
            coords,
            base: *base,
            speed: *speed,
        })?;
    }
    Ok(Support { points, file })
}

pub(crate) fn squares(alloc: Global) -> Result<Problem, Fail>
    ensures { IfOk result (λ p. p.version ≡ version1) }
{
    let mut supports = Vec::new(alloc);
    for points in [&FIRST, &SECOND] {
        supports.push(support(alloc, points, 4)?)?;
    }
    Ok(Problem::new(alloc, 2, supports)?)
}

// Three points of one height on a line, and the corners of their path, with infinitesimals.
const LEVEL: [(&[i128], i64, i64); 5] = [
    (&[0], 0, 0),
    (&[1], 0, 0),
    (&[2], 0, 0),
    (&[0], 0, 1),
    (&[2], 0, 1),
];

fn level_points(alloc: Global) -> Result<Problem, Fail> {
    let mut supports = Vec::new(alloc);
    supports.push(support(alloc, &LEVEL, 3)?)?;
    Ok(Problem::perturbed(alloc, 1, supports)?)
}

// The walls of a cell and the two ends of its lines.
#[derive(Drop)]
struct View {
    walls: Walls,
    entry: Entry,
    exit: Exit,
}

// Each call is a step, whatever it answers.
fn twice<L: Ledger>(
    alloc: Global,
    problem: &Problem,
    cell: &Cell,
    steps: &mut Steps<L>,
) -> Result<Walls, CellFault>
    requires { IsOf problem.now cell.now }
    ensures steps { steps.new ≡ steps.old + 2 }
    ensures fit { IfOk result (λ w. All FitsLine w.lines.items) }
{
    let first = walls_of(alloc, problem, cell, steps);
    drop(first);
    walls_of(alloc, problem, cell, steps)
}

// By a counter of its own.
fn seen<L: Ledger>(
    alloc: Global,
    problem: &Problem,
    cell: &Cell,
    blank: Blank,
) -> Result<View, CellFault>
    requires ledger { (blank.name ≡ L.name) × (blank.parts ≡ L.parts) × (0 < blank.parts) }
    requires of { IsOf problem.now cell.now }
{
    let mut steps = Steps::<L>::new(blank);
    let walls = match twice(alloc, problem, cell, &mut steps) {
        Ok(walls) => walls,
        Err(fault) => return Err(fault),
    };
    let entry = entry_of(&walls.lines);
    let exit = exit_of(&walls.lines);
    Ok(View { walls, entry, exit })
}

// What is seen of a cell of a problem.
fn seen_of(
    alloc: Global,
    problem: &Problem,
    pairs: &[(u32, u32)],
) -> Result<Option<Result<View, CellFault>>, Fail> {
    let Some(cell) = Cell::new(alloc, pairs) else {
        return Ok(None);
    };
    if !problem.contains(&cell) {
        return Ok(None);
    }
    let answer = seen::<Brand>(alloc, problem, &cell, Blank::new(1));
    if let Err(CellFault::OutOfMemory) = &answer {
        return Err(OutOfMemory.into());
    }
    Ok(Some(answer))
}

// What is seen of a cell of the two squares.
fn seen_at(alloc: Global, pairs: &[(u32, u32)]) -> Result<Option<Result<View, CellFault>>, Fail> {
    let problem = squares(alloc)?;
    seen_of(alloc, &problem, pairs)
}

// Where a cell ends, by its normal.
fn ended<L: Ledger>(
    alloc: Global,
    problem: &Problem,
    cell: &Cell,
    blank: Blank,
) -> Result<Option<End>, CellFault>
    requires ledger { (blank.name ≡ L.name) × (blank.parts ≡ L.parts) × (0 < blank.parts) }
    requires of { IsOf problem.now cell.now }
    requires first { problem.now.version ≡ version1 }
    requires still { IsStill problem.now }
{
    let mut steps = Steps::<L>::new(blank);
    let walls = match walls_of(alloc, problem, cell, &mut steps) {
        Ok(walls) => walls,
        Err(fault) => return Err(fault),
    };
    Ok(end_of(alloc, problem, cell, &walls.normal, &mut steps))
}

// Where a cell of the two squares ends.
fn ended_at(alloc: Global, pairs: &[(u32, u32)]) -> Result<Option<End>, Fail> {
    let problem = squares(alloc)?;
    let Some(cell) = Cell::new(alloc, pairs) else {
        return Ok(None);
    };
    if !problem.contains(&cell) || !problem.is_still() {
        return Ok(None);
    }
    match ended::<Brand>(alloc, &problem, &cell, Blank::new(1)) {
        Ok(end) => Ok(end),
        Err(CellFault::OutOfMemory) => Err(OutOfMemory.into()),
        Err(_fault) => Ok(None),
    }
}

// The numbers of the lines one after the other.
fn numbers(alloc: Global, lines: &[WallLine]) -> Result<Vec<i128>, Fail> {
    let mut all = Vec::new(alloc);
    for line in lines {
        all.push(i128::from(line.support))?;
        all.push(i128::from(line.position))?;
        all.push(line.alpha)?;
        all.push(line.beta)?;
    }
    Ok(all)
}

// The fine parts of the lines one after the other, each with the position of its line.
fn fines(alloc: Global, lines: &[WallLine]) -> Result<Vec<i128>, Fail> {
    let mut all = Vec::new(alloc);
    for line in lines {
        for part in line.fine.as_slice() {
            all.push(i128::from(line.position))?;
            all.push(i128::from(part.rank))?;
            all.push(part.num)?;
        }
    }
    Ok(all)
}

#[test]
fn lines_of_the_start_cell(rt: HostRuntime) -> Result<(), Fail> {
    let answer = seen_at(rt.alloc(), &[(5, 6), (5, 7)])?;
    if let Some(Ok(seen)) = &answer {
        let all = numbers(rt.alloc(), &seen.walls.lines)?;
        let want = [
            1, 1, 6, -2, 1, 2, 20, -2, 1, 3, 40, -2, 1, 4, 180, -2, 1, 7, 200, 0, 2, 1, 10, -2, 2,
            2, 80, -2, 2, 3, 18, -2, 2, 4, 2, -2, 2, 6, 200, 0,
        ];
        assert_eq!(rt; all.as_slice(), want.as_slice());
        assert_eq!(rt; seen.entry, Entry::Always);
    } else {
        assert!(rt; false, "the cell has lines");
    }
    Ok(())
}

#[test]
fn lines_of_an_inner_cell(rt: HostRuntime) -> Result<(), Fail> {
    let answer = seen_at(rt.alloc(), &[(1, 6), (4, 5)])?;
    if let Some(Ok(seen)) = &answer {
        let normal = &seen.walls.normal;
        assert_eq!(rt; normal.p.as_slice(), [3, -5].as_slice());
        assert_eq!(rt; normal.q.as_slice(), [-1, 3].as_slice());
        assert_eq!(rt; normal.den, 2);
        assert_eq!(rt; seen.walls.reduced.count(), 2);
        let all = numbers(rt.alloc(), &seen.walls.lines)?;
        let want = [
            1, 2, 17, -1, 1, 3, 29, 3, 1, 4, 172, 2, 1, 5, -6, 2, 1, 7, 184, 8, 2, 1, 10, -2, 2, 2,
            83, -3, 2, 3, 13, 1, 2, 6, 206, -2, 2, 7, -10, 6,
        ];
        assert_eq!(rt; all.as_slice(), want.as_slice());
    } else {
        assert!(rt; false, "the cell has lines");
    }
    Ok(())
}

#[test]
fn ends_of_an_inner_cell(rt: HostRuntime) -> Result<(), Fail> {
    let answer = seen_at(rt.alloc(), &[(1, 6), (4, 5)])?;
    if let Some(Ok(seen)) = &answer {
        let first = Lex::of(&Frac::lowest(3, 1).unwrap());
        let last = Lex::of(&Frac::lowest(5, 1).unwrap());
        assert_eq!(rt;
            seen.entry,
            Entry::At {
                time: first,
                which: 4
            }
        );
        assert_eq!(rt;
            seen.exit,
            Exit::At {
                time: last,
                which: 6
            }
        );
    } else {
        assert!(rt; false, "the cell has lines");
    }
    Ok(())
}

// At the second support's point 1 the inner cell ends at 5, and the start cell at 1 where the last
// point of the second square is level; the pairs (1, 2) and (1, 3) of file points never end.
#[test]
fn ends_by_the_normal(rt: HostRuntime) -> Result<(), Fail> {
    let end = |time: i128, support: u32, position: u32| {
        Some(End::At {
            time: Lex::of(&Frac::lowest(time, 1).unwrap()),
            place: Place { support, position },
        })
    };
    assert_eq!(rt; ended_at(rt.alloc(), &[(1, 6), (4, 5)])?, end(5, 2, 1));
    assert_eq!(rt; ended_at(rt.alloc(), &[(5, 6), (5, 7)])?, end(1, 2, 4));
    assert_eq!(rt; ended_at(rt.alloc(), &[(1, 2), (1, 3)])?, Some(End::Never));
    Ok(())
}

#[test]
fn a_dependent_cell(rt: HostRuntime) -> Result<(), Fail> {
    let answer = seen_at(rt.alloc(), &[(1, 4), (1, 4)])?;
    if let Some(Err(CellFault::Dependent { kernel })) = &answer {
        assert_eq!(rt; kernel.as_slice(), [-1, 1].as_slice());
    } else {
        assert!(rt; false, "the cell is dependent");
    }
    Ok(())
}

#[test]
fn lines_of_level_points(rt: HostRuntime) -> Result<(), Fail> {
    let problem = level_points(rt.alloc())?;
    let answer = seen_of(rt.alloc(), &problem, &[(4, 5)])?;
    if let Some(Ok(seen)) = &answer {
        let all = numbers(rt.alloc(), &seen.walls.lines)?;
        assert_eq!(rt;
            all.as_slice(),
            [1, 1, 0, -2, 1, 2, 0, -2, 1, 3, 0, -2].as_slice()
        );
        let parts = fines(rt.alloc(), &seen.walls.lines)?;
        assert_eq!(rt; parts.as_slice(), [1, 1, 2, 2, 2, 2, 3, 3, 2].as_slice());
        let time = Lex::new(&[LexPart { rank: 3, num: 1 }], 1).unwrap();
        assert_eq!(rt; seen.entry, Entry::Always);
        assert_eq!(rt; seen.exit, Exit::At { time, which: 3 });
    } else {
        assert!(rt; false, "the cell has lines");
    }
    Ok(())
}

// The middle point is below the line through the outer ones at all times, by its own infinitesimal
// and those of the pair.
#[test]
fn lines_of_the_outer_points(rt: HostRuntime) -> Result<(), Fail> {
    let problem = level_points(rt.alloc())?;
    let answer = seen_of(rt.alloc(), &problem, &[(1, 3)])?;
    if let Some(Ok(seen)) = &answer {
        let all = numbers(rt.alloc(), &seen.walls.lines)?;
        assert_eq!(rt;
            all.as_slice(),
            [1, 2, 0, 0, 1, 4, 0, 2, 1, 5, 0, 2].as_slice()
        );
        let parts = fines(rt.alloc(), &seen.walls.lines)?;
        assert_eq!(rt;
            parts.as_slice(),
            [2, 1, -1, 2, 2, 2, 2, 3, -1, 4, 1, -2, 5, 3, -2].as_slice()
        );
        assert_eq!(rt; seen.entry, Entry::Dead);
    } else {
        assert!(rt; false, "the cell has lines");
    }
    Ok(())
}
