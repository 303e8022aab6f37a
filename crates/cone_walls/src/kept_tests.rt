ghost use Rattle.std.specs.Prelude.{◌≡◌, ◌<◌};

use crate::tests::squares;
use crate::{CellFault, Kept, Steps, Walls, walls_from, walls_of};
use cayley::{Cell, Problem};
use std::alloc::Global;
use std::marker::Brand;
use std::sync::ledger::{Blank, Ledger};
use std::test::Fail;
use wide_int::OutOfMemory;

// The numbers of a normal and of its lines one after the other, or the kernel.
fn numbers(alloc: Global, answer: &Result<Walls, CellFault>) -> Result<Vec<i128>, Fail> {
    let mut all = Vec::new(alloc);
    if let Ok(walls) = answer {
        all.push(walls.normal.den)?;
        all.extend_from_slice(walls.normal.p.as_slice())?;
        all.extend_from_slice(walls.normal.q.as_slice())?;
        for line in &walls.lines {
            all.push(i128::from(line.support))?;
            all.push(i128::from(line.position))?;
            all.push(line.alpha)?;
            all.push(line.beta)?;
        }
    }
    if let Err(CellFault::Dependent { kernel }) = answer {
        all.extend_from_slice(kernel.as_slice())?;
    }
    if let Err(CellFault::OutOfMemory) = answer {
        return Err(OutOfMemory.into());
    }
    Ok(all)
}

// Whether both calls answer the same of a cell. Nothing of the first one's is kept.
fn agrees_at<L: Ledger>(
    alloc: Global,
    problem: &Problem,
    pairs: &[(u32, u32)],
    kept: &mut Kept,
    steps: &mut Steps<L>,
) -> Result<bool, Fail> {
    let Some(cell) = Cell::new(alloc, pairs) else {
        return Ok(false);
    };
    if !problem.contains(&cell) {
        return Ok(false);
    }
    let plain = walls_of(alloc, problem, &cell, steps);
    let answer = walls_from(alloc, problem, &cell, kept, steps);
    let want = numbers(alloc, &plain)?;
    Ok(want.len() > 1 && numbers(alloc, &answer)?.as_slice() == want.as_slice())
}

// Whether they answer the same of each cell in turn, by one table.
fn agrees<L: Ledger>(
    alloc: Global,
    problem: &Problem,
    cells: &[[(u32, u32); 2]],
    blank: Blank,
) -> Result<bool, Fail>
    requires { (blank.name ≡ L.name) × (blank.parts ≡ L.parts) × (0 < blank.parts) }
{
    let mut steps = Steps::<L>::new(blank);
    let mut kept = Kept::new();
    for pairs in cells {
        if !agrees_at(alloc, problem, pairs, &mut kept, &mut steps)? {
            return Ok(false);
        }
    }
    Ok(true)
}

// By a counter of its own.
fn agree_in_turn(
    alloc: Global,
    problem: &Problem,
    cells: &[[(u32, u32); 2]],
) -> Result<bool, Fail> {
    agrees::<Brand>(alloc, problem, cells, Blank::new(1))
}

#[test]
fn walls_by_any_table(rt: HostRuntime) -> Result<(), Fail> {
    let problem = squares(rt.alloc())?;
    // No table, that of the cell, one that differs in a row or the other, one of another cell, one
    // whose exchange is refused, and none again.
    let cells = [
        [(5, 6), (5, 7)],
        [(5, 6), (5, 7)],
        [(1, 6), (5, 7)],
        [(1, 6), (4, 5)],
        [(2, 3), (1, 2)],
        [(2, 3), (2, 3)],
        [(1, 6), (4, 5)],
    ];
    assert!(rt; agree_in_turn(rt.alloc(), &problem, &cells)?);
    Ok(())
}
