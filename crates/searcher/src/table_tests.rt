ghost use Rattle.std.specs.Prelude.{◌≡◌, ◌<◌};
ghost use Rattle.cayley.specs.Problems.{IsStill};

use crate::search_tests::{normals, positions};
use crate::searching::has_room;
use crate::turning::put_opened;
use crate::walk_tests::{axes, plain, start};
use crate::{Branch, Found, Kept, expand_kept};
use cayley::Problem;
use cone_walls::Steps;
use std::alloc::Global;
use std::marker::Brand;
use std::sync::ledger::{Blank, Ledger};
use std::test::Fail;
use wide_int::OutOfMemory;

// A search by `expand_kept` with one table, of at most a thousand cells.
fn expanded_on<L: Ledger>(
    alloc: Global,
    problem: &Problem,
    start: Branch,
    blank: Blank,
) -> Result<Found, Fail>
    requires ledger { (blank.name ≡ L.name) × (blank.parts ≡ L.parts) × (0 < blank.parts) }
    requires still { IsStill problem.now }
{
    let mut steps = Steps::<L>::new(blank);
    let mut kept = Kept::new();
    let mut left = Vec::new(alloc);
    left.push(start)?;
    let mut cells = Vec::new(alloc);
    let mut solves = 0;
    for turn in 0..1000u64 {
        let Some(branch) = left.pop() else {
            break;
        };
        if !has_room(&mut left, &mut cells) {
            return Err(OutOfMemory.into());
        }
        solves = turn + 1;
        let Ok(expansion) = expand_kept(alloc, problem, branch, &mut kept, &mut steps) else {
            return Err(OutOfMemory.into());
        };
        if let Some(found) = put_opened(&mut left, expansion) {
            cells.push(found)?;
        }
    }
    cells.sort_unstable_by(|x, y| x.cell.cmp(&y.cell));
    Ok(Found { cells, solves })
}

fn by_a_table(alloc: Global, problem: &Problem, start: Branch) -> Result<Found, Fail> {
    if !problem.is_still() {
        return Err(OutOfMemory.into());
    }
    expanded_on::<Brand>(alloc, problem, start, Blank::new(1))
}

// Whether the search by `expand` finds the same.
fn agrees(alloc: Global, problem: &Problem) -> Result<bool, Fail> {
    let found = by_a_table(alloc, problem, start(alloc)?)?;
    let plain = plain(alloc, problem, start(alloc)?)?;
    let cells = positions(alloc, &found.cells)?;
    let all = normals(alloc, &found.cells)?;
    Ok(
        found.solves == plain.solves
            && found.solves > 5
            && cells.as_slice() == positions(alloc, &plain.cells)?.as_slice()
            && all.as_slice() == normals(alloc, &plain.cells)?.as_slice(),
    )
}

#[test]
fn by_the_table_of_the_last_cell(rt: HostRuntime) -> Result<(), Fail> {
    for reach in [3, 1_048_576] {
        let first = Problem::new(rt.alloc(), 3, axes(rt.alloc(), reach)?)?;
        assert!(rt; agrees(rt.alloc(), &first)?);
        let second = Problem::perturbed(rt.alloc(), 3, axes(rt.alloc(), reach)?)?;
        assert!(rt; agrees(rt.alloc(), &second)?);
    }
    Ok(())
}
