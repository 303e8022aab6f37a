ghost use Rattle.std.specs.Prelude.{◌≡◌, ◌<◌};
ghost use Rattle.cayley.specs.Problems.{IsStill};

use crate::search_tests::{branch, found, normals, positions, support};
use crate::searching::has_room;
use crate::turning::put_opened;
use crate::{Begin, Branch, Found, expand};
use cayley::{Problem, Support};
use cone_walls::Steps;
use std::alloc::Global;
use std::marker::Brand;
use std::sync::ledger::{Blank, Ledger};
use std::test::Fail;
use wide_int::OutOfMemory;

// The supports of three axes, each with corners at this reach. The ranges of
// coordinates are twice the reach, so that 2^20 - 1 is the greatest whose working fits for sure.
pub(crate) fn axes(alloc: Global, reach: i128) -> Result<Vec<Support>, Fail> {
    let far = if reach < 1_000_000 { reach } else { 1_000_000 };
    let mut supports = Vec::new(alloc);
    let first: [(&[i128], i64, i64); 7] = [
        (&[0, 0, 0], 3, 0),
        (&[far, 0, 0], 10, 0),
        (&[1, 1, 1], 20, 0),
        (&[0, 0, 0], 0, 1),
        (&[reach, 0, 0], 0, 1),
        (&[0, reach, 0], 107, 1),
        (&[0, 0, reach], 211, 1),
    ];
    supports.push(support(alloc, &first, 3)?)?;
    let second: [(&[i128], i64, i64); 7] = [
        (&[0, 0, 0], 8, 0),
        (&[0, far, 0], 5, 0),
        (&[2, 1, 0], 1, 0),
        (&[0, 0, 0], 0, 1),
        (&[reach, 0, 0], 131, 1),
        (&[0, reach, 0], 0, 1),
        (&[0, 0, reach], 97, 1),
    ];
    supports.push(support(alloc, &second, 3)?)?;
    let third: [(&[i128], i64, i64); 7] = [
        (&[0, 0, 0], 6, 0),
        (&[0, 0, far], 4, 0),
        (&[1, 0, 2], 9, 0),
        (&[0, 0, 0], 0, 1),
        (&[reach, 0, 0], 83, 1),
        (&[0, reach, 0], 149, 1),
        (&[0, 0, reach], 0, 1),
    ];
    supports.push(support(alloc, &third, 3)?)?;
    Ok(supports)
}

// The same search by `expand` alone, of at most a thousand cells.
fn expanded<L: Ledger>(
    alloc: Global,
    problem: &Problem,
    start: Branch,
    blank: Blank,
) -> Result<Found, Fail>
    requires ledger { (blank.name ≡ L.name) × (blank.parts ≡ L.parts) × (0 < blank.parts) }
    requires still { IsStill problem.now }
{
    let mut steps = Steps::<L>::new(blank);
    let mut left = Vec::new(alloc);
    left.push(start)?;
    let mut cells = Vec::new(alloc);
    let mut solves = 0;
    for turn in 0..1000u64 {
        let Some(branch) = left.pop() else {
            break;
        };
        if !has_room(&mut left, &mut cells) {
            return Err(OutOfMemory.into());
        }
        solves = turn + 1;
        let Ok(expansion) = expand(alloc, problem, branch, &mut steps) else {
            return Err(OutOfMemory.into());
        };
        if let Some(found) = put_opened(&mut left, expansion) {
            cells.push(found)?;
        }
    }
    cells.sort_unstable_by(|x, y| x.cell.cmp(&y.cell));
    Ok(Found { cells, solves })
}

pub(crate) fn plain(alloc: Global, problem: &Problem, start: Branch) -> Result<Found, Fail> {
    if !problem.is_still() {
        return Err(OutOfMemory.into());
    }
    expanded::<Brand>(alloc, problem, start, Blank::new(1))
}

pub(crate) fn start(alloc: Global) -> Result<Branch, Fail> {
    branch(alloc, &[(4, 5), (4, 6), (4, 7)], Begin::Start)
}

// Whether the search by `expand` alone finds the same.
fn agrees(alloc: Global, problem: &Problem) -> Result<bool, Fail> {
    let mut branches = Vec::new(alloc);
    branches.push(start(alloc)?)?;
    let found = found(alloc, problem, branches)?;
    let plain = plain(alloc, problem, start(alloc)?)?;
    let cells = positions(alloc, &found.cells)?;
    let all = normals(alloc, &found.cells)?;
    Ok(
        found.solves == plain.solves
            && found.solves > 5
            && cells.as_slice() == positions(alloc, &plain.cells)?.as_slice()
            && all.as_slice() == normals(alloc, &plain.cells)?.as_slice(),
    )
}

#[test]
fn without_eliminations_on_both_sides_of_the_bound(rt: HostRuntime) -> Result<(), Fail> {
    for reach in [3, 40_000, 1_048_575, 1_048_576] {
        let first = Problem::new(rt.alloc(), 3, axes(rt.alloc(), reach)?)?;
        assert!(rt; agrees(rt.alloc(), &first)?);
        let second = Problem::perturbed(rt.alloc(), 3, axes(rt.alloc(), reach)?)?;
        assert!(rt; agrees(rt.alloc(), &second)?);
    }
    Ok(())
}
