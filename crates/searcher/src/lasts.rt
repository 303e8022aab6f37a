ghost use Rattle.std.specs.Prelude.{◌≡◌, IfSome, IsTrue};
ghost use Rattle.cayley.specs.Cells.{IsOf};
ghost use Rattle.searcher.specs.Walks.{IsLast};

use carried_inverse::Carried;
use cayley::{Cell, Problem};
use inner_normal::Eliminated;
use std::alloc::Global;

// The inverse of the cell that was reached last, from which that of the next is made.
#[derive(Drop)]
pub(crate) struct Last {
    pub(crate) cell: Cell,
    pub(crate) carried: Carried,
    // Room for a row.
    pub(crate) row: Vec<i64>,
}

// One round of flips toward a cell, as far as each can be made; gives whether it is there.
fn is_nearer(problem: &Problem, last: &mut Last, cell: &Cell) -> bool
    requires last { IsLast problem.now last.old }
    requires cell { IsOf problem.now cell.now }
    ensures last { IsLast problem.now last.new }
    ensures same { IsTrue result → last.new.cell ≡ cell.now }
{
    last.carried
        .toward(problem, &mut last.cell, cell, &mut last.row)
}

// Leads the last cell to another by flips, whose inverse is then kept; gives whether it is there. A flip
// that can't be made before another may be made behind it.
fn is_led(problem: &Problem, last: &mut Last, cell: &Cell) -> bool
    requires last { IsLast problem.now last.old }
    requires cell { IsOf problem.now cell.now }
    ensures last { IsLast problem.now last.new }
    ensures same { IsTrue result → last.new.cell ≡ cell.now }
{
    is_nearer(problem, last, cell) || is_nearer(problem, last, cell)
}

// The inverse of the cell by an elimination, unless it might not fit.
fn begun(alloc: Global, problem: &Problem, cell: &Cell) -> Option<Last>
    requires { IsOf problem.now cell.now }
    ensures { IfSome result (λ last. IsLast problem.now last × (last.cell ≡ cell.now)) }
{
    let Ok(eliminated) = Eliminated::of(alloc, problem, cell) else {
        return None;
    };
    let Ok(carried) = Carried::of(alloc, eliminated.reduced()) else {
        return None;
    };
    let mut row = Vec::new(alloc);
    if row.resize(problem.dim(), 0).is_err() {
        return None;
    }
    Some(Last {
        cell: cell.copy(),
        carried,
        row,
    })
}

// The inverse of the cell: by flips from that of the last cell, or else by an elimination. None where
// it might not fit.
pub(crate) fn reach(
    alloc: Global,
    problem: &Problem,
    cell: &Cell,
    last: Option<Last>,
) -> Option<Last>
    requires cell { IsOf problem.now cell.now }
    requires last { IfSome last (IsLast problem.now) }
    ensures { IfSome result (λ last. IsLast problem.now last × (last.cell ≡ cell.now)) }
{
    if let Some(mut last) = last {
        if is_led(problem, &mut last, cell) {
            return Some(last);
        }
    }
    begun(alloc, problem, cell)
}
