ghost use Rattle.cayley.specs.Stored.{cells_of};
ghost use Rattle.std.specs.Prelude.{◌≡◌, ◌+◌, ◌≤◌, ◌++◌, IfOk, IfErr, IsTrue, MatchResult, IsPermutation, vec_len, vec_capacity};
ghost use Rattle.int_vectors.specs.Vectors.{Each};
ghost use Rattle.cayley.specs.Problems.{IsStill};
ghost use Rattle.cayley.specs.Shares.{Solved};
ghost use Rattle.cayley.specs.Ties.{IsTieFree};
ghost use Rattle.searcher.specs.Branches.{branch_of, children_of};
ghost use Rattle.searcher.specs.Workings.{FitsWorking};
ghost use Rattle.searcher.specs.Expansions.{ShowsTieAtEnd, HasNoTie};
ghost use Rattle.searcher.specs.Searches.{IsFound, IsStopped, IsCount, FindsShare, FindsSize, NeverFalls, top};
ghost use Rattle.searcher.specs.Turns.{list_of};

use crate::branches::Branch;
use crate::expansions::{Children, HaltCause};
use crate::turning::turn;
use crate::walks::Walk;
use cayley::{FoundCell, Problem};
use cone_walls::Steps;
use std::alloc::Global;
use std::sync::ledger::Ledger;

/// What a search has found.
#[derive(Drop)]
pub struct Found {
    /// Each cell with its normal in lowest terms.
    pub cells: Vec<FoundCell>,
    /// How many cells were solved; it stands at 2^64 - 1 once it would exceed it.
    pub solves: u64,
}

/// A search that halted.
#[derive(Drop)]
pub struct Stopped {
    pub cause: HaltCause,
    /// The branches that are still to be expanded, that on which the search halted among them.
    pub left: Vec<Branch>,
    /// What was found before, in no order.
    pub found: Found,
}

// Room for two branches and a cell. The branches keep the room that they have.
pub(crate) fn has_room(left: &mut Vec<Branch>, cells: &mut Vec<FoundCell>) -> bool
    ensures left { left.new.items ≡ left.old.items }
    ensures cells { cells.new.items ≡ cells.old.items }
    ensures kept { (vec_len left.new ≡ vec_len left.old) × (vec_capacity left.old ≤ vec_capacity left.new) }
    ensures room { IsTrue result → (vec_len left.new + 2 ≤ vec_capacity left.new) × (vec_len cells.new + 1 ≤ vec_capacity cells.new) }
{
    left.reserve(2).is_ok() && cells.reserve(1).is_ok()
}

/// Puts the children at the end, the last of them last.
pub fn put_children(left: &mut Vec<Branch>, children: Children)
    requires { vec_len left.old + 2 ≤ vec_capacity left.old }
    ensures { left.new.items ≡ left.old.items ++ children_of children }
{
    match children {
        Children::None => {}
        Children::One(first) => {
            let _ = left.push(first);
        }
        Children::Two(first, second) => {
            let _ = left.push(first);
            let _ = left.push(second);
        }
    }
}

// Puts a mixed cell among the cells.
fn put_found(cells: &mut Vec<FoundCell>, found: Option<FoundCell>)
    requires { vec_len cells.old + 1 ≤ vec_capacity cells.old }
    ensures { cells.new.items ≡ cells.old.items ++ list_of found }
{
    if let Some(found) = found {
        let _ = cells.push(found);
    }
}

/// The count after an expansion of the branch.
pub fn count_after(problem: &Problem, branch: &Branch, solves: u64) -> u64
    ensures { Solved problem.now top (branch_of branch.now) solves result }
{
    if problem.contains(branch.cell()) {
        solves.saturating_add(1)
    } else {
        solves
    }
}

// Puts the cells into cell order, in place.
fn put_in_order(cells: &mut Vec<FoundCell>)
    ensures order { NeverFalls (cells_of cells.new.items) }
    ensures same { IsPermutation cells.old.items cells.new.items }
{
    cells.sort_unstable_by(|x, y| x.cell.cmp(&y.cell));
}

/// Expands the last branch of the list, again and again, until none is left. It returns on every
/// problem and for every list of branches: a child begins later than its parent, and there are
/// finitely many cells.
///
/// The found cells are, in cell order, the mixed cells whose chains lead to the given branches; a
/// branch that is given twice counts twice, and strangers are dropped. Where it halts, what was
/// found and what the branches that are left lead to are together the same. `solves` is the number
/// of steps.
pub fn search_alone<L: Ledger>(
    alloc: Global,
    problem: &Problem,
    branches: Vec<Branch>,
    steps: &mut Steps<L>,
) -> Result<Found, Stopped>
    requires still { IsStill problem.now }
    ensures answer { MatchResult result (IsFound problem.now branches.items) (IsStopped problem.now branches.items) }
    // Of one branch the cells are its share, and the steps are its size.
    ensures share { IfOk result (FindsShare problem.now branches.items) }
    ensures size { IfOk result (FindsSize problem.now branches.items) }
    // The whole working of each found cell fits.
    ensures fit { IfOk result (λ f. Each f.cells.items (λ x. FitsWorking problem.now x.cell)) }
    ensures counted { MatchResult result (λ f. IsCount steps.old steps.new f.solves) (λ s. IsCount steps.old steps.new s.found.solves) }
    // A tie is one where its cell begins or ends, and none comes where no cell has a tie.
    ensures tie { IfErr result (λ s. ShowsTieAtEnd problem.now s.cause) }
    ensures untied { IsTieFree problem.now → IfErr result (λ s. HasNoTie s.cause) }
{
    let _dim = problem.dim();
    let mut left = branches;
    let mut walk = Walk::begin(problem, left.len());
    let mut cells = Vec::new(alloc);
    let mut solves = 0;
    while let Some(branch) = left.pop() {
        let count = left.len();
        if !has_room(&mut left, &mut cells) {
            let _ = left.push(branch);
            return Err(Stopped {
                cause: HaltCause::OutOfMemory,
                left,
                found: Found { cells, solves },
            });
        }
        solves = count_after(problem, &branch, solves);
        match turn(&mut walk, alloc, problem, &branch, count, &mut left, steps) {
            Ok(found) => put_found(&mut cells, found),
            Err(cause) => {
                left.push_reserved(branch);
                return Err(Stopped {
                    cause,
                    left,
                    found: Found { cells, solves },
                });
            }
        }
    }
    put_in_order(&mut cells);
    Ok(Found { cells, solves })
}
