ghost use Rattle.cayley.specs.Stored.{cells_of};
ghost use Rattle.std.specs.Prelude.{◌≡◌, ◌+◌, ◌≤◌, ◌++◌, [], ◌∷◌, IfOk, IfErr, IsTrue, MatchResult, IsPermutation, reverse, length, vec_len, vec_capacity};
ghost use Rattle.cayley.specs.Paths.{start_cell};
ghost use Rattle.cayley.specs.Problems.{IsStill};
ghost use Rattle.cayley.specs.Shares.{IsTrueBranch};
ghost use Rattle.cayley.specs.Ties.{IsTieFree};
ghost use Rattle.start_system.specs.Started.{IsStarted};
ghost use Rattle.searcher.specs.Branches.{branch_of, children_of};
ghost use Rattle.searcher.specs.Expansions.{IsExpansion, IsCause, ShowsTieAtEnd, HasNoTie};
ghost use Rattle.searcher.specs.Searches.{NeverFalls, opened, found_in};
ghost use Rattle.search_team.specs.PathSearches.{IsHalted};
ghost use Rattle.path_tracer.specs.Nodes.{HasInverse, FitsNumbers, HasFurther};
ghost use Rattle.path_tracer.specs.Traced.{IsTraced};

use crate::nodes::node_of;
use cayley::{Begin, FoundCell, Problem};
use cone_walls::Steps;
use path_trace::{Trace, TraceNode};
use searcher::{Branch, Children, Expansion, HaltCause, expand};
use start_system::start_cell;
use std::alloc::Global;
use std::sync::ledger::Ledger;
use wide_int::OutOfMemory;

// The start branch alone.
fn start_branches(alloc: Global, problem: &Problem) -> Result<Vec<Branch>, OutOfMemory>
    requires { IsStarted problem.now }
    ensures { IfOk result (λ made. made.items ≡ record { cell = start_cell problem.now; begin = Begin.Start } ∷ []) }
{
    let Ok(mut made) = Vec::with_capacity(alloc, 1) else {
        return Err(OutOfMemory);
    };
    made.push_reserved(Branch::new(start_cell(alloc, problem), Begin::Start));
    Ok(made)
}

// Room for two branches, a node and a cell. The branches keep the room that they have.
fn has_room(left: &mut Vec<Branch>, nodes: &mut Vec<TraceNode>, found: &mut Vec<FoundCell>) -> bool
    ensures left { left.new.items ≡ left.old.items }
    ensures nodes { nodes.new.items ≡ nodes.old.items }
    ensures found { found.new.items ≡ found.old.items }
    ensures branches { IsTrue result → vec_len left.new + 2 ≤ vec_capacity left.new }
    ensures node { IsTrue result → vec_len nodes.new + 1 ≤ vec_capacity nodes.new }
    ensures cell { IsTrue result → vec_len found.new + 1 ≤ vec_capacity found.new }
{
    left.reserve(2).is_ok() && nodes.reserve(1).is_ok() && found.reserve(1).is_ok()
}

// Puts the children at the end, the first of them last.
fn put_children(left: &mut Vec<Branch>, children: Children)
    requires { vec_len left.old + 2 ≤ vec_capacity left.old }
    ensures { left.new.items ≡ left.old.items ++ reverse (children_of children) }
{
    match children {
        Children::None => {}
        Children::One(first) => left.push_reserved(first),
        Children::Two(first, second) => {
            left.push_reserved(second);
            left.push_reserved(first);
        }
    }
}

// Puts the children among the branches and a mixed cell among the found ones.
fn put(left: &mut Vec<Branch>, found: &mut Vec<FoundCell>, expansion: Expansion)
    requires branches { vec_len left.old + 2 ≤ vec_capacity left.old }
    requires cell { vec_len found.old + 1 ≤ vec_capacity found.old }
    ensures left { left.new.items ≡ left.old.items ++ reverse (opened expansion) }
    ensures found { found.new.items ≡ found.old.items ++ found_in expansion }
{
    match expansion {
        Expansion::Inner { children } => put_children(left, children),
        Expansion::Target(cell) => found.push_reserved(cell),
        Expansion::Endless => {}
        Expansion::Stranger { branch: _stranger } => {}
    }
}

// Puts the cells into cell order, in place.
fn put_in_order(found: &mut Vec<FoundCell>)
    ensures order { NeverFalls (cells_of found.new.items) }
    ensures same { IsPermutation found.old.items found.new.items }
{
    found.sort_unstable_by(|x, y| x.cell.cmp(&y.cell));
}

// The node of a true branch, and what it is expanded to.
fn visited<L: Ledger>(
    alloc: Global,
    problem: &Problem,
    branch: Branch,
    steps: &mut Steps<L>,
) -> Result<(TraceNode, Expansion), HaltCause>
    requires still { IsStill problem.now }
    requires begins { IsTrueBranch problem.now (branch_of branch) }
    requires further { HasFurther problem.now branch.cell }
    ensures answer { MatchResult result
        (λ made. (made.0.cell ≡ branch.cell) × HasInverse problem.now made.0 × IsExpansion problem.now branch made.1)
        (IsCause problem.now branch) }
    ensures fits { IfOk result (λ made. FitsNumbers made.0) }
    ensures step { steps.new ≡ steps.old + 1 }
    ensures tie { IfErr result (ShowsTieAtEnd problem.now) }
    ensures untied { IsTieFree problem.now → IfErr result HasNoTie }
{
    let cell = branch.cell().copy();
    let expansion = match expand(alloc, problem, branch, steps) {
        Ok(expansion) => expansion,
        Err(halt) => return Err(halt.cause),
    };
    match node_of(alloc, problem, cell) {
        Ok(node) => Ok((node, expansion)),
        Err(OutOfMemory) => Err(HaltCause::OutOfMemory),
    }
}

/// Walks the path tree of a started problem from its start cell and writes down each cell with the
/// inverse of its differences, times the least number that makes it whole. The first child of a
/// cell comes next after it, so that the nodes stand in preorder. Each expansion is a step.
///
/// A tie or an overflow is told of a cell of the path tree, and nothing of the walk is kept then.
pub fn trace_alone<L: Ledger>(
    alloc: Global,
    problem: &Problem,
    steps: &mut Steps<L>,
) -> Result<Trace, HaltCause>
    requires started { IsStarted problem.now }
    ensures answer { MatchResult result (IsTraced problem.now) (IsHalted problem.now) }
    // There are as many steps as nodes.
    ensures counted { IfOk result (λ trace. steps.new ≡ steps.old + length trace.nodes.items) }
{
    // A problem is valid by its type, as its readers tell.
    let _dim = problem.dim();
    let Ok(mut left) = start_branches(alloc, problem) else {
        return Err(HaltCause::OutOfMemory);
    };
    let mut nodes = Vec::new(alloc);
    let mut found = Vec::new(alloc);
    while let Some(branch) = left.pop() {
        if !has_room(&mut left, &mut nodes, &mut found) {
            return Err(HaltCause::OutOfMemory);
        }
        let (node, expansion) = match visited(alloc, problem, branch, steps) {
            Ok(made) => made,
            Err(cause) => return Err(cause),
        };
        nodes.push_reserved(node);
        put(&mut left, &mut found, expansion);
    }
    put_in_order(&mut found);
    Ok(Trace { nodes, found })
}
