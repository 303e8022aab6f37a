// The node lines of a log in order.
ghost use Rattle.std.specs.Prelude.{◌≡◌, MatchResult, reverse};
ghost use Rattle.cayley.specs.Problems.{IsStill};
ghost use Rattle.path_log.specs.Forms.{node_of};
ghost use Rattle.log_check.specs.Dues.{AreTrue, IsTurn, IsHaltAt};
ghost use Rattle.log_check.specs.Nodes.{HasShape};
ghost use Rattle.log_check.specs.Verdicts.{path_in, HasShapes, Expects, IsHalt};

use crate::dues::{has_room, put, put_in_order, start_branches, takes_next};
use crate::judging::judge;
use crate::refusal::{Halt, Refusal};
use cayley::{FoundCell, Problem};
use path_log::{LogNode, PathLog};
use searcher::Branch;
use std::alloc::Global;
use wide_int::OutOfMemory;

// Judges a node of the next cell that is due. What it opens comes in the place of this cell.
fn visit(
    alloc: Global,
    problem: &Problem,
    due: &mut Vec<Branch>,
    expected: &mut Vec<FoundCell>,
    noted: &LogNode,
) -> Result<(), Halt>
    requires still { IsStill problem.now }
    requires due { AreTrue problem.now (reverse due.old.items) }
    requires shape { HasShape problem.now (node_of noted.now) }
    ensures { MatchResult result
        (λ passed. IsTurn problem.now (node_of noted.now) due.old.items due.new.items expected.old.items expected.new.items)
        (IsHaltAt problem.now (node_of noted.now) due.old.items noted.now.line) }
{
    // A problem is valid by its type, as its readers tell.
    let _dim = problem.dim();
    let line = noted.line;
    if !takes_next(due, &noted.node.cell) {
        let refusal = Refusal::NotDue;
        return Err(Halt::Refused { line, refusal });
    }
    if !has_room(due, expected) {
        return Err(Halt::OutOfMemory);
    }
    let Ok(judgement) = judge(alloc, problem, &noted.node) else {
        return Err(Halt::OutOfMemory);
    };
    match put(due, expected, judgement) {
        Ok(()) => Ok(()),
        Err(refusal) => Err(Halt::Refused { line, refusal }),
    }
}

/// The cells that the nodes of a log let expect, in cell order, each with its normal in lowest terms.
pub(crate) fn expected_cells(
    alloc: Global,
    problem: &Problem,
    log: &PathLog,
) -> Result<Vec<FoundCell>, Halt>
    requires path { problem.now ≡ path_in log.now }
    requires nodes { HasShapes log.now }
    ensures { MatchResult result (λ found. Expects log.now found.items) (IsHalt log.now) }
{
    // A problem and a file are valid by their types, as their readers tell.
    let _dim = problem.dim();
    let _dimension = log.file.dim();
    let Ok(mut due) = start_branches(alloc, problem) else {
        return Err(Halt::OutOfMemory);
    };
    let mut expected = Vec::new(alloc);
    for noted in &log.nodes {
        if let Err(halt) = visit(alloc, problem, &mut due, &mut expected, noted) {
            return Err(halt);
        }
    }
    if !due.is_empty() {
        let line = log.part.cells_line;
        let refusal = Refusal::StillDue;
        return Err(Halt::Refused { line, refusal });
    }
    put_in_order(&mut expected);
    Ok(expected)
}
