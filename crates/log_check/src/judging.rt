// What is said of one node whose cell is due.
ghost use Rattle.std.specs.Prelude.{◌≡◌, ◌-◌, ◌≤◌, IfOk, IsTrue, length};
ghost use Rattle.int_vectors.specs.Vectors.{Each};
ghost use Rattle.cayley.specs.Cells.{IsOf, IsIndependent};
ghost use Rattle.cayley.specs.Dependencies.{IsFurtherAt, IsPositiveDependency};
ghost use Rattle.cayley.specs.Lives.{AliveLate};
ghost use Rattle.cayley.specs.Mixed.{IsAlive};
ghost use Rattle.cayley.specs.Problems.{IsStill};
ghost use Rattle.cayley.specs.Times.{Time};
ghost use Rattle.cayley.specs.Shares.{IsChildren};
ghost use Rattle.crossing.specs.Exits.{IsExit};
ghost use Rattle.crossing.specs.declared.exit.Exit.TheVariants as exit;
ghost use Rattle.inner_normal.specs.Coefficients.{difference, coefficients_of, numbers_of, FitsCoefficients};
ghost use Rattle.searcher.specs.Branches.{branches_of, children_of};
ghost use Rattle.searcher.specs.Ends.{IsTiedAtEnd};
ghost use Rattle.carried_inverse.specs.Answers.{HasPairSigns};
ghost use Rattle.log_check.specs.Nodes.{HasShape, IsFit, IsJudged};
ghost use Rattle.log_check.specs.Numbers.{inverse_of};
ghost use Rattle.log_check.specs.Walled.{HasLines, IsWalled};

use crate::columns::columns_of;
use crate::judgement::Judgement;
use crate::products::are_inverse;
use crate::walls::{Walled, walls_by};
use cayley::{Cell, FoundCell, Problem};
use circuit::Circuit;
use crossing::{Exit, WallLine, exit_of};
use flip_rule::Signs;
use inner_normal::{ScaledInverse, coefficients_by, target_normal};
use lex_height::Lex;
use path_trace::TraceNode;
use reduced_rows::FromFault;
use searcher::{Children, has_file_points, kept_by};
use std::alloc::Global;
use wide_int::OutOfMemory;

// The signs at the pair of the numbers of a further point, which fit.
fn signs_by(
    alloc: Global,
    problem: &Problem,
    cell: &Cell,
    inverse: &ScaledInverse,
    support: u32,
    position: u32,
) -> Result<Signs, OutOfMemory>
    requires cell { IsOf problem.now cell.now }
    requires point { (1 ≤ support) × (support ≤ problem.now.dimension) × IsFurtherAt problem.now cell.now (support - 1) position }
    requires independent { IsIndependent problem.now cell.now }
    requires count { length inverse.now.columns ≡ problem.now.dimension }
    requires columns { Each inverse.now.columns (λ column. length column ≡ problem.now.dimension) }
    requires fits { FitsCoefficients (support - 1) inverse.now (difference problem.now cell.now (support - 1) position) }
    requires depends { IsPositiveDependency problem.now cell.now (support - 1) position (numbers_of (coefficients_of (support - 1) inverse.now (difference problem.now cell.now (support - 1) position))) }
    ensures { IfOk result (HasPairSigns problem.now cell.now (support - 1) position) }
{
    let Ok(coefficients) = coefficients_by(alloc, problem, cell, inverse, support, position) else {
        return Err(OutOfMemory);
    };
    let circuit = Circuit {
        coefficients,
        scale: inverse.den(),
        support,
    };
    let signs = circuit.signs();
    match Signs::new(signs[0], signs[1]) {
        Some(signs) => Ok(signs),
        // The three numbers add up to zero, and the last is positive.
        None => unreachable!(),
    }
}

// What is said of a cell that never ends.
fn endless(problem: &Problem, node: &TraceNode, walls: Walled) -> Judgement
    requires still { IsStill problem.now }
    requires of { IsOf problem.now node.now.cell }
    requires fit { IsFit problem.now node.now }
    requires walls { IsWalled problem.now node.now walls }
    requires untied { ¬ (IsTiedAtEnd problem.now node.now.cell) }
    requires late { AliveLate problem.now node.now.cell }
    ensures { IsJudged problem.now node.now result }
{
    // A problem is valid by its type, as its readers tell.
    let _dim = problem.dim();
    if !has_file_points(problem, &node.cell) {
        return Judgement::Endless;
    }
    Judgement::Target(FoundCell {
        cell: node.cell.copy(),
        normal: target_normal(walls.normal),
    })
}

// The children of a node's cell at the wall of one line, where the cell ends.
fn children_at(
    alloc: Global,
    problem: &Problem,
    node: &TraceNode,
    inverse: &ScaledInverse,
    lines: &[WallLine],
    time: Lex,
    which: usize,
) -> Result<Children, OutOfMemory>
    requires alive { (t : Time) × IsAlive problem.now node.now.cell t }
    requires fit { IsFit problem.now node.now }
    requires inverse { inverse.now ≡ inverse_of problem.now node.now }
    requires lines { HasLines problem.now node.now lines.now }
    requires exit { IsExit lines.now (exit.At time which) }
    ensures { IfOk result (λ children. IsChildren problem.now node.now.cell (branches_of (children_of children))) }
{
    // A problem is valid by its type, as its readers tell.
    let _dim = problem.dim();
    let wall = &lines[which - 1];
    let signs = signs_by(
        alloc,
        problem,
        &node.cell,
        inverse,
        wall.support,
        wall.position,
    )?;
    Ok(kept_by(
        problem,
        &node.cell,
        signs,
        wall.support,
        wall.position,
        time,
    ))
}

// What is said of a node whose matrix is the inverse of its cell and whose numbers fit.
fn settled(
    alloc: Global,
    problem: &Problem,
    node: &TraceNode,
    walls: Walled,
) -> Result<Judgement, OutOfMemory>
    requires still { IsStill problem.now }
    requires alive { (t : Time) × IsAlive problem.now node.now.cell t }
    requires fit { IsFit problem.now node.now }
    requires walls { IsWalled problem.now node.now walls }
    ensures { IfOk result (IsJudged problem.now node.now) }
{
    // A problem is valid by its type, as its readers tell.
    let _dim = problem.dim();
    match exit_of(&walls.lines) {
        Exit::Tied { .. } => Ok(Judgement::Tied),
        Exit::At { time, which } => {
            let children = children_at(
                alloc,
                problem,
                node,
                &walls.inverse,
                &walls.lines,
                time,
                which,
            )?;
            Ok(Judgement::Inner { children })
        }
        Exit::Never => Ok(endless(problem, node, walls)),
        Exit::Flat { .. } => unreachable!(),
    }
}

/// What is said of a node whose cell is due, by the numbers that its matrix gives. Nothing is
/// eliminated.
///
/// The matrix has n rows of n numbers, row after row, over a scale of at least 1. It is tried in this
/// order: `Unfit` where a product or partial sum of the differences of the pairs times the matrix
/// doesn't fit; `NotInverse` where the product isn't the scale times the identity; `Unfit` where a
/// number of the normal, of a wall line or of a circuit doesn't fit, with the scale in the place of
/// the denominator; `Tied` where two further points are level where the cell ends. Else the cell ends
/// and has these children (reverse search, Avis and Fukuda 1996), or never ends.
pub fn judge(alloc: Global, problem: &Problem, node: &TraceNode) -> Result<Judgement, OutOfMemory>
    requires still { IsStill problem.now }
    requires alive { (t : Time) × IsAlive problem.now node.now.cell t }
    requires shape { HasShape problem.now node.now }
    ensures { IfOk result (IsJudged problem.now node.now) }
{
    let n = problem.dim();
    let columns = columns_of(alloc, n, node.inverse.as_slice())?;
    let Some(same) = are_inverse(problem, &node.cell, node.scale, &columns) else {
        return Ok(Judgement::Unfit);
    };
    if !same {
        return Ok(Judgement::NotInverse);
    }
    match walls_by(alloc, problem, node, columns) {
        Ok(walls) => settled(alloc, problem, node, walls),
        Err(FromFault::Overflow) => Ok(Judgement::Unfit),
        Err(FromFault::OutOfMemory) => Err(OutOfMemory),
    }
}
