ghost use Rattle.std.specs.Prelude.{◌≡◌, ◌≤◌, ◌-◌, ◌+◌, Some, IfOk, IfSome, MatchOption, MatchResult};
ghost use Rattle.lex_height.specs.Values as lex;
ghost use Rattle.cayley.specs.Cells.{IsOf};
ghost use Rattle.cayley.specs.Dependencies.{IsFurtherAt};
ghost use Rattle.cayley.specs.Problems.{IsStill, version1};
ghost use Rattle.inner_normal.specs.MovingNormals.{IsMovingNormal};
ghost use Rattle.cone_walls.specs.Ends.{IsFrontOf};
ghost use Rattle.cone_walls.specs.Fronts.{place_by, IsFall, IsTimeOf, AreFalls};
ghost use Rattle.searcher.specs.Ends.{IsTiedAtBegin};
ghost use Rattle.searcher.specs.Expansions.{IsCause, IsExpansion, IsSettled};
ghost use Rattle.carried_inverse.specs.Answers.{HasPairSigns};
ghost use Rattle.searcher.specs.Walks.{IsLast};
ghost use Rattle.searcher.specs.Workings.{FitsWorking};

use crate::branches::Branch;
use crate::children::{kept_by, signs_at};
use crate::expansions::{Expansion, HaltCause};
use crate::lasts::Last;
use crate::targets::endless;
use cayley::{Cell, Problem, TieProof};
use cone_walls::{Fall, Front, Steps, ending_front, place_of, time_of};
use flip_rule::Signs;
use inner_normal::{Eliminated, MovingNormal};
use std::alloc::Global;
use std::sync::ledger::Ledger;
use wide_int::OutOfMemory;

// The normal of a cell, and the lines that end it.
#[derive(Drop)]
pub(crate) struct Sought {
    pub(crate) normal: MovingNormal,
    pub(crate) front: Front,
}

// The normal of the last cell and the lines that end it, unless a number might not fit.
pub(crate) fn seek<L: Ledger>(
    alloc: Global,
    problem: &Problem,
    last: &Last,
    steps: &mut Steps<L>,
) -> Option<Sought>
    requires still { IsStill problem.now }
    requires last { IsLast problem.now last.now }
    requires first { problem.now.version ≡ version1 }
    ensures step { MatchOption result (steps.new ≡ steps.old) (λ _. steps.new ≡ steps.old + 1) }
    ensures found { IfSome result (λ s. IsMovingNormal problem.now last.now.cell s.normal × AreFalls s.front × IsFrontOf problem.now last.now.cell s.normal s.front) }
{
    let Ok(normal) = last.carried.normal(alloc, problem, &last.cell) else {
        return None;
    };
    let front = ending_front(problem, &last.cell, &normal, steps)?;
    Some(Sought { normal, front })
}

// The signs at the pair of a circuit by an elimination. All numbers fit, so that it is refused for
// want of memory alone.
fn signs_anew(
    alloc: Global,
    problem: &Problem,
    cell: &Cell,
    support: u32,
    position: u32,
) -> Result<Signs, OutOfMemory>
    requires cell { IsOf problem.now cell.now }
    requires point { (1 ≤ support) × (support ≤ problem.now.dimension) × IsFurtherAt problem.now cell.now (support - 1) position }
    requires fits { FitsWorking problem.now cell.now }
    ensures { IfOk result (HasPairSigns problem.now cell.now (support - 1) position) }
{
    let Ok(eliminated) = Eliminated::of(alloc, problem, cell) else {
        return Err(OutOfMemory);
    };
    let Ok(inverse) = eliminated.inverse(alloc) else {
        return Err(OutOfMemory);
    };
    signs_at(alloc, problem, cell, &inverse, support, position)
}

// The signs at the pair of the circuit of the last cell and a further point.
pub(crate) fn signs_by(
    alloc: Global,
    problem: &Problem,
    last: &Last,
    support: u32,
    position: u32,
) -> Result<Signs, OutOfMemory>
    requires last { IsLast problem.now last.now }
    requires point { (1 ≤ support) × (support ≤ problem.now.dimension) × IsFurtherAt problem.now last.now.cell (support - 1) position }
    requires fits { FitsWorking problem.now last.now.cell }
    ensures { IfOk result (HasPairSigns problem.now last.now.cell (support - 1) position) }
{
    // A problem is valid by its type, as its readers tell.
    let _dim = problem.dim();
    match last.carried.signs(problem, &last.cell, support, position) {
        Some((a, b)) => match Signs::new(a, b) {
            Some(signs) => Ok(signs),
            // The three numbers add up to zero, and the last is positive.
            None => unreachable!(),
        },
        None => signs_anew(alloc, problem, &last.cell, support, position),
    }
}

// The tie of the points of two lines that are zero at one time.
pub(crate) fn tie_between(cell: &Cell, fall: &Fall, other: &Fall) -> TieProof
    requires { IsFall fall.now }
    ensures { (u : lex.Value) × IsTimeOf fall.now u
        × (result ≡ record { cell = cell.now; time = u; first = place_by fall.now; second = Some (place_by other.now) }) }
{
    TieProof {
        cell: cell.copy(),
        time: time_of(fall),
        first: place_of(fall),
        second: Some(place_of(other)),
    }
}

// What a true branch is expanded to, by the lines that end its cell.
pub(crate) fn ended_by(
    alloc: Global,
    problem: &Problem,
    branch: &Branch,
    last: &Last,
    normal: MovingNormal,
    front: &Front,
) -> Result<Expansion, HaltCause>
    requires still { IsStill problem.now }
    requires settled { IsSettled problem.now branch.now }
    requires untied { ¬ (IsTiedAtBegin problem.now branch.now.cell) }
    requires last { IsLast problem.now last.now }
    requires cell { last.now.cell ≡ branch.now.cell }
    requires normal { IsMovingNormal problem.now branch.now.cell normal }
    requires falls { AreFalls front.now }
    requires end { IsFrontOf problem.now branch.now.cell normal front.now }
    ensures { MatchResult result (IsExpansion problem.now branch.now) (IsCause problem.now branch.now) }
{
    // A problem is valid by its type, as its readers tell.
    let _dim = problem.dim();
    match front {
        Front::Empty => Ok(endless(problem, branch, normal)),
        Front::One(fall) => {
            let time = time_of(fall);
            let Ok(signs) = signs_by(alloc, problem, last, fall.support, fall.position) else {
                return Err(HaltCause::OutOfMemory);
            };
            let children = kept_by(
                problem,
                &last.cell,
                signs,
                fall.support,
                fall.position,
                time,
            );
            Ok(Expansion::Inner { children })
        }
        Front::Two(fall, other) => Err(HaltCause::Tie(tie_between(branch.cell(), fall, other))),
    }
}
