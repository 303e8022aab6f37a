ghost use Rattle.std.specs.Prelude.{◌↔◌, IsTrue, MatchOption};
ghost use Rattle.cayley.specs.Cells.{IsOf};
ghost use Rattle.cayley.specs.Lives.{AliveLate};
ghost use Rattle.cayley.specs.Problems.{IsStill, file_points};
ghost use Rattle.inner_normal.specs.MovingNormals.{IsMovingNormal};
ghost use Rattle.searcher.specs.declared.expansions.Expansion.TheVariants.{Endless, Target};
ghost use Rattle.searcher.specs.Expansions.{IsExpansion, IsSettled, IsTied};

use crate::branches::Branch;
use crate::expansions::Expansion;
use cayley::{Cell, FoundCell, Problem};
use inner_normal::{MovingNormal, target_normal};

/// Whether all points of a cell are file points.
pub fn has_file_points(problem: &Problem, cell: &Cell) -> bool
    requires { IsOf problem.now cell.now }
    ensures { IsTrue result ↔ IsOf (file_points problem.now) cell.now }
{
    // A problem is valid by its type, as its readers tell.
    let _dim = problem.dim();
    let pairs = cell.pairs();
    for (place, pair) in pairs.iter().enumerate() {
        if !problem.is_file_point(place as u32 + 1, pair.1) {
            return false;
        }
    }
    true
}

// A cell that never ends, as a found cell where it is mixed.
pub(crate) fn mixed(problem: &Problem, branch: &Branch, normal: MovingNormal) -> Option<FoundCell>
    requires still { IsStill problem.now }
    requires settled { IsSettled problem.now branch.now }
    requires untied { ¬ (IsTied problem.now branch.now.cell) }
    requires late { AliveLate problem.now branch.now.cell }
    requires normal { IsMovingNormal problem.now branch.now.cell normal }
    ensures { MatchOption result (IsExpansion problem.now branch.now Endless) (λ found. IsExpansion problem.now branch.now (Target found)) }
{
    // A problem is valid by its type, as its readers tell.
    let _dim = problem.dim();
    if !has_file_points(problem, branch.cell()) {
        return None;
    }
    Some(FoundCell {
        cell: branch.cell().copy(),
        normal: target_normal(normal),
    })
}

// What a cell is that never ends.
pub(crate) fn endless(problem: &Problem, branch: &Branch, normal: MovingNormal) -> Expansion
    requires still { IsStill problem.now }
    requires settled { IsSettled problem.now branch.now }
    requires untied { ¬ (IsTied problem.now branch.now.cell) }
    requires late { AliveLate problem.now branch.now.cell }
    requires normal { IsMovingNormal problem.now branch.now.cell normal }
    ensures { IsExpansion problem.now branch.now result }
{
    match mixed(problem, branch, normal) {
        Some(found) => Expansion::Target(found),
        None => Expansion::Endless,
    }
}
