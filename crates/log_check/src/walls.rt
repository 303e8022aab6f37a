// The normal, the inverse and the lines that a node's matrix gives.
ghost use Rattle.std.specs.Prelude.{◌≡◌, MatchResult};
ghost use Rattle.cayley.specs.Cells.{IsOf};
ghost use Rattle.reduced_rows.specs.Refusals.{IsFromFault};
ghost use Rattle.path_trace.specs.Matrices as matrices;
ghost use Rattle.log_check.specs.Nodes.{HasInverse};
ghost use Rattle.log_check.specs.Numbers.{FitsNode};
ghost use Rattle.log_check.specs.Walled.{IsWalled};

use crate::numbers::normal_by;
use cayley::Problem;
use cone_walls::{WallLine, lines_of, refine_all};
use inner_normal::{MovingNormal, ScaledInverse};
use int_vectors::IntVec;
use path_trace::TraceNode;
use reduced_rows::FromFault;
use std::alloc::Global;

// What the matrix of a node gives.
#[derive(Drop)]
pub(crate) struct Walled {
    pub(crate) normal: MovingNormal,
    pub(crate) inverse: ScaledInverse,
    // One for each further point.
    pub(crate) lines: Vec<WallLine>,
}

// What the matrix of a node gives, whose columns these are. `Overflow` exactly where a number of it
// doesn't fit.
pub(crate) fn walls_by(
    alloc: Global,
    problem: &Problem,
    node: &TraceNode,
    columns: Vec<IntVec>,
) -> Result<Walled, FromFault>
    requires of { IsOf problem.now node.now.cell }
    requires inverse { HasInverse problem.now node.now }
    requires columns { columns.items ≡ matrices.columns problem.now.dimension node.now.inverse }
    ensures { MatchResult result
        (λ w. FitsNode problem.now node.now × IsWalled problem.now node.now w)
        (IsFromFault (FitsNode problem.now node.now)) }
{
    // A problem is valid by its type, as its readers tell.
    let _dim = problem.dim();
    let normal = normal_by(alloc, problem, node)?;
    let coarse = lines_of(alloc, problem, &node.cell, &normal)?;
    let inverse = ScaledInverse::given(node.scale, columns);
    let lines = refine_all(alloc, problem, &node.cell, &inverse, coarse)?;
    Ok(Walled {
        normal,
        inverse,
        lines,
    })
}
