ghost use Rattle.std.specs.Prelude.{◌≡◌, IfOk};
ghost use Rattle.cayley.specs.Cells.{IsOf, IsIndependent};
ghost use Rattle.cayley.specs.Rows.{edge_rows};
ghost use Rattle.reduced_rows.specs.CellRefusals.{FitsBeyond};
ghost use Rattle.inner_normal.specs.Inverses.{FitsInverse};
ghost use Rattle.path_tracer.specs.Nodes.{HasInverse, FitsNumbers};

use crate::columns::columns_of;
use crate::rows::by_rows;
use cayley::{Cell, Problem};
use inner_normal::{CellFault, Eliminated};
use path_trace::TraceNode;
use reduced_rows::FromFault;
use std::alloc::Global;
use wide_int::OutOfMemory;

// The node of a cell whose working fits, so that it is refused for want of memory alone.
pub(crate) fn node_of(
    alloc: Global,
    problem: &Problem,
    cell: Cell,
) -> Result<TraceNode, OutOfMemory>
    requires of { IsOf problem.now cell }
    requires independent { IsIndependent problem.now cell }
    requires fits { FitsBeyond problem.now.dimension (edge_rows problem.now cell) FitsInverse }
    ensures cell { IfOk result (λ node. node.cell ≡ cell) }
    ensures inverse { IfOk result (HasInverse problem.now) }
    ensures fits { IfOk result FitsNumbers }
{
    let eliminated = match Eliminated::of(alloc, problem, &cell) {
        Ok(eliminated) => eliminated,
        Err(CellFault::OutOfMemory) => return Err(OutOfMemory),
        Err(CellFault::Overflow) => unreachable!(),
        Err(CellFault::Dependent { .. }) => unreachable!(),
    };
    let reduced = eliminated.into_reduced();
    let Some(scale) = reduced.denominator() else {
        unreachable!();
    };
    let columns = match columns_of(alloc, &reduced, scale) {
        Ok(columns) => columns,
        Err(FromFault::OutOfMemory) => return Err(OutOfMemory),
        Err(FromFault::Overflow) => unreachable!(),
    };
    let inverse = by_rows(alloc, &columns)?;
    Ok(TraceNode {
        cell,
        scale,
        inverse,
    })
}
