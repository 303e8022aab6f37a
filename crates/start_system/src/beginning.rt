ghost use Rattle.std.specs.Prelude.{◌≡◌};
ghost use Rattle.cayley.specs.Cells.{IsOf};
ghost use Rattle.cayley.specs.Paths.{start_cell};
ghost use Rattle.start_system.specs.Started.{IsStarted, IsOnlyEarly};

use cayley::{Cell, Problem};
use std::alloc::Global;

/// The start cell: in support i the first corner and that of direction i. It is the only cell that
/// is alive at all early times.
///
/// The allocator is kept in the cell; no memory is asked of it.
pub fn start_cell(alloc: Global, problem: &Problem) -> Cell
    requires { IsStarted problem.now }
    ensures value { result ≡ start_cell problem.now }
    ensures of { IsOf problem.now result }
    ensures early { IsOnlyEarly problem.now result }
{
    let count = problem.dim();
    let mut pairs = [(0u32, 0u32); 16];
    for place in 0..count {
        let i = place as u32 + 1;
        let first = problem.file_count(i) + 1;
        pairs[place] = (first, first + i);
    }
    match Cell::new(alloc, &pairs[..count]) {
        Some(cell) => cell,
        None => unreachable!(),
    }
}
