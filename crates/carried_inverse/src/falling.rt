ghost use Rattle.std.specs.Prelude.{◌≡◌, ◌-◌, ◌+◌, ◌<◌, ◌≤◌, ℕ, ℤ, List, pos, ◌-ℤ◌, IfOk, IfSome, length};
ghost use Rattle.cayley.specs.Cells.{IsOf};
ghost use Rattle.cayley.specs.Problems.{point_at};
ghost use Rattle.cayley.specs.Valid.{support_at};
ghost use Rattle.carried_inverse.specs.Sums.{base_falls, speed_falls};

use cayley::{Cell, Problem};
use reduced_rows::FromFault;
use std::alloc::Global;

fn fall(a: i64, b: i64) -> Option<i64>
    ensures { IfSome result (λ z. z ≡ a -ℤ b) }
{
    a.checked_sub(b)
}

// The falls of base and speed from the first to the second point of the pair of support i.
fn fall_of(problem: &Problem, i: u32, pair: (u32, u32)) -> Option<(i64, i64)>
    requires least { 1 ≤ i }
    requires greatest { i ≤ problem.now.dimension }
    requires pair { (1 ≤ pair.0) × (pair.0 < pair.1) × (pair.1 ≤ length (support_at problem.now i)) }
    ensures { let s = support_at problem.now i in IfSome result (λ r.
        (r.0 ≡ (point_at s pair.0).base -ℤ (point_at s pair.1).base) × (r.1 ≡ (point_at s pair.0).speed -ℤ (point_at s pair.1).speed)) }
{
    let a = problem.point(i, pair.0);
    let b = problem.point(i, pair.1);
    Some((fall(a.base, b.base)?, fall(a.speed, b.speed)?))
}

// The falls of the bases and of the speeds of all pairs.
#[derive(Drop)]
pub(crate) struct Falls {
    pub(crate) bases: Vec<i64>,
    pub(crate) speeds: Vec<i64>,
}

pub(crate) fn falls_of(alloc: Global, problem: &Problem, cell: &Cell) -> Result<Falls, FromFault>
    requires { IsOf problem.now cell.now }
    ensures { IfOk result (λ r. (r.bases.items ≡ base_falls problem.now.supports cell.now) × (r.speeds.items ≡ speed_falls problem.now.supports cell.now)) }
{
    // A problem is valid by its type, as its readers tell.
    let _dim = problem.dim();
    let pairs = cell.pairs();
    let Ok(mut bases) = Vec::with_capacity(alloc, pairs.len()) else {
        return Err(FromFault::OutOfMemory);
    };
    let Ok(mut speeds) = Vec::with_capacity(alloc, pairs.len()) else {
        return Err(FromFault::OutOfMemory);
    };
    for i in 0..pairs.len() {
        let Some((base, speed)) = fall_of(problem, i as u32 + 1, pairs[i]) else {
            return Err(FromFault::Overflow);
        };
        if let Err(_) = bases.push(base) {
            return Err(FromFault::OutOfMemory);
        }
        if let Err(_) = speeds.push(speed) {
            return Err(FromFault::OutOfMemory);
        }
    }
    Ok(Falls { bases, speeds })
}
