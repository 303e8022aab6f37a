ghost use Rattle.std.specs.Prelude.{◌≡◌, ◌<◌, List, IfOk, MatchOption, length};
ghost use Rattle.int_vectors.specs.Vectors.{Each};
ghost use Rattle.reduced_rows.specs.Denominators.{HavePivots, kernel_of, FitsKernel};
ghost use Rattle.reduced_rows.specs.Refusals.{IsKernelFault};

use crate::denominators::{lcm_of_pivots, shares_of};
use crate::faults::ReduceFault;
use int_vectors::IntVec;
use std::alloc::{AllocError, Global};

// The kernel, of length `k + 1 + more`, unless a number of it doesn't fit.
fn kernel(
    alloc: Global,
    done: &[IntVec],
    k: usize,
    more: usize,
) -> Result<Option<IntVec>, AllocError>
    requires pivots { HavePivots 0 done.now }
    requires lengths { Each done.now (λ row. k < length row) }
    ensures { IfOk result (λ answer. MatchOption answer (¬ (FitsKernel k done.now)) (λ v. FitsKernel k done.now × v ≡ kernel_of k more done.now)) }
{
    let Some(l) = lcm_of_pivots(done) else {
        return Ok(None);
    };
    let Some(mut entries) = shares_of(alloc, done, k, l, more.saturating_add(1))? else {
        return Ok(None);
    };
    entries.push(l)?;
    for _turn in 0..more {
        entries.push(0)?;
    }
    Ok(Some(IntVec::from_vec(entries)))
}

/// The refusal of dependent rows, where `done` are the first `k` rows and column `k`, counted from 0,
/// has no further pivot: the kernel, of length `k + 1 + more`, or what stands against it.
pub fn dependent(alloc: Global, done: &[IntVec], k: usize, more: usize) -> ReduceFault
    requires pivots { HavePivots 0 done.now }
    requires lengths { Each done.now (λ row. k < length row) }
    ensures { IsKernelFault k more done.now result }
{
    match kernel(alloc, done, k, more) {
        Ok(Some(kernel)) => ReduceFault::Dependent { kernel },
        Ok(None) => ReduceFault::Overflow,
        Err(_) => ReduceFault::OutOfMemory,
    }
}
