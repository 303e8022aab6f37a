ghost use Rattle.std.specs.Prelude.{◌≡◌, ◌<◌, ◌≤◌, ℕ, Ok, MatchResult, IfOk, IfErr, length};
ghost use Rattle.reduced_rows.specs.Refusals.{IsFault, HasKernel, HadMemory, OverflowExactly, DependentExactly};
ghost use Rattle.reduced_rows.specs.Spans.{IsReducedOf};
ghost use Rattle.reduced_rows.specs.Steps.{OfLength, elimination, FitsElimination};

use crate::faults::ReduceFault;
use crate::kernels::dependent;
use crate::reduced::Reduced;
use crate::stepping::{clean_all, pivot, primitive_all};
use int_vectors::IntVec;
use std::alloc::Global;

// The elimination of the rows on their first columns, as its definition has it.
fn eliminate_rows(alloc: Global, rows: Vec<IntVec>, columns: usize) -> Result<Reduced, ReduceFault>
    requires count { length rows.items ≡ columns }
    requires lengths { (n : ℕ) × (columns ≤ n) × OfLength n rows.items }
    ensures { MatchResult result
        (λ reduced. FitsElimination columns rows.items × (elimination columns rows.items ≡ Ok reduced))
        (IsFault columns rows.items) }
{
    let mut rest = rows;
    primitive_all(&mut rest);
    let mut done = Vec::with_capacity(alloc, columns)?;
    for k in 0..columns {
        let Some(by) = pivot(&mut rest, k) else {
            return Err(dependent(alloc, &done, k, columns - k - 1));
        };
        if !clean_all(&mut done, &by, k) {
            return Err(ReduceFault::Overflow);
        }
        if !clean_all(&mut rest, &by, k) {
            return Err(ReduceFault::Overflow);
        }
        done.push(by)?;
    }
    Ok(Reduced::new(done))
}

/// The elimination of rows on their first `columns` columns. There are as many rows as columns, all
/// of one length, which is at least `columns`. `Overflow` exactly where a number of the elimination
/// or of the kernel doesn't fit, else `Dependent` exactly where the rows cut to these columns are
/// dependent.
pub fn reduce(alloc: Global, rows: Vec<IntVec>, columns: usize) -> Result<Reduced, ReduceFault>
    requires count { length rows.items ≡ columns }
    requires lengths { (n : ℕ) × (columns ≤ n) × OfLength n rows.items }
    // Ok: reduced rows of the same span, and the rows are independent.
    ensures reduced { IfOk result (λ reduced. IsReducedOf columns rows.items reduced) }
    // Dependent: the kernel isn't zero, and it is orthogonal to each cut row.
    ensures kernel { IfErr result (HasKernel columns rows.items) }
    ensures overflow { HadMemory result → OverflowExactly columns rows.items result }
    ensures dependent { HadMemory result → DependentExactly columns rows.items result }
    // The numbers that come out are those of the working.
    ensures working { MatchResult result
        (λ reduced. FitsElimination columns rows.items × (elimination columns rows.items ≡ Ok reduced))
        (IsFault columns rows.items) }
{
    eliminate_rows(alloc, rows, columns)
}
