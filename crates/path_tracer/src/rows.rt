ghost use Rattle.std.specs.Prelude.{◌≡◌, ◌<◌, ◌++◌, IfOk, OnOk, map, length};
ghost use Rattle.int_vectors.specs.Fits.{AllFit};
ghost use Rattle.int_vectors.specs.Vectors.{Each, at, entries_at};
ghost use Rattle.path_tracer.specs.Rows.{rows_of};

use int_vectors::IntVec;
use std::alloc::Global;
use wide_int::OutOfMemory;

// Puts the entry at a place of each column behind the others.
fn push_row(columns: &[IntVec], place: usize, entries: &mut Vec<i128>) -> Result<(), OutOfMemory>
    requires place { Each columns.now (λ column. place < length column) }
    ensures row { OnOk result (entries.new.items ≡ entries.old.items ++ entries_at place columns.now) }
    ensures fits { AllFit entries.old.items → AllFit entries.new.items }
{
    for column in columns {
        if let Err(_) = entries.push(column.get(place)) {
            return Err(OutOfMemory);
        }
    }
    Ok(())
}

// The numbers of a square matrix row after row.
pub(crate) fn by_rows(alloc: Global, columns: &[IntVec]) -> Result<IntVec, OutOfMemory>
    requires square { Each columns.now (λ column. length column ≡ length columns.now) }
    ensures rows { IfOk result (λ v. v ≡ rows_of (length columns.now) 0 columns.now) }
    ensures fits { IfOk result (λ v. AllFit v) }
{
    let mut entries = Vec::new(alloc);
    for place in 0..columns.len() {
        push_row(columns, place, &mut entries)?;
    }
    Ok(IntVec::from_vec(entries))
}
