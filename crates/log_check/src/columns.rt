// The columns of a matrix that is given row after row.
ghost use Rattle.std.specs.Prelude.{◌≡◌, ◌+◌, ◌-◌, ◌*◌, ◌<◌, ◌++◌, IfOk, drop, length};
ghost use Rattle.int_vectors.specs.Fits.{AllFit};
ghost use Rattle.path_trace.specs.Matrices.{column, columns, columns_from};

use int_vectors::IntVec;
use std::alloc::Global;
use wide_int::OutOfMemory;

// The entry at place k of each of n rows of n numbers.
fn column_at(alloc: Global, n: usize, k: usize, matrix: &[i128]) -> Result<IntVec, OutOfMemory>
    requires place { k < n }
    requires long { length matrix.now ≡ n * n }
    requires fits { AllFit matrix.now }
    ensures { IfOk result (λ made. made ≡ column n k n matrix.now) }
{
    let mut entries = Vec::new(alloc);
    let mut rest = matrix;
    for _row in 0..n {
        if let Err(_) = entries.push(rest[k]) {
            return Err(OutOfMemory);
        }
        let (_head, tail) = rest.split_at(n);
        rest = tail;
    }
    Ok(IntVec::from_vec(entries))
}

// All columns.
pub(crate) fn columns_of(
    alloc: Global,
    n: usize,
    matrix: &[i128],
) -> Result<Vec<IntVec>, OutOfMemory>
    requires long { length matrix.now ≡ n * n }
    requires fits { AllFit matrix.now }
    ensures { IfOk result (λ made. made.items ≡ columns n matrix.now) }
{
    let mut made = Vec::new(alloc);
    for k in 0..n {
        if made.reserve(1).is_err() {
            return Err(OutOfMemory);
        }
        let column = column_at(alloc, n, k, matrix)?;
        made.push_reserved(column);
    }
    Ok(made)
}
