ghost use Rattle.std.specs.Prelude.{◌≡◌, ◌+◌, ◌*◌, ◌<◌, ◌≤◌, ◌^◌, ℕ, ℤ, List, pos, ◌<ℤ◌, unsigned_abs, length, map, IfOk, IfSome};
ghost use Rattle.int_vectors.specs.Vectors.{Each};
ghost use Rattle.inner_normal.specs.Inverses.{scaled_columns};

use crate::columns::Column;
use int_vectors::IntVec;
use reduced_rows::{FromFault, Reduced};
use std::alloc::Global;

// The number in 64 bits.
pub(crate) fn short(x: i128) -> Option<i64>
    ensures { IfSome result (λ n. n ≡ x) }
{
    i64::try_from(x).ok()
}

// The entries in 64 bits. `Overflow` where one doesn't fit.
fn short_column(alloc: Global, v: &[i128]) -> Result<Column, FromFault>
    ensures { IfOk result (λ column. column ≡ v.now) }
{
    let Ok(mut made) = Vec::with_capacity(alloc, v.len()) else {
        return Err(FromFault::OutOfMemory);
    };
    for x in v {
        let Some(entry) = short(*x) else {
            return Err(FromFault::Overflow);
        };
        if let Err(_) = made.push(entry) {
            return Err(FromFault::OutOfMemory);
        }
    }
    Ok(Column::new(made))
}

// The columns from `2 + n` on, each entry times `den` over its row's pivot.
pub(crate) fn short_columns(
    alloc: Global,
    reduced: &Reduced,
    den: i128,
) -> Result<Vec<Column>, FromFault>
    requires widths { Each reduced.now (λ row. length row ≡ 2 * length reduced.now + 2) }
    requires positive { pos 0 <ℤ den }
    ensures { IfOk result (λ made. made.items ≡ scaled_columns (length reduced.now) (length reduced.now + 2) (unsigned_abs den) reduced.now) }
{
    let count = reduced.count();
    let Ok(mut made) = Vec::with_capacity(alloc, count) else {
        return Err(FromFault::OutOfMemory);
    };
    for i in 0..count {
        let wide = reduced.scaled_column(alloc, count + 2 + i, den)?;
        let column = short_column(alloc, wide.as_slice())?;
        if let Err(_) = made.push(column) {
            return Err(FromFault::OutOfMemory);
        }
    }
    Ok(made)
}

// That many zeros.
pub(crate) fn zeros(alloc: Global, count: usize) -> Result<Vec<i64>, FromFault>
    ensures { IfOk result (λ made. length made.items ≡ count) }
{
    let mut made = Vec::new(alloc);
    match made.resize(count, 0) {
        Ok(()) => Ok(made),
        Err(_) => Err(FromFault::OutOfMemory),
    }
}
