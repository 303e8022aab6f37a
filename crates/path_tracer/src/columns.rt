ghost use Rattle.std.specs.Prelude.{◌≡◌, ◌+◌, ◌<ℤ◌, pos, MatchResult, length, unsigned_abs};
ghost use Rattle.reduced_rows.specs.Refusals.{IsFromFault};
ghost use Rattle.inner_normal.specs.Inverses.{scaled_columns, FitsColumns};
ghost use Rattle.inner_normal.specs.Workings.{HaveWidths};

use int_vectors::IntVec;
use reduced_rows::{FromFault, Reduced};
use std::alloc::Global;

// The columns from `2 + n` on, each entry times `den` over its row's pivot.
pub(crate) fn columns_of(
    alloc: Global,
    reduced: &Reduced,
    den: i128,
) -> Result<Vec<IntVec>, FromFault>
    requires widths { HaveWidths reduced.now }
    requires positive { pos 0 <ℤ den }
    ensures { let n = length reduced.now in let l = unsigned_abs den in MatchResult result
        (λ made. FitsColumns n (n + 2) l reduced.now × (made.items ≡ scaled_columns n (n + 2) l reduced.now))
        (IsFromFault (FitsColumns n (n + 2) l reduced.now)) }
{
    let count = reduced.count();
    let mut made = Vec::with_capacity(alloc, count)?;
    for i in 0..count {
        let column = reduced.scaled_column(alloc, count + 2 + i, den)?;
        made.push(column)?;
    }
    Ok(made)
}
