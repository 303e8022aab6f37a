ghost use Rattle.std.specs.Prelude.{◌≡◌, ◌≤◌, [], ◌∷◌, IfOk, length};
ghost use Rattle.reduced_rows.specs.Steps.{OfLength};

use crate::{Kept, ReduceFault, Table};
use int_vectors::IntVec;
use std::alloc::Global;
use std::test::Fail;

// Two rows as vectors.
fn two(alloc: Global, first: &[i128], second: &[i128]) -> Result<Vec<IntVec>, Fail>
    ensures { IfOk result (λ rows. rows.items ≡ first.now ∷ second.now ∷ []) }
{
    let mut rows = Vec::with_capacity(alloc, 2)?;
    rows.push(IntVec::from_slice(alloc, first)?)?;
    rows.push(IntVec::from_slice(alloc, second)?)?;
    Ok(rows)
}

// The table of the rows of a cell.
fn table_of_a_cell(alloc: Global) -> Result<Table, Fail>
    ensures { IfOk result (λ table. (length table.rows ≡ 2) × OfLength 6 table.rows) }
{
    let rows = two(alloc, &[2, 0, -3, 1, 1, 0], &[-1, -1, -1, 1, 0, 1])?;
    Ok(Table::new(alloc, rows)?)
}

// The entries of the reduced rows, or of the kernel.
fn entries(alloc: Global, answer: &Result<Table, ReduceFault>) -> Result<Vec<i128>, Fail> {
    let mut entries = Vec::new(alloc);
    if let Ok(table) = answer {
        let reduced = table.reduced();
        for k in 0..reduced.count() {
            entries.extend_from_slice(reduced.row(k + 1).as_slice())?;
        }
    }
    if let Err(ReduceFault::Dependent { kernel }) = answer {
        entries.extend_from_slice(kernel.as_slice())?;
    }
    Ok(entries)
}

#[test]
fn table_of_two_rows(rt: HostRuntime) -> Result<(), Fail> {
    let answer = table_of_a_cell(rt.alloc())?;
    assert_eq!(rt; answer.rows().len(), 2);
    let made = entries(rt.alloc(), &Ok(answer))?;
    assert_eq!(rt;
        made.as_slice(),
        [2, 0, -3, 1, 1, 0, 0, 2, 5, -3, -1, -2].as_slice()
    );
    Ok(())
}

#[test]
fn a_row_exchanged(rt: HostRuntime) -> Result<(), Fail> {
    let table = table_of_a_cell(rt.alloc())?;
    let row = IntVec::from_slice(rt.alloc(), &[1, 1, 35, 0, 0, 1])?;
    let answer = table.exchange(rt.alloc(), 2, row);
    let made = entries(rt.alloc(), &answer)?;
    assert_eq!(rt;
        made.as_slice(),
        [2, 0, -3, 1, 1, 0, 0, 2, 73, -1, -1, 2].as_slice()
    );
    Ok(())
}

#[test]
fn a_dependent_row_exchanged(rt: HostRuntime) -> Result<(), Fail> {
    let table = table_of_a_cell(rt.alloc())?;
    let row = IntVec::from_slice(rt.alloc(), &[2, 0, 0, 0, 0, 1])?;
    let answer = table.exchange(rt.alloc(), 2, row);
    assert!(rt; answer.is_err());
    let kernel = entries(rt.alloc(), &answer)?;
    assert_eq!(rt; kernel.as_slice(), [0, 2].as_slice());
    Ok(())
}

#[test]
fn a_table_kept(rt: HostRuntime) -> Result<(), Fail> {
    let mut kept = Kept::new();
    assert!(rt; kept.take().is_none());
    kept.put(table_of_a_cell(rt.alloc())?);
    assert!(rt; kept.take().is_some());
    assert!(rt; kept.take().is_none());
    Ok(())
}
