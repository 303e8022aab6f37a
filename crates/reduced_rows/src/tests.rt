ghost use Rattle.std.specs.Prelude.{◌≡◌, [], ◌∷◌, IfOk, length};

use crate::{ReduceFault, reduce};
use int_vectors::IntVec;
use std::alloc::Global;
use std::test::Fail;

const LARGE: i128 = 1 << 100;

// Two rows as vectors.
fn two(alloc: Global, first: &[i128], second: &[i128]) -> Result<Vec<IntVec>, Fail>
    ensures { IfOk result (λ rows. rows.items ≡ first.now ∷ second.now ∷ []) }
{
    let mut rows = Vec::with_capacity(alloc, 2)?;
    rows.push(IntVec::from_slice(alloc, first)?)?;
    rows.push(IntVec::from_slice(alloc, second)?)?;
    Ok(rows)
}

#[test]
fn reduced_rows_of_four_numbers(rt: HostRuntime) -> Result<(), Fail> {
    let rows = two(rt.alloc(), &[2, 0], &[0, 2])?;
    let reduced = reduce(rt.alloc(), rows, 2)?.copy(rt.alloc())?;
    assert!(rt; reduced.count() == 2);
    assert_eq!(rt; reduced.row(1).as_slice(), [1, 0].as_slice());
    assert_eq!(rt; reduced.row(2).as_slice(), [0, 1].as_slice());
    Ok(())
}

// The rows of a cell, its reduced rows, its normal and a column of its scaled inverse.
#[test]
fn rows_of_a_cell(rt: HostRuntime) -> Result<(), Fail> {
    let rows = two(rt.alloc(), &[2, 0, -3, 1, 1, 0], &[-1, -1, -1, 1, 0, 1])?;
    let reduced = reduce(rt.alloc(), rows, 2)?;
    assert!(rt; reduced.count() == 2);
    assert_eq!(rt; reduced.row(1).as_slice(), [2, 0, -3, 1, 1, 0].as_slice());
    assert_eq!(rt; reduced.row(2).as_slice(), [0, 2, 5, -3, -1, -2].as_slice());
    assert_eq!(rt; (reduced.pivot(1), reduced.pivot(2)), (2, 2));
    assert_eq!(rt; reduced.denominator(), Some(2));
    let start = reduced.solution(rt.alloc(), 2, 2)?;
    assert_eq!(rt; start.as_slice(), [3, -5].as_slice());
    let column = reduced.scaled_column(rt.alloc(), 5, 2)?;
    assert_eq!(rt; column.as_slice(), [0, -2].as_slice());
    Ok(())
}

#[test]
fn dependent_rows_and_their_kernel(rt: HostRuntime) -> Result<(), Fail> {
    let rows = two(rt.alloc(), &[1, 2], &[2, 4])?;
    let answer = reduce(rt.alloc(), rows, 2);
    if let Err(ReduceFault::Dependent { kernel }) = &answer {
        assert_eq!(rt; kernel.as_slice(), [-2, 1].as_slice());
    } else {
        assert!(rt; false, "the rows are dependent");
    }
    Ok(())
}

#[test]
fn a_product_that_does_not_fit(rt: HostRuntime) -> Result<(), Fail> {
    let rows = two(rt.alloc(), &[LARGE, 1], &[1, LARGE])?;
    let answer = reduce(rt.alloc(), rows, 2);
    assert!(rt; matches!(answer, Err(ReduceFault::Overflow)));
    Ok(())
}
