ghost use Rattle.std.specs.Prelude.{◌≡◌, [], ◌∷◌, IfOk, length};
ghost use Rattle.cayley.specs.Cells.{IsOf};
ghost use Rattle.carried_inverse.specs.Systems.{IsInverseOfCell};

use crate::{Carried, Exchange};
use cayley::{Cell, Point, Problem, Support};
use inner_normal::Eliminated;
use int_vectors::IntVec;
use reduced_rows::reduce;
use std::alloc::Global;
use std::test::Fail;

// Two rows as vectors.
fn two(alloc: Global, first: &[i128], second: &[i128]) -> Result<Vec<IntVec>, Fail>
    ensures { IfOk result (λ rows. rows.items ≡ first.now ∷ second.now ∷ []) }
{
    let mut rows = Vec::with_capacity(alloc, 2)?;
    rows.push(IntVec::from_slice(alloc, first)?)?;
    rows.push(IntVec::from_slice(alloc, second)?)?;
    Ok(rows)
}

// The inverse of (2, 0) and (-1, -1).
fn begun(alloc: Global) -> Result<Carried, Fail>
    ensures { IfOk result (λ carried. length carried.columns ≡ 2) }
{
    let rows = two(alloc, &[2, 0, -3, 1, 1, 0], &[-1, -1, -1, 1, 0, 1])?;
    let reduced = reduce(alloc, rows, 2)?;
    let carried = Carried::of(alloc, &reduced)?;
    if carried.count() != 2 {
        return Err(Fail::from("not two columns"));
    }
    Ok(carried)
}

#[test]
fn exchanges_of_a_row(rt: HostRuntime) -> Result<(), Fail> {
    let mut carried = begun(rt.alloc())?;
    assert_eq!(rt; carried.den(), 2);
    assert_eq!(rt; carried.column(0), [1, -1].as_slice());
    assert_eq!(rt; carried.column(1), [0, -2].as_slice());
    assert_eq!(rt; carried.exchange(1, &[4, 0]), Exchange::Dependent);
    assert_eq!(rt; carried.exchange(1, &[1 << 62, 1]), Exchange::TooLarge);
    assert_eq!(rt; carried.exchange(1, &[1, 1]), Exchange::Made);
    assert!(rt; carried.count() == 2);
    assert_eq!(rt; carried.den(), 2);
    assert_eq!(rt; carried.column(0), [1, -1].as_slice());
    assert_eq!(rt; carried.column(1), [0, 2].as_slice());
    Ok(())
}

#[test]
fn an_equal_inverse(rt: HostRuntime) -> Result<(), Fail> {
    let carried = begun(rt.alloc())?;
    let copy = carried.copy(rt.alloc())?;
    assert_eq!(rt; (copy.count(), copy.den()), (2, 2));
    Ok(())
}

// Two squares, of file points alone.
fn squares(alloc: Global) -> Result<Problem, Fail> {
    let mut supports = Vec::new(alloc);
    for _support in 0..2 {
        let mut points = Vec::new(alloc);
        for coords in [&[0, 0], &[1, 0], &[0, 1], &[1, 1]] {
            let coords = IntVec::from_slice(alloc, coords)?;
            points.push(Point {
                coords,
                base: 0,
                speed: 0,
            })?;
        }
        supports.push(Support { points, file: 4 })?;
    }
    Ok(Problem::new(alloc, 2, supports)?)
}

fn inverse_at(alloc: Global, problem: &Problem, cell: &Cell) -> Result<Carried, Fail>
    requires { IsOf problem.now cell.now }
    ensures { IfOk result (λ a. IsInverseOfCell problem.now cell.now a) }
{
    let Ok(eliminated) = Eliminated::of(alloc, problem, cell) else {
        return Err(Fail::from("not eliminated"));
    };
    let carried = Carried::of(alloc, eliminated.reduced())?;
    Ok(carried)
}

#[test]
fn toward_another_cell(rt: HostRuntime) -> Result<(), Fail> {
    let problem = squares(rt.alloc())?;
    let (Some(first), Some(second)) = (
        Cell::new(rt.alloc(), &[(1, 2), (1, 3)]),
        Cell::new(rt.alloc(), &[(2, 3), (1, 2)]),
    ) else {
        return Err(Fail::from("no cell"));
    };
    if !problem.contains(&first) || !problem.contains(&second) {
        return Err(Fail::from("not of the problem"));
    }
    let mut carried = inverse_at(rt.alloc(), &problem, &first)?;
    let mut at = first.copy();
    let mut row = Vec::new(rt.alloc());
    row.resize(problem.dim(), 0)?;
    assert!(rt; carried.toward(&problem, &mut at, &second, &mut row));
    assert!(rt; at.cmp(&second).is_eq());
    assert!(rt; carried.count() == 2);
    assert_eq!(rt; carried.den(), 1);
    assert_eq!(rt; carried.column(0), [0, 1].as_slice());
    assert_eq!(rt; carried.column(1), [1, 1].as_slice());
    Ok(())
}
