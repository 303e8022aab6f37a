use crate::{is_least, keeps};
use cayley::{Cell, Sign};
use flip_rule::Signs;
use std::alloc::Global;

// Whether the cell 1 4 keeps the child where point 2 is level.
fn one_four(alloc: Global, child: (u32, u32), a: Sign, b: Sign) -> Option<bool> {
    let cell = Cell::new(alloc, &[(1, 4)])?;
    let child = Cell::new(alloc, &[child])?;
    let signs = Signs::new(a, b)?;
    Some(keeps(&cell, &child, 1, 2, &signs))
}

// Whether the cell 1 2 keeps the child where point 4 is level.
fn one_two(alloc: Global, child: (u32, u32), a: Sign, b: Sign) -> Option<bool> {
    let cell = Cell::new(alloc, &[(1, 2)])?;
    let child = Cell::new(alloc, &[child])?;
    let signs = Signs::new(a, b)?;
    Some(keeps(&cell, &child, 1, 4, &signs))
}

#[test]
fn two_cells_that_become_one(rt: HostRuntime) {
    assert_eq!(rt;
        one_four(rt.alloc(), (2, 4), Sign::Minus, Sign::Plus),
        Some(false)
    );
    assert_eq!(rt;
        one_two(rt.alloc(), (2, 4), Sign::Minus, Sign::Plus),
        Some(true)
    );
}

#[test]
fn a_cell_that_splits_keeps_both(rt: HostRuntime) {
    for (child, want) in [
        ((1, 2), true),
        ((2, 4), true),
        ((1, 4), false),
        ((1, 3), false),
    ] {
        assert_eq!(rt;
            one_four(rt.alloc(), child, Sign::Minus, Sign::Minus),
            Some(want)
        );
    }
}

// Whether the cell 2 4 is the least where point 3 and where point 5 is level.
fn two_four(alloc: Global, a: Sign, b: Sign) -> Option<(bool, bool)> {
    let cell = Cell::new(alloc, &[(2, 4)])?;
    let signs = Signs::new(a, b)?;
    Some((is_least(&cell, 1, 3, &signs), is_least(&cell, 1, 5, &signs)))
}

#[test]
fn the_least_of_two_cells(rt: HostRuntime) {
    for (a, b, want) in [
        (Sign::Minus, Sign::Minus, (true, true)),
        (Sign::Minus, Sign::Plus, (false, true)),
        (Sign::Plus, Sign::Minus, (true, true)),
    ] {
        assert_eq!(rt; two_four(rt.alloc(), a, b), Some(want));
    }
}
