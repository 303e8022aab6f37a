use crate::{Few, Signs, predecessors, successors};
use cayley::{Cell, Sign};
use std::alloc::Global;

// The successors and the predecessors of the cell 1 4 where point 2 is level.
fn flips(alloc: Global, a: Sign, b: Sign) -> Option<(Few, Few)> {
    let cell = Cell::new(alloc, &[(1, 4)])?;
    let signs = Signs::new(a, b)?;
    let next = successors(&cell, 1, 2, &signs);
    Some((next, predecessors(&cell, 1, 2, &signs)))
}

// Whether one cell has these pairs, or each of two cells one of them.
fn are(cells: &Few, pairs: &[(u32, u32)]) -> bool {
    match cells {
        Few::One(one) => one.pairs() == pairs,
        Few::Two(one, other) => {
            pairs.len() == 2 && one.pairs() == &pairs[..1] && other.pairs() == &pairs[1..]
        }
    }
}

#[test]
fn cell_one_four_where_point_two_is_level(rt: HostRuntime) {
    let table: [(Sign, Sign, &[(u32, u32)], &[(u32, u32)]); 5] = [
        (Sign::Minus, Sign::Minus, &[(1, 2), (2, 4)], &[(1, 4)]),
        (Sign::Minus, Sign::Plus, &[(2, 4)], &[(1, 2), (1, 4)]),
        (Sign::Plus, Sign::Minus, &[(1, 2)], &[(1, 4), (2, 4)]),
        (Sign::Minus, Sign::Zero, &[(2, 4)], &[(1, 4)]),
        (Sign::Zero, Sign::Minus, &[(1, 2)], &[(1, 4)]),
    ];
    for (a, b, next, before) in table {
        let found = flips(rt.alloc(), a, b);
        assert!(rt; found.is_some_and(|found| are(&found.0, next) && are(&found.1, before)));
    }
}

#[test]
fn one_sign_is_minus(rt: HostRuntime) {
    for (a, b) in [
        (Sign::Zero, Sign::Plus),
        (Sign::Plus, Sign::Zero),
        (Sign::Plus, Sign::Plus),
    ] {
        assert!(rt; Signs::new(a, b).is_none());
    }
}

#[test]
fn the_other_supports_stay(rt: HostRuntime) {
    let signs = Signs::new(Sign::Minus, Sign::Zero);
    let cell = Cell::new(rt.alloc(), &[(3, 4), (1, 4), (5, 6)]);
    if let (Some(signs), Some(cell)) = (signs, cell) {
        let next = successors(&cell, 2, 7, &signs);
        assert!(rt; are(&next, &[(3, 4), (4, 7), (5, 6)]));
    } else {
        assert!(rt; false, "signs with a minus and a cell that rises");
    }
}
