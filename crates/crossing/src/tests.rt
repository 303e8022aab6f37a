ghost use Rattle.std.specs.Prelude.{◌≡◌, List, [], ◌∷◌, ℕ, ℤ, pos, IfOk};
ghost use Rattle.wide_int.specs.Whole.{FitsWhole};

use crate::{Entry, Exit, Fine, Tie, WallLine, entry_of, exit_of, tie_of};
use lex_height::{Lex, LexPart};
use std::alloc::Global;
use std::test::Fail;
use wide_int::Frac;

fn line(alloc: Global, alpha: i128, beta: i128) -> WallLine
    ensures { result ≡ record { support = 1; position = 1; alpha = alpha; beta = beta; fine = [] } }
{
    WallLine {
        support: 1,
        position: 1,
        alpha,
        beta,
        fine: Fine::from_vec(Vec::new(alloc)),
    }
}

// The line beta t with one fine part.
fn fine_line(alloc: Global, beta: i128, rank: u32, num: i128) -> Result<WallLine, Fail>
    ensures { IfOk result (λ l. l ≡ record { support = 1; position = 1; alpha = pos 0; beta = beta; fine = record { rank = rank; num = num } ∷ [] }) }
{
    let parts = Vec::from_slice(alloc, &[LexPart { rank, num }])?;
    Ok(WallLine {
        support: 1,
        position: 1,
        alpha: 0,
        beta,
        fine: Fine::from_vec(parts),
    })
}

fn whole(time: i128) -> Lex
    requires { FitsWhole time }
{
    Lex::of(&Frac::lowest(time, 1).unwrap())
}

// The time with this part alone, over 1.
fn tiny(rank: u32, num: i128) -> Option<Lex> {
    Lex::new(&[LexPart { rank, num }], 1)
}

#[test]
fn exits(rt: HostRuntime) {
    let alloc = rt.alloc();
    let time = whole(3);
    let tied = Exit::Tied {
        time,
        first: 1,
        second: 2,
    };
    assert_eq!(rt; exit_of(&[]), Exit::Never);
    assert_eq!(rt; exit_of(&[line(alloc, 1, 1)]), Exit::Never);
    assert_eq!(rt; exit_of(&[line(alloc, 0, 0)]), Exit::Flat { which: 1 });
    assert_eq!(rt;
        exit_of(&[line(alloc, 6, -2), line(alloc, 0, 0), line(alloc, 0, 0)]),
        Exit::Flat { which: 2 }
    );
    assert_eq!(rt; exit_of(&[line(alloc, 6, -2), line(alloc, 9, -3)]), tied);
    assert_eq!(rt;
        exit_of(&[
            line(alloc, 6, -2),
            line(alloc, 9, -3),
            line(alloc, 3, -1),
            line(alloc, 4, -1)
        ]),
        tied
    );
    assert_eq!(rt;
        exit_of(&[line(alloc, 10, -1), line(alloc, 6, -2), line(alloc, 1, 5)]),
        Exit::At { time, which: 2 }
    );
}

#[test]
fn entries(rt: HostRuntime) {
    let alloc = rt.alloc();
    let time = whole(2);
    assert_eq!(rt; entry_of(&[]), Entry::Always);
    assert_eq!(rt;
        entry_of(&[line(alloc, 1, 0), line(alloc, 9, -1)]),
        Entry::Always
    );
    assert_eq!(rt; entry_of(&[line(alloc, -1, 0)]), Entry::Dead);
    assert_eq!(rt;
        entry_of(&[line(alloc, 0, 1), line(alloc, 0, -1)]),
        Entry::Dead
    );
    assert_eq!(rt;
        entry_of(&[line(alloc, -4, 2), line(alloc, 9, -1)]),
        Entry::At { time, which: 1 }
    );
    assert_eq!(rt;
        entry_of(&[
            line(alloc, 0, 7),
            line(alloc, -4, 2),
            line(alloc, 9, -1),
            line(alloc, -6, 3),
            line(alloc, -2, 1)
        ]),
        Entry::Tied {
            time,
            first: 2,
            second: 4,
        }
    );
}

#[test]
fn zeros_past_all_products_are_told_apart(rt: HostRuntime) {
    let lines = [
        line(rt.alloc(), i128::MAX - 1, 2 - i128::MAX),
        line(rt.alloc(), i128::MAX, 1 - i128::MAX),
    ];
    let exit = exit_of(&lines);
    let which = match exit {
        Exit::At { which, .. } => which,
        _ => 0,
    };
    assert_eq!(rt; which, 2);
}

#[test]
fn fine_parts_tell_exits_apart(rt: HostRuntime) -> Result<(), Fail> {
    let lines = [
        fine_line(rt.alloc(), -2, 1, 2)?,
        fine_line(rt.alloc(), -2, 2, 2)?,
        fine_line(rt.alloc(), -2, 3, 2)?,
    ];
    let time = tiny(3, 1).expect(&rt, "a time");
    assert_eq!(rt; exit_of(&lines), Exit::At { time, which: 3 });
    let lines = [
        fine_line(rt.alloc(), -1, 1, 1)?,
        fine_line(rt.alloc(), -2, 1, 2)?,
    ];
    let time = tiny(1, 1).expect(&rt, "a time");
    assert_eq!(rt;
        exit_of(&lines),
        Exit::Tied {
            time,
            first: 1,
            second: 2,
        }
    );
    Ok(())
}

#[test]
fn a_fine_part_alone_is_not_flat(rt: HostRuntime) -> Result<(), Fail> {
    let above = [fine_line(rt.alloc(), 0, 1, 5)?];
    assert_eq!(rt; exit_of(&above), Exit::Never);
    assert_eq!(rt; entry_of(&above), Entry::Always);
    let below = [fine_line(rt.alloc(), 0, 1, -5)?];
    assert_eq!(rt; exit_of(&below), Exit::Never);
    assert_eq!(rt; entry_of(&below), Entry::Dead);
    Ok(())
}

#[test]
fn fine_parts_tell_entries_apart(rt: HostRuntime) -> Result<(), Fail> {
    let rising = [
        fine_line(rt.alloc(), 1, 1, 1)?,
        fine_line(rt.alloc(), 1, 2, 1)?,
    ];
    let time = tiny(2, -1).expect(&rt, "a time");
    assert_eq!(rt; entry_of(&rising), Entry::At { time, which: 2 });
    let open = [
        fine_line(rt.alloc(), 1, 2, -1)?,
        fine_line(rt.alloc(), -1, 1, 1)?,
    ];
    let time = tiny(2, 1).expect(&rt, "a time");
    assert_eq!(rt; entry_of(&open), Entry::At { time, which: 1 });
    let shut = [
        fine_line(rt.alloc(), 1, 1, -1)?,
        fine_line(rt.alloc(), -1, 2, 1)?,
    ];
    assert_eq!(rt; entry_of(&shut), Entry::Dead);
    Ok(())
}

#[test]
fn fine_parts_are_given_back(rt: HostRuntime) -> Result<(), Fail> {
    let fine = Fine::from_vec(Vec::from_slice(rt.alloc(), &[LexPart { rank: 1, num: 2 }])?);
    assert_eq!(rt; fine.as_slice().len(), 1);
    let parts = fine.into_vec();
    assert_eq!(rt; parts[0], LexPart { rank: 1, num: 2 });
    Ok(())
}

fn tie(time: i128, first: usize, second: Option<usize>) -> Option<Tie>
    requires { FitsWhole time }
{
    Some(Tie {
        time: whole(time),
        first,
        second,
    })
}

#[test]
fn ties_at_the_ends(rt: HostRuntime) {
    let alloc = rt.alloc();
    assert_eq!(rt; tie_of(&[]), None);
    assert_eq!(rt; tie_of(&[line(alloc, -4, 2), line(alloc, 9, -1)]), None);
    assert_eq!(rt;
        tie_of(&[line(alloc, 6, -2), line(alloc, 9, -3)]),
        tie(3, 1, Some(2))
    );
    assert_eq!(rt;
        tie_of(&[
            line(alloc, 6, -2),
            line(alloc, 5, 0),
            line(alloc, -4, 2),
            line(alloc, 9, -3),
            line(alloc, -2, 1)
        ]),
        tie(2, 3, Some(5))
    );
}

#[test]
fn ties_of_lines_that_are_never_all_positive(rt: HostRuntime) {
    let alloc = rt.alloc();
    assert_eq!(rt;
        tie_of(&[line(alloc, 0, 1), line(alloc, 0, -1)]),
        tie(0, 1, Some(2))
    );
    assert_eq!(rt;
        tie_of(&[
            line(alloc, 4, -2),
            line(alloc, 5, 0),
            line(alloc, -4, 2),
            line(alloc, -2, 1)
        ]),
        tie(2, 1, Some(3))
    );
    assert_eq!(rt; tie_of(&[line(alloc, -1, 1), line(alloc, 0, -1)]), None);
    assert_eq!(rt;
        tie_of(&[line(alloc, 0, 1), line(alloc, 0, -1), line(alloc, -1, 0)]),
        None
    );
}

#[test]
fn ties_at_all_times(rt: HostRuntime) {
    let alloc = rt.alloc();
    assert_eq!(rt; tie_of(&[line(alloc, 0, 0)]), tie(0, 1, None));
    assert_eq!(rt;
        tie_of(&[line(alloc, -4, 2), line(alloc, 0, 0), line(alloc, 6, -2)]),
        tie(2, 2, None)
    );
    assert_eq!(rt;
        tie_of(&[line(alloc, 6, -2), line(alloc, 0, 0)]),
        tie(3, 2, None)
    );
    assert_eq!(rt; tie_of(&[line(alloc, 0, 0), line(alloc, -1, 0)]), None);
}
