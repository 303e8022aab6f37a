ghost use Rattle.std.specs.Prelude.{◌<ℤ◌, pos};

use crate::{Lex, LexPart, PARTS, compare_parts};
use std::cmp::Ordering;
use wide_int::Frac;

const GREATEST: i128 = i128::MAX;

fn part(rank: u32, num: i128) -> LexPart {
    LexPart { rank, num }
}

// The order of the parts of two values over other denominators.
fn compare_over(first: &Lex, first_den: i128, second: &Lex, second_den: i128) -> Ordering
    requires first_den { pos 0 <ℤ first_den }
    requires second_den { pos 0 <ℤ second_den }
{
    compare_parts(first.parts(), first_den, second.parts(), second_den)
}

#[test]
fn values_are_in_lowest_terms(rt: HostRuntime) {
    let value = Lex::new(&[part(1, 6), part(2, -4)], 2).expect(&rt, "a value");
    assert!(rt; value.parts() == &[part(1, 3), part(2, -2)][..]);
    assert_eq!(rt; value.den(), 1);
    assert_eq!(rt; value.copy(), value);
    let greatest = Lex::new(&[part(0, GREATEST), part(7, -GREATEST)], GREATEST);
    assert_eq!(rt; greatest, Lex::new(&[part(0, 1), part(7, -1)], 1));
    assert_eq!(rt; Lex::new(&[], GREATEST), Lex::new(&[], 1));
}

#[test]
fn what_is_no_value_is_refused(rt: HostRuntime) {
    assert_eq!(rt; Lex::new(&[part(1, 2)], 0), None);
    assert_eq!(rt; Lex::new(&[part(1, 2)], -1), None);
    assert_eq!(rt; Lex::new(&[part(1, 0)], 1), None);
    assert_eq!(rt; Lex::new(&[part(1, i128::MIN)], 1), None);
    assert_eq!(rt; Lex::new(&[part(1, 2), part(1, 3)], 1), None);
    assert_eq!(rt; Lex::new(&[part(2, 2), part(1, 3)], 1), None);
    let mut many = [part(0, 1); PARTS + 1];
    for (rank, one) in (0u32..).zip(&mut many) {
        one.rank = rank;
    }
    assert_eq!(rt; Lex::new(&many, 1), None);
    let most = Lex::new(&many[1..], 1).expect(&rt, "a value");
    assert_eq!(rt; most.parts().len(), PARTS);
}

#[test]
fn the_least_rank_at_which_they_differ_decides(rt: HostRuntime) {
    let one = Lex::new(&[part(2, 2), part(3, -1)], 1).expect(&rt, "a value");
    let other = Lex::new(&[part(1, 1)], 1000).expect(&rt, "a value");
    assert_eq!(rt; one.cmp(&other), Ordering::Less);
    assert_eq!(rt; other.cmp(&one), Ordering::Greater);
    let short = Lex::new(&[part(2, 2)], 1).expect(&rt, "a value");
    assert_eq!(rt; one.cmp(&short), Ordering::Less);
    let next = Lex::new(&[part(2, GREATEST - 1)], GREATEST).expect(&rt, "a value");
    let last = Lex::new(&[part(2, GREATEST - 2)], GREATEST - 1).expect(&rt, "a value");
    assert_eq!(rt; last.cmp(&next), Ordering::Less);
    assert_eq!(rt; compare_over(&one, 2, &one, 1), Ordering::Less);
    assert_eq!(rt; compare_over(&short, 1, &one, 1), Ordering::Greater);
    assert_eq!(rt; compare_over(&one, 3, &one, 3), Ordering::Equal);
}

#[test]
fn a_fraction_is_the_part_of_rank_zero(rt: HostRuntime) {
    let half = Frac::lowest(3, -6).expect(&rt, "a fraction");
    let value = Lex::of(&half);
    assert_eq!(rt; Lex::new(&[part(0, -1)], 2), Some(value));
    assert_eq!(rt; value.frac(), half);
    let nothing = Frac::lowest(0, 5).expect(&rt, "a fraction");
    assert_eq!(rt; Lex::of(&nothing).parts().len(), 0);
    assert_eq!(rt; Lex::of(&nothing).frac(), nothing);
    let tiny = Lex::new(&[part(4, 9)], 5).expect(&rt, "a value");
    assert_eq!(rt; tiny.frac(), nothing);
}
