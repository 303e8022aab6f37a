ghost use Rattle.std.specs.Prelude.{◌≡◌, ◌<ℤ◌, ◌*ℤ◌, pos, List, ◌∷◌};
ghost use Rattle.std.specs.Ordering.{MatchOrdering};
ghost use Rattle.lex_height.specs.declared.part.LexPart.{LexPart};
ghost use Rattle.lex_height.specs.Entries.{entry};
ghost use Rattle.lex_height.specs.Order.{IsLess, IsSame};
ghost use Rattle.lex_height.specs.Values.{AreParts};

use crate::part::LexPart;
use std::cmp::Ordering;
use wide_int::compare;

// The order of two values by their first parts, whatever stands behind these.
fn compare_heads(first: &LexPart, first_den: i128, second: &LexPart, second_den: i128) -> Ordering
    requires first_den { pos 0 <ℤ first_den }
    requires second_den { pos 0 <ℤ second_den }
    ensures { (more others : List LexPart) → AreParts 0 (first.now ∷ more) → AreParts 0 (second.now ∷ others) → MatchOrdering result
        (IsLess (entry (first.now ∷ more)) first_den (entry (second.now ∷ others)) second_den)
        ((first.now.rank ≡ second.now.rank) × (first.now.num *ℤ second_den ≡ second.now.num *ℤ first_den))
        (IsLess (entry (second.now ∷ others)) second_den (entry (first.now ∷ more)) first_den) }
{
    match first.rank.cmp(&second.rank) {
        Ordering::Less => first.num.cmp(&0),
        Ordering::Equal => compare(first.num, first_den, second.num, second_den),
        Ordering::Greater => 0.cmp(&second.num),
    }
}

/// The order of two values that are given by their parts over positive denominators, which needn't
/// be in lowest terms. It is exact and never overflows: the parts are compared one by one, as
/// quotients, until two of them differ.
pub fn compare_parts(
    first: &[LexPart],
    first_den: i128,
    second: &[LexPart],
    second_den: i128,
) -> Ordering
    requires first { AreParts 0 first.now }
    requires second { AreParts 0 second.now }
    requires first_den { pos 0 <ℤ first_den }
    requires second_den { pos 0 <ℤ second_den }
    ensures { MatchOrdering result
        (IsLess (entry first.now) first_den (entry second.now) second_den)
        (IsSame (entry first.now) first_den (entry second.now) second_den)
        (IsLess (entry second.now) second_den (entry first.now) first_den) }
{
    match (first, second) {
        ([], []) => Ordering::Equal,
        ([], [head, ..]) => 0.cmp(&head.num),
        ([head, ..], []) => head.num.cmp(&0),
        ([head, rest @ ..], [other, others @ ..]) => {
            match compare_heads(head, first_den, other, second_den) {
                Ordering::Equal => compare_parts(rest, first_den, others, second_den),
                order => order,
            }
        }
    }
}
