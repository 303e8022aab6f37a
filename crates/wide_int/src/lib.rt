//! Whole numbers of 128 bits that never wrap, and fractions of them.
#![tactic(auto)]

mod checked;
mod divisors;
mod euclid;
mod fraction;

pub use checked::{checked_mul_sub, difference, product, sum};
pub use divisors::{exact_quotient, gcd, lcm, quotient, short_gcd};
pub use euclid::compare;
pub use fraction::{Frac, one_form, ordered};

/// There was no memory for what was asked.
#[derive(Clone, Copy, Debug, PartialEq, Eq)]
pub struct OutOfMemory;

/// A number doesn't fit: its absolute value is above 2^127 - 1.
#[derive(Clone, Copy, Debug, PartialEq, Eq)]
pub struct Overflow;

#[cfg(test)]
mod tests {
    use super::*;
    use std::cmp::Ordering;

    const GREATEST: i128 = i128::MAX;

    #[test]
    fn steps_fit_or_are_refused(rt: HostRuntime) {
        let two_to_62 = 1_i128 << 62;
        let two_to_126 = 1_i128 << 126;
        for (a, b, c, d, want) in [
            (1_i128 << 64, 1_i128 << 63, 0, 0, None),
            (1_i128 << 64, two_to_62, 1, 1, Some(two_to_126 - 1)),
            (GREATEST, 1, 0, 0, Some(GREATEST)),
            (-GREATEST, 1, 1, 1, None),
            (0, 0, two_to_126, 2, None),
        ] {
            assert_eq!(rt; checked_mul_sub(a, b, c, d), want, "{a} {b} {c} {d}");
        }
        assert_eq!(rt; product(-GREATEST, -1), Some(GREATEST));
        assert_eq!(rt; sum(GREATEST, 1), None);
        assert_eq!(rt; difference(3, 5), Some(-2));
    }

    #[test]
    fn divisors_and_multiples(rt: HostRuntime) {
        assert_eq!(rt; gcd(12, -18), 6);
        assert_eq!(rt; gcd(0, -7), 7);
        assert_eq!(rt; gcd(0, 0), 0);
        assert_eq!(rt; gcd(GREATEST, GREATEST), GREATEST);
        assert_eq!(rt; exact_quotient(-18, 6), -3);
        assert_eq!(rt; lcm(4, 6), Some(12));
        assert_eq!(rt; lcm(1 << 126, 3), None);
        assert_eq!(rt; lcm(GREATEST, 1), Some(GREATEST));
    }

    #[test]
    fn fractions_are_in_lowest_terms(rt: HostRuntime) {
        for (num, den, want) in [
            (6, -4, Some((-3, 2))),
            (0, -5, Some((0, 1))),
            (-GREATEST, GREATEST, Some((-1, 1))),
            (1, 0, None),
            (i128::MIN, 2, None),
        ] {
            let parts = Frac::lowest(num, den).map(|f| (f.num(), f.den()));
            assert_eq!(rt; parts, want, "{num} / {den}");
        }
    }

    #[test]
    fn fractions_past_all_products_are_ordered(rt: HostRuntime) {
        for (a, b, c, d, want) in [
            (
                GREATEST,
                GREATEST - 1,
                GREATEST - 1,
                GREATEST - 2,
                Ordering::Less,
            ),
            (
                -GREATEST,
                GREATEST - 1,
                1 - GREATEST,
                GREATEST - 2,
                Ordering::Greater,
            ),
            (1, 3, 2, 6, Ordering::Equal),
        ] {
            assert_eq!(rt; compare(a, b, c, d), want, "{a} / {b} and {c} / {d}");
            let pair = (Frac::lowest(a, b), Frac::lowest(c, d));
            let order = match &pair {
                (Some(first), Some(second)) => Some(first.cmp(second)),
                _ => None,
            };
            assert_eq!(rt; order, Some(want), "{a} / {b} and {c} / {d}");
        }
    }
}
