//! Vectors of whole numbers, each of which fits.
#![tactic(auto)]

mod between;
mod bounds;
mod contents;
mod faults;
mod narrow;
mod row_steps;
mod sums;
mod vector;

pub use between::{dot_between, dot_between_unchecked};
pub use bounds::{dot_behind, dot_unchecked, greatest, row_fits, row_size, sum_fits};
pub use faults::{IntVecFault, SubFault};
pub use narrow::{narrow_copy, narrow_dots_between};
pub use sums::dot_from;
pub use vector::{IntVec, dot};

#[cfg(test)]
mod tests {
    use super::*;
    use std::test::Fail;

    const GREATEST: i128 = i128::MAX;

    #[test]
    fn a_vector_less_another(rt: HostRuntime) -> Result<(), Fail> {
        let given = IntVec::from_slice(rt.alloc(), &[4, -6])?;
        let copy = given.copy(rt.alloc())?;
        let ones = IntVec::from_slice(rt.alloc(), &[1, 1])?;
        assert!(rt; copy.len() == 2 && ones.len() == 2);
        let less = copy.sub(rt.alloc(), &ones)?;
        assert_eq!(rt; less.as_slice(), [3, -7].as_slice());
        assert!(rt; !less.is_zero());
        Ok(())
    }

    #[test]
    fn numbers_that_do_not_fit(rt: HostRuntime) -> Result<(), Fail> {
        let unfit = IntVec::from_slice(rt.alloc(), &[0, i128::MIN]);
        assert!(rt; matches!(unfit, Err(IntVecFault::Unfit)));
        let most = IntVec::from_slice(rt.alloc(), &[GREATEST, 1])?;
        let least = IntVec::from_slice(rt.alloc(), &[-1, 0])?;
        assert!(rt; most.len() == 2 && least.len() == 2);
        assert!(rt; matches!(most.sub(rt.alloc(), &least), Err(SubFault::Overflow)));
        assert_eq!(rt; dot(1, &most, &least).ok(), Some(1 - GREATEST));
        assert_eq!(rt; dot(-1, &most, &least).ok(), None);
        Ok(())
    }

    #[test]
    fn divisors_and_signs(rt: HostRuntime) -> Result<(), Fail> {
        let mut v = IntVec::from_slice(rt.alloc(), &[4, -6, 0])?;
        assert_eq!(rt; v.content(), 2);
        v.primitive();
        assert_eq!(rt; v.as_slice(), [2, -3, 0].as_slice());
        v.negate();
        assert_eq!(rt; v.as_slice(), [-2, 3, 0].as_slice());
        let mut zero = IntVec::from_slice(rt.alloc(), &[0, 0])?;
        zero.primitive();
        assert!(rt; zero.is_zero());
        Ok(())
    }

    #[test]
    fn sums_behind_a_bound(rt: HostRuntime) {
        assert_eq!(rt; dot_behind(10, &[1, -2, 3], &[4, 5, -6], 6), Some(-14));
        assert_eq!(rt; dot_behind(0, &[1 << 126], &[4], 4), None);
        assert_eq!(rt; dot_behind(-1, &[1], &[4], u128::MAX), Some(3));
        assert_eq!(rt;
            (greatest(&[3, -7, 0]), row_size(&[3, -7, 0])),
            (7, Some(10))
        );
        assert!(rt; sum_fits(1, 2, (1 << 126) - 1) && !sum_fits(1, 2, 1 << 126));
    }
}
