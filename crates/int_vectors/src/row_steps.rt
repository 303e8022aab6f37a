ghost use Rattle.std.specs.Prelude.{◌≡◌, ◌<◌, ℤ, List, MatchBool, length};
ghost use Rattle.int_vectors.specs.Bounds.{Within};
ghost use Rattle.int_vectors.specs.Fits.{AllFit};
ghost use Rattle.int_vectors.specs.RowSteps as steps;
ghost use Rattle.int_vectors.specs.RowSteps.{eliminated, FitsEliminated, cleaned, FitsCleaned};

use crate::bounds::{greatest, take_off_behind};
use crate::contents::make_primitive;
use wide_int::checked_mul_sub;

// Puts -x in the place of each entry x.
pub(crate) fn negate_all(entries: &mut [i128])
    requires { AllFit entries.old }
    ensures value { entries.new ≡ steps.negated entries.old }
    ensures fits { AllFit entries.new }
{
    for x in entries.iter_mut() {
        *x = -*x;
    }
}

// Puts `pivot * x - factor * y` in each place, and tells whether each number fits.
pub(crate) fn take_off(entries: &mut [i128], pivot: i128, factor: i128, by: &[i128]) -> bool
    requires lengths { length entries.old ≡ length by.now }
    requires fits { AllFit entries.old }
    ensures value { MatchBool result
        (FitsEliminated pivot factor entries.old by.now × entries.new ≡ eliminated pivot factor entries.old by.now)
        (¬ (FitsEliminated pivot factor entries.old by.now)) }
    ensures fits { AllFit entries.new }
{
    for i in 0..entries.len() {
        match checked_mul_sub(pivot, entries[i], factor, by[i]) {
            Some(entry) => entries[i] = entry,
            None => return false,
        }
    }
    true
}

// Clears the entry `k` by the row `by`, whose absolute values `most` bounds, and tells whether each
// number fits.
pub(crate) fn clean_entries(entries: &mut [i128], by: &[i128], k: usize, most: u128) -> bool
    requires place { k < length by.now }
    requires lengths { length entries.old ≡ length by.now }
    requires fits { AllFit entries.old }
    requires within { Within most by.now }
    ensures value { MatchBool result (FitsCleaned k by.now entries.old × entries.new ≡ cleaned k by.now entries.old) (¬ (FitsCleaned k by.now entries.old)) }
    ensures fits { AllFit entries.new }
{
    let factor = entries[k];
    if factor == 0 {
        return true;
    }
    let own = greatest(entries);
    if !take_off_behind(entries, own, by[k], factor, by, most) {
        return false;
    }
    make_primitive(entries);
    true
}
