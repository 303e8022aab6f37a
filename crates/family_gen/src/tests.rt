// Files that are given, and their limits.
use crate::{cyclic, scatter};
use cayley::LiftFile;
use std::alloc::Global;
use wide_int::OutOfMemory;

// The coordinates and the height of each point; -1 behind each support.
fn numbers_of(alloc: Global, file: &LiftFile) -> Option<Vec<i128>> {
    let mut all = Vec::new(alloc);
    for support in file.supports() {
        for point in support {
            if all.extend_from_slice(point.coords.as_slice()).is_err() {
                return None;
            }
            if let Err(_) = all.push(i128::from(point.height)) {
                return None;
            }
        }
        if let Err(_) = all.push(-1) {
            return None;
        }
    }
    Some(all)
}

fn has_numbers(alloc: Global, made: Result<LiftFile, OutOfMemory>, want: &[i128]) -> bool {
    let Ok(file) = made else {
        return false;
    };
    let Some(found) = numbers_of(alloc, &file) else {
        return false;
    };
    found.as_slice() == want
}

#[test]
fn one_scattered_point(rt: HostRuntime) {
    assert!(rt;
        has_numbers(
            rt.alloc(),
            scatter(rt.alloc(), 1, 1, 0, 1),
            &[0, 7_100_271, -1]
        )
    );
}

#[test]
fn cyclic_five(rt: HostRuntime) {
    let want = [
        1, 0, 0, 0, 0, 7_100_271, 0, 1, 0, 0, 0, 8_546_438, 0, 0, 1, 0, 0, 10_877_665, 0, 0, 0, 1,
        0, 6_423_381, 0, 0, 0, 0, 1, 13_345_398, -1, 1, 1, 0, 0, 0, 8_397_185, 0, 1, 1, 0, 0,
        9_293_493, 0, 0, 1, 1, 0, 1_097_553, 0, 0, 0, 1, 1, 14_088_266, 1, 0, 0, 0, 1, 3_329_271,
        -1, 1, 1, 1, 0, 0, 12_511_875, 0, 1, 1, 1, 0, 8_988_521, 0, 0, 1, 1, 1, 13_148_026, 1, 0,
        0, 1, 1, 5_319_206, 1, 1, 0, 0, 1, 4_086_617, -1, 1, 1, 1, 1, 0, 12_581_600, 0, 1, 1, 1, 1,
        7_122_538, 1, 0, 1, 1, 1, 9_598_988, 1, 1, 0, 1, 1, 10_446_041, 1, 1, 1, 0, 1, 3_409_604,
        -1, 1, 1, 1, 1, 1, 14_527_090, 0, 0, 0, 0, 0, 16_435_323, -1,
    ];
    assert!(rt; has_numbers(rt.alloc(), cyclic(rt.alloc(), 5, 1), &want));
}

// Of the second support the points 1, 1 and 1, 0 are drawn where 1, 0 and 0, 0 are taken.
#[test]
fn whole_squares(rt: HostRuntime) {
    let want = [
        1, 0, 7_100_271, 0, 1, 6_423_381, 1, 1, 9_293_493, 0, 0, 3_329_271, -1, 0, 0, 13_148_026,
        0, 1, 12_581_600, 1, 1, 10_446_041, 1, 0, 16_435_323, -1,
    ];
    assert!(rt; has_numbers(rt.alloc(), scatter(rt.alloc(), 2, 4, 1, 1), &want));
}

// The sum of all coordinates and heights of a file, less one for each support.
fn sum_of(alloc: Global, made: Result<LiftFile, OutOfMemory>) -> Option<i128> {
    let Ok(file) = made else {
        return None;
    };
    let all = numbers_of(alloc, &file)?;
    let mut sum: i128 = 0;
    for z in &all {
        sum = sum.checked_add(*z)?;
    }
    Some(sum)
}

#[test]
fn sums_of_scattered_points(rt: HostRuntime) {
    assert_eq!(rt;
        sum_of(rt.alloc(), scatter(rt.alloc(), 2, 40, 100, 1)),
        Some(627_590_731 - 2)
    );
    assert_eq!(rt;
        sum_of(rt.alloc(), scatter(rt.alloc(), 2, 500, 1_000, 1)),
        Some(8_408_141_084 - 2)
    );
    assert_eq!(rt;
        sum_of(rt.alloc(), scatter(rt.alloc(), 5, 20, 30, 1)),
        Some(802_246_199 - 5)
    );
    assert!(rt; sum_of(rt.alloc(), scatter(rt.alloc(), 16, 1_000, 1_000_000, 1)).is_some());
}
