// The families that positional words name.
ghost use Rattle.std.specs.Prelude.{◌≡◌, ◌+◌, ◌^◌, ◌≤◌, nat_le};
ghost use Rattle.mixedcells.specs.Words as spec;

use crate::words::meaning::Family;
use crate::words::numbers::number;

// The cyclic family that a word names.
fn cyclic(n: &str) -> Option<Family>
    ensures { result ≡ spec.cyclic n.now }
{
    Some(Family::Cyclic(number(2, 16, n)?))
}

// Whether `m` points have room in dimension `n` with coordinates from 0 to `side`.
fn has_room(n: u64, m: u64, side: u64) -> bool
    requires dimension { n ≤ 16 }
    requires count { m ≤ 1000 }
    requires limit { side ≤ 1000000 }
    ensures { result ≡ nat_le m ((side + 1) ^ n) }
{
    m <= (side + 1).saturating_pow(n as u32)
}

fn scatter_of(n: u64, m: u64, side: u64) -> Option<Family>
    requires dimension { n ≤ 16 }
    requires count { m ≤ 1000 }
    requires limit { side ≤ 1000000 }
    ensures { result ≡ spec.scatter_of n m side }
{
    if has_room(n, m, side) {
        Some(Family::Scatter(n, m, side))
    } else {
        None
    }
}

// The family of scattered points that three words name.
fn scatter(n: &str, m: &str, side: &str) -> Option<Family>
    ensures { result ≡ spec.scatter n.now m.now side.now }
{
    let n = number(1, 16, n)?;
    let m = number(1, 1000, m)?;
    let side = number(0, 1000000, side)?;
    scatter_of(n, m, side)
}

/// The cyclic family that two words name.
pub fn cyclic_named(name: &str, n: &str) -> Option<Family>
    ensures { result ≡ spec.cyclic_named name.now n.now }
{
    if name == "cyclic" { cyclic(n) } else { None }
}

/// The family of scattered points that four words name.
pub fn scatter_named(name: &str, n: &str, m: &str, side: &str) -> Option<Family>
    ensures { result ≡ spec.scatter_named name.now n.now m.now side.now }
{
    if name == "scatter" {
        scatter(n, m, side)
    } else {
        None
    }
}
