ghost use Rattle.std.specs.Prelude.{◌≡◌, List, IfSome, pos, ◌<ℤ◌, unsigned_abs};
ghost use Rattle.wide_int.specs.Whole.{FitsWhole};
ghost use Rattle.int_vectors.specs.Contents as contents;
ghost use Rattle.int_vectors.specs.Contents.{DividesEach};
ghost use Rattle.int_vectors.specs.Fits.{AllFit};
ghost use Rattle.int_vectors.specs.Vectors.{scale};

use wide_int::{gcd, quotient, short_gcd};

// The absolute value in 64 bits.
#[inline(always)]
fn short_size(x: i128) -> Option<u64>
    ensures { IfSome result (λ n. n ≡ unsigned_abs x) }
{
    u64::try_from(x.unsigned_abs()).ok()
}

// The greatest common divisor of entries in 64 bits.
fn short_content(entries: &[i128]) -> Option<u64>
    ensures { IfSome result (λ g. g ≡ contents.content entries.now) }
{
    let mut g = 0u64;
    for x in entries {
        g = short_gcd(short_size(*x)?, g);
        if g == 1 {
            return Some(1);
        }
    }
    Some(g)
}

// The greatest common divisor of the entries.
pub(crate) fn content(entries: &[i128]) -> i128
    requires { AllFit entries.now }
    ensures value { result ≡ pos (contents.content entries.now) }
    ensures fits { FitsWhole result }
{
    match short_content(entries) {
        Some(g) => g as i128,
        None => wide_content(entries),
    }
}

// The greatest common divisor of the entries, in 128 bits.
fn wide_content(entries: &[i128]) -> i128
    requires { AllFit entries.now }
    ensures value { result ≡ pos (contents.content entries.now) }
    ensures fits { FitsWhole result }
{
    let mut g = 0;
    for x in entries {
        g = gcd(g, *x);
        if g == 1 {
            return 1;
        }
    }
    g
}

// Divides each entry by `g`, exactly.
fn divide_all(entries: &mut [i128], g: i128)
    requires positive { pos 0 <ℤ g }
    requires exact { DividesEach (unsigned_abs g) entries.old }
    ensures { entries.old ≡ scale g entries.new }
{
    for x in entries.iter_mut() {
        *x = quotient(*x, g);
    }
}

// The same for entries that fit, and then the quotients fit.
pub(crate) fn divide_entries(entries: &mut [i128], g: i128)
    requires positive { pos 0 <ℤ g }
    requires exact { DividesEach (unsigned_abs g) entries.old }
    requires fits { AllFit entries.old }
    ensures value { entries.old ≡ scale g entries.new }
    ensures fits { AllFit entries.new }
{
    divide_all(entries, g);
}

// Divides by the gcd of the entries; zeros stay.
pub(crate) fn make_primitive(entries: &mut [i128])
    requires { AllFit entries.old }
    ensures value { entries.new ≡ contents.primitive entries.old }
    ensures divided { entries.old ≡ scale (pos (contents.content entries.old)) entries.new }
    ensures fits { AllFit entries.new }
{
    let g = content(entries);
    if g > 1 {
        divide_all(entries, g);
    }
}
