ghost use Rattle.std.specs.Prelude.{◌+ℤ◌, ◌-ℤ◌, ◌*ℤ◌, SomeIff};
ghost use Rattle.wide_int.specs.Whole.{FitsWhole, FitsMulSub};

// The value, unless it is -2^127.
fn fitting(value: i128) -> Option<i128>
    ensures { SomeIff result (FitsWhole value) value }
{
    if value == i128::MIN {
        None
    } else {
        Some(value)
    }
}

/// `a * b`, or `None` exactly where it doesn't fit.
pub fn product(a: i128, b: i128) -> Option<i128>
    ensures { SomeIff result (FitsWhole (a *ℤ b)) (a *ℤ b) }
{
    fitting(a.checked_mul(b)?)
}

/// `a - b`, or `None` exactly where it doesn't fit.
pub fn difference(a: i128, b: i128) -> Option<i128>
    ensures { SomeIff result (FitsWhole (a -ℤ b)) (a -ℤ b) }
{
    fitting(a.checked_sub(b)?)
}

/// `a + b`, or `None` exactly where it doesn't fit.
pub fn sum(a: i128, b: i128) -> Option<i128>
    ensures { SomeIff result (FitsWhole (a +ℤ b)) (a +ℤ b) }
{
    fitting(a.checked_add(b)?)
}

/// `a * b - c * d`, or `None` exactly where one of the two products or the difference doesn't fit.
pub fn checked_mul_sub(a: i128, b: i128, c: i128, d: i128) -> Option<i128>
    ensures { SomeIff result (FitsMulSub a b c d) (a *ℤ b -ℤ c *ℤ d) }
{
    let left = product(a, b)?;
    let right = product(c, d)?;
    difference(left, right)
}
