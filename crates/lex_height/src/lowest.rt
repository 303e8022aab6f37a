ghost use Rattle.std.specs.Prelude.{◌≡◌, ◌*ℤ◌, ◌<ℤ◌, pos, length, ◌≤◌, unsigned_abs};
ghost use Rattle.wide_int.specs.Whole.{FitsWhole};
ghost use Rattle.lex_height.specs.declared.part.TheConstants.{PARTS};
ghost use Rattle.lex_height.specs.Values.{AreParts};
ghost use Rattle.lex_height.specs.Divisors.{AreQuotients, DividesEach, IsCommonGcd};

use crate::part::LexPart;
use crate::parts::Parts;
use wide_int::{exact_quotient, gcd};

// The greatest common divisor of all numbers and the denominator.
pub(crate) fn common_divisor(parts: &[LexPart], den: i128) -> i128
    requires parts { AreParts 0 parts.now }
    requires positive { pos 0 <ℤ den }
    requires fits { FitsWhole den }
    ensures gcd { IsCommonGcd parts.now den result }
    ensures positive { pos 0 <ℤ result }
{
    let mut divisor = den;
    for part in parts {
        divisor = gcd(divisor, part.num);
    }
    divisor
}

// Each number divided by a divisor of all.
pub(crate) fn quotients(parts: &[LexPart], divisor: i128) -> Parts
    requires room { length parts.now ≤ PARTS }
    requires parts { AreParts 0 parts.now }
    requires positive { pos 0 <ℤ divisor }
    requires divides { DividesEach (unsigned_abs divisor) parts.now }
    ensures { AreQuotients divisor result parts.now }
{
    let mut all = Parts::new();
    for part in parts {
        all.push(LexPart {
            rank: part.rank,
            num: exact_quotient(part.num, divisor),
        });
    }
    all
}
