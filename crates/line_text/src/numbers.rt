// Numbers, read and written.
ghost use Rattle.std.specs.Prelude.{◌≡◌, ◌++◌, ◌∷◌, ◌+◌, ◌↔◌, ◌≤ℤ◌, ℕ, List, length, false, OnOk, OnErr, IfOk, IsTrue, All, SomeIff, FitsSigned};
ghost use Rattle.std.specs.Char.{is_ascii_digit};
ghost use Rattle.std.specs.Int.{w128};
ghost use Rattle.std.specs.List.{list_all};
ghost use Rattle.std.specs.Str.Parse.{without_leading_sign};
ghost use Rattle.std.specs.Fmt.{signed_decimal};
ghost use Rattle.line_text.specs.Tokens.{goes_on, tokens, token};
ghost use Rattle.line_text.specs.Numbers as spec;
ghost use Rattle.line_text.specs.Numbers.{value_of, number_in, IsNumberByte};

use crate::tokens::Token;
use itoa::Buffer;
use wide_int::OutOfMemory;

/// Why a token isn't the number that is asked for.
#[derive(Clone, Copy, Debug, PartialEq, Eq)]
pub enum BadNumber {
    /// It isn't an optional sign and one or more digits.
    Spelling,
    /// Its value is out of the range.
    Outside,
}

/// Reads a number from `min` to `max`, written with any count of digits and leading zeros; `min` is at most `max`.
/// `Spelling` where the token isn't spelled as a number, else `Outside` where its value isn't in the range.
pub fn read_int(token: &Token, min: i128, max: i128) -> Result<i128, BadNumber>
    requires { min ≤ℤ max }
    ensures spelling { (result ≡ Err BadNumber.Spelling) ↔ ¬ (IsTrue (spec.is_number token.now.text.now)) }
    ensures outside { (result ≡ Err BadNumber.Outside) ↔ (IsTrue (spec.is_number token.now.text.now)
        × ¬ ((min ≤ℤ value_of token.now.text.now) × (value_of token.now.text.now ≤ℤ max))) }
    ensures value { IfOk result (λ v. (v ≡ value_of token.now.text.now) × (min ≤ℤ v) × (v ≤ℤ max)) }

    // The same as one equation.
    ensures answer { result ≡ number_in min max token.now.text.now }
{
    number_within(token.text, min, max)
}

fn number_within(text: &[u8], min: i128, max: i128) -> Result<i128, BadNumber>
    ensures { result ≡ number_in min max text.now }
{
    let Some(value) = number_value(text) else {
        if is_number(text) {
            return Err(BadNumber::Outside);
        }
        return Err(BadNumber::Spelling);
    };
    if min <= value && value <= max {
        return Ok(value);
    }
    Err(BadNumber::Outside)
}

// The value of a number of up to 128 bits.
fn number_value(text: &[u8]) -> Option<i128>
    ensures { SomeIff result (IsTrue (spec.is_number text.now) × FitsSigned w128 (value_of text.now)) (value_of text.now) }
{
    let Ok(text) = str::from_utf8(text) else {
        return None;
    };
    text.parse().ok()
}

// Whether the text is an optional sign and one or more digits.
fn is_number(text: &[u8]) -> bool
    ensures { result ≡ spec.is_number text.now }
{
    let digits = unsigned_part(text);
    !digits.is_empty() && all_digits(digits)
}

fn unsigned_part(text: &[u8]) -> &[u8]
    ensures { result.now ≡ without_leading_sign text.now }
{
    match text {
        [b'-' | b'+', digits @ ..] => digits,
        _ => text,
    }
}

fn all_digits(digits: &[u8]) -> bool
    ensures { result ≡ list_all is_ascii_digit digits.now }
{
    digits.iter().all(|b| b.is_ascii_digit())
}

/// Appends the decimal text of `value`: a `-` where it is negative, no `+`, no leading zeros. A refusal leaves
/// `out` as it was.
pub fn write_int(out: &mut Vec<u8>, value: i128) -> Result<(), OutOfMemory>
    ensures ok { OnOk result (out.new.items ≡ out.old.items ++ signed_decimal value) }
    ensures err { OnErr result (out.new.items ≡ out.old.items) }
{
    let mut buffer = Buffer::new();
    let text = buffer.format(value).as_bytes();
    out.extend_from_slice(text).map_err(|_| OutOfMemory)
}

/// What `write_int` writes reads back: it is spelled as a number and has the value that was written. It has no other
/// bytes than digits and a sign, and before a blank, a mark or the end it is one token.
pub fn written_number_reads_back(value: i128)
    ensures spelled { IsTrue (spec.is_number (signed_decimal value)) }
    ensures value { value_of (signed_decimal value) ≡ value }
    ensures bytes { All IsNumberByte (signed_decimal value) }
    ensures token { (place : ℕ) (rest : List ℕ) → goes_on rest ≡ false
        → tokens place (signed_decimal value ++ rest) ≡ token place (signed_decimal value) ∷ tokens (place + length (signed_decimal value)) rest }
{}
