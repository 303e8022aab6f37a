// Numbers and options in words.
ghost use Rattle.std.specs.Prelude.{◌≡◌, ◌^◌, ◌<◌, ◌≤◌, IfSome, SomeIff, IsTrue, option_map};
ghost use Rattle.std.specs.Char.{is_ascii_digit};
ghost use Rattle.std.specs.List.{list_all};
ghost use Rattle.std.specs.Str.Parse.{digits_value};
ghost use Rattle.mixedcells.specs.Words as spec;

// Whether the word is 1 to 20 digits.
fn is_number(word: &str) -> bool
    ensures { result ≡ spec.is_number word.now }
{
    let bytes = word.as_bytes();
    1 <= bytes.len() && (bytes.len() <= 20 && all_digits(bytes))
}

fn all_digits(bytes: &[u8]) -> bool
    ensures { result ≡ list_all is_ascii_digit bytes.now }
{
    bytes.iter().all(|b| b.is_ascii_digit())
}

// The value of a number, unless it needs more than 64 bits.
fn value_of(word: &str) -> Option<u64>
    requires { IsTrue (spec.is_number word.now) }
    ensures { SomeIff result (digits_value 10 word.now < 2 ^ 64) (digits_value 10 word.now) }
{
    word.parse().ok()
}

/// The number from `low` to `high` that a word is: 1 to 20 digits without a sign.
pub fn number(low: u64, high: u64, word: &str) -> Option<u64>
    ensures value { result ≡ spec.number low high word.now }
    ensures range { IfSome result (λ n. (low ≤ n) × (n ≤ high)) }
{
    if !is_number(word) {
        return None;
    }
    let value = value_of(word)?;
    if low <= value && value <= high {
        Some(value)
    } else {
        None
    }
}

/// What follows the prefix in a word that begins with it.
pub fn after<'a>(prefix: &str, word: &'a str) -> Option<&'a str>
    ensures { option_map (λ s. s.now) result ≡ spec.after prefix.now word.now }
{
    word.strip_prefix(prefix)
}

/// How many searchers a value names.
pub fn searchers_in(word: &str) -> Option<u64>
    ensures { result ≡ spec.searchers_in word.now }
{
    number(1, 64, word)
}

/// The seed that a value names.
pub fn seed_in(word: &str) -> Option<u64>
    ensures { result ≡ spec.seed_in word.now }
{
    number(0, 18446744073709551615, word)
}
