// What a list of words asks for, decided without memory.
ghost use Rattle.std.specs.Prelude.{◌≡◌, ◌++◌, ◌+◌, ◌<◌, ◌≤◌, length, map, drop, string_bytes, option_map};
ghost use Rattle.mixedcells.specs.Words as spec;
ghost use Rattle.mixedcells.specs.Words.{word_at, meaning_of};
ghost use Rattle.mixedcells.specs.declared.words.meaning.Meaning.TheVariants as meaning;

use crate::words::families::{cyclic_named, scatter_named};
use crate::words::meaning::{Family, Meaning};
use crate::words::numbers::{after, searchers_in, seed_in};

/// What the words ask for, if they follow the rules.
pub fn meaning(words: &[String]) -> Option<Meaning>
    ensures { result ≡ meaning_of (map string_bytes words.now) }
{
    let [first, rest @ ..] = words else {
        return None;
    };
    match first.as_str() {
        "plain" => alone(Meaning::Plain, rest),
        "check" => alone(Meaning::Check, rest),
        "powers" => alone(Meaning::Powers, rest),
        "generic" => alone(Meaning::Generic, rest),
        "move" => alone(Meaning::Move, rest),
        "trace" => alone(Meaning::Trace, rest),
        "verify" => alone(Meaning::Verify, rest),
        "poly" => Some(Meaning::Poly(system_seed(rest)?)),
        "list" => Some(Meaning::List(searchers(rest)?)),
        "sum" => Some(Meaning::Sum(searchers(rest)?)),
        "make" => made(rest),
        _ => None,
    }
}

// A command that has no further word.
fn alone(meaning: Meaning, rest: &[String]) -> Option<Meaning>
    ensures { result ≡ spec.alone meaning (map string_bytes rest.now) }
{
    if rest.is_empty() { Some(meaning) } else { None }
}

// How many searchers the words after `list` or `sum` ask for.
fn searchers(words: &[String]) -> Option<u64>
    ensures { result ≡ spec.searchers (map string_bytes words.now) }
{
    match words {
        [] => Some(1),
        [joined] => searchers_in(after("--searchers=", joined.as_str())?),
        [name, value] => {
            if name.as_str() == "--searchers" {
                searchers_in(value.as_str())
            } else {
                None
            }
        }
        _ => None,
    }
}

// The seed that the words after `poly` ask for.
fn system_seed(words: &[String]) -> Option<u64>
    ensures { result ≡ spec.system_seed (map string_bytes words.now) }
{
    match words {
        [] => Some(1),
        [joined] => seed_in(after("--seed=", joined.as_str())?),
        [name, value] => {
            if name.as_str() == "--seed" {
                seed_in(value.as_str())
            } else {
                None
            }
        }
        _ => None,
    }
}

// What the words after `make` ask for.
fn made(words: &[String]) -> Option<Meaning>
    ensures { result ≡ spec.made (map string_bytes words.now) }
{
    let (front, back) = words.split_at(seed_place(words));
    let [option, rest @ ..] = back else {
        return make(family(front, back)?, 1);
    };
    if option.as_str() == "--seed" {
        let [value, rest @ ..] = rest else {
            return None;
        };
        return make(family(front, rest)?, seed_in(value.as_str())?);
    }
    let value = after("--seed=", option.as_str())?;
    make(family(front, rest)?, seed_in(value)?)
}

fn make(family: Family, seed: u64) -> Option<Meaning>
    ensures { result ≡ option_map (meaning.Make family) (Some seed) }
{
    Some(Meaning::Make(family, seed))
}

// How many words stand before the option, or how many there are without it.
fn seed_place(words: &[String]) -> usize
    ensures place { result ≡ spec.seed_place (map string_bytes words.now) }
    ensures within { result ≤ length words.now }
{
    let mut place = 0;
    while place < words.len() && !is_seed_at(words, place) {
        place += 1;
    }
    place
}

fn is_seed_at(words: &[String], place: usize) -> bool
    requires { place < length words.now }
    ensures { result ≡ spec.is_seed (word_at (map string_bytes words.now) place) }
{
    is_seed(words[place].as_str())
}

// Whether a word is the option, or the option joined with its value.
fn is_seed(word: &str) -> bool
    ensures { result ≡ spec.is_seed word.now }
{
    word == "--seed" || after("--seed=", word).is_some()
}

// The family that the positional words name, which are those before the option and those behind it.
fn family(front: &[String], rest: &[String]) -> Option<Family>
    ensures { result ≡ spec.family_of (map string_bytes front.now ++ map string_bytes rest.now) }
{
    match front.len() + rest.len() {
        2 => cyclic_named(word(front, rest, 0), word(front, rest, 1)),
        4 => scatter_named(
            word(front, rest, 0),
            word(front, rest, 1),
            word(front, rest, 2),
            word(front, rest, 3),
        ),
        _ => None,
    }
}

// A word of two lists, the one behind the other.
fn word<'a>(front: &'a [String], rest: &'a [String], place: usize) -> &'a str
    requires { place < length front.now + length rest.now }
    ensures { result.now ≡ word_at (map string_bytes front.now ++ map string_bytes rest.now) place }
{
    if place < front.len() {
        front[place].as_str()
    } else {
        rest[place - front.len()].as_str()
    }
}
