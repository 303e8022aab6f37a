// What the words ask for, from the matches.
ghost use Rattle.std.specs.Prelude.{◌≡◌, option_and_then, option_map};
ghost use Rattle.clap.specs.Simple.{subcommand_rows_of};
ghost use Rattle.clap.specs.Walk.{first_of, rows_of};
ghost use Rattle.clap.specs.Matches.{found_of};
ghost use Rattle.mixedcells.specs.Words as spec;
ghost use Rattle.mixedcells.specs.Words.{meaning_found, meaning_read};
ghost use Rattle.mixedcells.specs.Reading.{read, read_row};
ghost use Rattle.mixedcells.specs.declared.words.meaning.Meaning.TheVariants as meaning;

use crate::words::families::{cyclic_named, scatter_named};
use crate::words::meaning::{Family, Meaning};
use crate::words::numbers::{searchers_in, seed_in};
use clap::ArgMatches;

/// What the words that were read ask for.
pub fn meaning_in(found: &ArgMatches) -> Option<Meaning>
    ensures { result ≡ meaning_found (read (subcommand_rows_of found.now)) }
{
    let (name, matches) = found.subcommand()?;
    meaning_below(name, matches)
}

// What a command asks for by the values that were read behind it.
fn meaning_below(name: &str, matches: &ArgMatches) -> Option<Meaning>
    ensures { result ≡ meaning_read (read_row name.now (rows_of (found_of matches.now))) }
{
    match name {
        "plain" => Some(Meaning::Plain),
        "check" => Some(Meaning::Check),
        "powers" => Some(Meaning::Powers),
        "generic" => Some(Meaning::Generic),
        "move" => Some(Meaning::Move),
        "trace" => Some(Meaning::Trace),
        "verify" => Some(Meaning::Verify),
        "poly" => poly(seed_read(first_value(matches, "seed"))),
        "list" => list(searchers_read(first_value(matches, "searchers"))),
        "sum" => sum(searchers_read(first_value(matches, "searchers"))),
        _ => {
            let family = family_read(
                first_value(matches, "family"),
                first_value(matches, "n"),
                first_value(matches, "m"),
                first_value(matches, "side"),
            );
            make(family, seed_read(first_value(matches, "seed")))
        }
    }
}

// The first value of an argument.
fn first_value<'a>(matches: &ArgMatches<'a>, id: &str) -> Option<&'a str>
    ensures { option_map (λ s. s.now) result ≡ first_of id.now (rows_of (found_of matches.now)) }
{
    matches.get_str(id)
}

fn poly(seed: Option<u64>) -> Option<Meaning>
    ensures { result ≡ option_map meaning.Poly seed }
{
    Some(Meaning::Poly(seed?))
}

fn list(searchers: Option<u64>) -> Option<Meaning>
    ensures { result ≡ option_map meaning.List searchers }
{
    Some(Meaning::List(searchers?))
}

fn sum(searchers: Option<u64>) -> Option<Meaning>
    ensures { result ≡ option_map meaning.Sum searchers }
{
    Some(Meaning::Sum(searchers?))
}

fn make(family: Option<Family>, seed: Option<u64>) -> Option<Meaning>
    ensures { result ≡ option_and_then (λ f. option_map (meaning.Make f) seed) family }
{
    Some(Meaning::Make(family?, seed?))
}

// How many searchers, 1 where no value is given.
fn searchers_read(value: Option<&str>) -> Option<u64>
    ensures { result ≡ spec.searchers_read (option_map (λ s. s.now) value.entry) }
{
    match value {
        Some(value) => searchers_in(value),
        None => Some(1),
    }
}

// The seed, 1 where no value is given.
fn seed_read(value: Option<&str>) -> Option<u64>
    ensures { result ≡ spec.seed_read (option_map (λ s. s.now) value.entry) }
{
    match value {
        Some(value) => seed_in(value),
        None => Some(1),
    }
}

// The family that the values name.
fn family_read(
    family: Option<&str>,
    n: Option<&str>,
    m: Option<&str>,
    side: Option<&str>,
) -> Option<Family>
    ensures { result ≡ spec.family_read (option_map (λ s. s.now) family.entry) (option_map (λ s. s.now) n.entry) (option_map (λ s. s.now) m.entry) (option_map (λ s. s.now) side.entry) }
{
    let family = family?;
    let n = n?;
    match (m, side) {
        (None, None) => cyclic_named(family, n),
        (Some(m), Some(side)) => scatter_named(family, n, m, side),
        _ => None,
    }
}
