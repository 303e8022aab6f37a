// The command line, read by `clap`.
ghost use Rattle.std.specs.Prelude.{◌≡◌, map, string_bytes, IfOk, Some, false};
ghost use Rattle.clap.specs.Simple.{app_of, subcommand_rows_of};
ghost use Rattle.clap.specs.Walk.{rule_of};
ghost use Rattle.clap.specs.declared.builder.command.Command.TheViews.{out-Command};
ghost use Rattle.mixedcells.specs.CommandLine as spec;
ghost use Rattle.mixedcells.specs.Words.{meaning_of, meaning_found};
ghost use Rattle.mixedcells.specs.Reading.{read};
ghost use Rattle.mixedcells.specs.declared.words.meaning.Meaning.{Meaning};

use clap::error::ErrorKind;
use clap::{Arg, ArgMatches, Command};
use std::alloc::{AllocError, Global};

// The number of searchers, as an option.
fn searching_command<'a>(alloc: Global, name: &'a str) -> Result<Command<'a>, AllocError>
    ensures app { IfOk result (λ c. app_of c ≡ spec.searching_app name.now) }
    ensures local { IfOk result (λ c. (out-Command c).has_globals ≡ false) }
{
    Command::new(alloc, name).arg(Arg::new(alloc, "searchers").long("searchers"))
}

// `make` with the family and its first number.
fn family_command<'a>(alloc: Global) -> Result<Command<'a>, AllocError>
    ensures app { IfOk result (λ c. app_of c ≡ spec.family_app) }
    ensures local { IfOk result (λ c. (out-Command c).has_globals ≡ false) }
{
    Command::new(alloc, "make")
        .arg(Arg::new(alloc, "family").required(true))?
        .arg(Arg::new(alloc, "n").required(true))
}

// `make` with the numbers of scattered points.
fn points_command<'a>(alloc: Global) -> Result<Command<'a>, AllocError>
    ensures app { IfOk result (λ c. app_of c ≡ spec.points_app) }
    ensures local { IfOk result (λ c. (out-Command c).has_globals ≡ false) }
{
    family_command(alloc)?
        .arg(Arg::new(alloc, "m"))?
        .arg(Arg::new(alloc, "side"))
}

// `make` with the seed as an option.
fn make_command<'a>(alloc: Global) -> Result<Command<'a>, AllocError>
    ensures app { IfOk result (λ c. app_of c ≡ spec.making_app) }
    ensures local { IfOk result (λ c. (out-Command c).has_globals ≡ false) }
{
    points_command(alloc)?.arg(Arg::new(alloc, "seed").long("seed"))
}

// `make`, and the command without a word of its own before it.
fn making_line<'a>(alloc: Global) -> Result<Command<'a>, AllocError>
    ensures app { IfOk result (λ c. app_of c ≡ spec.making_line) }
{
    let make = make_command(alloc)?;
    Command::new(alloc, "mixedcells")
        .no_binary_name(true)
        .subcommand(make)
}

// The same and the commands that have no further word.
fn plain_line<'a>(alloc: Global) -> Result<Command<'a>, AllocError>
    ensures app { IfOk result (λ c. app_of c ≡ spec.plain_line) }
{
    making_line(alloc)?
        .subcommand(Command::new(alloc, "plain"))?
        .subcommand(Command::new(alloc, "check"))
}

// The same and `powers`.
fn powers_line<'a>(alloc: Global) -> Result<Command<'a>, AllocError>
    ensures app { IfOk result (λ c. app_of c ≡ spec.powers_line) }
{
    plain_line(alloc)?.subcommand(Command::new(alloc, "powers"))
}

// The same and `generic`.
fn generic_line<'a>(alloc: Global) -> Result<Command<'a>, AllocError>
    ensures app { IfOk result (λ c. app_of c ≡ spec.generic_line) }
{
    powers_line(alloc)?.subcommand(Command::new(alloc, "generic"))
}

// The same and `move`.
fn moving_line<'a>(alloc: Global) -> Result<Command<'a>, AllocError>
    ensures app { IfOk result (λ c. app_of c ≡ spec.moving_line) }
{
    generic_line(alloc)?.subcommand(Command::new(alloc, "move"))
}

// The same, `trace` and `verify`.
fn logging_line<'a>(alloc: Global) -> Result<Command<'a>, AllocError>
    ensures app { IfOk result (λ c. app_of c ≡ spec.logging_line) }
{
    moving_line(alloc)?
        .subcommand(Command::new(alloc, "trace"))?
        .subcommand(Command::new(alloc, "verify"))
}

// `poly` with the seed as an option.
fn system_command<'a>(alloc: Global) -> Result<Command<'a>, AllocError>
    ensures app { IfOk result (λ c. app_of c ≡ spec.system_app) }
    ensures local { IfOk result (λ c. (out-Command c).has_globals ≡ false) }
{
    Command::new(alloc, "poly").arg(Arg::new(alloc, "seed").long("seed"))
}

// The same and `poly`.
fn system_line<'a>(alloc: Global) -> Result<Command<'a>, AllocError>
    ensures app { IfOk result (λ c. app_of c ≡ spec.system_line) }
{
    let poly = system_command(alloc)?;
    logging_line(alloc)?.subcommand(poly)
}

// The whole command line.
fn command_line<'a>(alloc: Global) -> Result<Command<'a>, AllocError>
    ensures app { IfOk result (λ c. app_of c ≡ spec.top) }
{
    let list = searching_command(alloc, "list")?;
    let sum = searching_command(alloc, "sum")?;
    system_line(alloc)?.subcommand(list)?.subcommand(sum)
}

/// Reads words that have a meaning. Want of memory is the one refusal.
pub fn parse<'a>(alloc: Global, words: &'a [String]) -> Result<ArgMatches<'a>, AllocError>
    requires { (m : Meaning) × (meaning_of (map string_bytes words.now) ≡ Some m) }
    ensures { IfOk result (λ found. meaning_found (read (subcommand_rows_of found)) ≡ meaning_of (map string_bytes words.now)) }
{
    let command = command_line(alloc)?;
    match command.try_get_matches_from(words) {
        Ok(found) => Ok(found),
        Err(error) => match error.kind() {
            ErrorKind::OutOfMemory => Err(AllocError),
            _ => unreachable!(),
        },
    }
}
