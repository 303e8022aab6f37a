// What the words after the program's name ask for.
ghost use Rattle.std.specs.Prelude.{◌≡◌, IfOk, MatchOption, option_and_then, map, string_bytes};
ghost use Rattle.mixedcells.specs.Words as spec;
ghost use Rattle.mixedcells.specs.Words.{Means, HasMeaning};
ghost use Rattle.mixedcells.specs.ByMany as by;

mod command_line;
mod families;
mod meaning;
mod numbers;
mod pass;
mod reading;

use crate::words::command_line::parse;
use crate::words::meaning::Meaning;
use crate::words::pass::meaning;
use crate::words::reading::meaning_in;
pub use meaning::Family;
use std::alloc::Global;
use wide_int::OutOfMemory;

/// What the words ask for.
#[derive(Clone, Copy, Debug, PartialEq, Eq)]
pub enum Command {
    /// `plain`: list the mixed cells of a problem file by trying every choice of pairs.
    Plain,
    /// `list`: list the mixed cells of a problem file along its path, by this many searchers.
    List(u64),
    /// `sum`: count them and the cells of the path tree, by this many searchers.
    Sum(u64),
    /// `check`: judge the cell lines of a listing, without trust in whoever wrote it.
    Check,
    /// `generic`: tell whether the path of a problem file has a tie.
    Generic,
    /// `move`: carry a listing to a second lift of the same points, along the straight path between the two.
    Move,
    /// `trace`: write the log of the path tree of a problem file.
    Trace,
    /// `verify`: judge a log, without trust in whoever wrote it and without an elimination.
    Verify,
    /// `powers`: write the powers of each cell of a listing that is judged right.
    Powers,
    /// `poly`: write the problem file of a system of polynomials with the heights behind this seed.
    Poly(u64),
    /// `make`: write the problem file of this family with the heights behind this seed.
    Make(Family, u64),
}

impl Command {
    /// Whether `run_alone` reads its input for this command. One for several searchers it hands back unread; `run` reads as
    /// for [`by_one`](Command::by_one) of it.
    pub fn reads(self) -> bool
        ensures { result ≡ spec.reads self }
    {
        match self {
            Command::Plain => true,
            Command::List(searchers) | Command::Sum(searchers) => !(2 <= searchers),
            Command::Check => true,
            Command::Generic => true,
            Command::Move => true,
            Command::Trace => true,
            Command::Verify => true,
            Command::Powers => true,
            Command::Poly(_) => true,
            Command::Make(_, _) => false,
        }
    }

    /// Whether the command is for more than one searcher.
    pub fn needs_team(self) -> bool
        ensures { result ≡ spec.needs_team self }
    {
        match self {
            Command::List(searchers) | Command::Sum(searchers) => 2 <= searchers,
            _ => false,
        }
    }

    /// The command as one searcher does it alone.
    pub fn by_one(self) -> Command
        ensures { result ≡ by.by_one self }
    {
        match self {
            Command::List(_) => Command::List(1),
            Command::Sum(_) => Command::Sum(1),
            other => other,
        }
    }
}

// The command that is built for a meaning.
fn built(meaning: Meaning) -> Option<Command>
    ensures { result ≡ spec.built meaning }
{
    match meaning {
        Meaning::Plain => Some(Command::Plain),
        Meaning::List(searchers) => Some(Command::List(searchers)),
        Meaning::Sum(searchers) => Some(Command::Sum(searchers)),
        Meaning::Check => Some(Command::Check),
        Meaning::Generic => Some(Command::Generic),
        Meaning::Move => Some(Command::Move),
        Meaning::Trace => Some(Command::Trace),
        Meaning::Verify => Some(Command::Verify),
        Meaning::Powers => Some(Command::Powers),
        Meaning::Poly(seed) => Some(Command::Poly(seed)),
        Meaning::Make(family, seed) => Some(Command::Make(family, seed)),
    }
}

fn command_meant(meaning: Option<Meaning>) -> Option<Command>
    ensures { result ≡ option_and_then spec.built meaning }
{
    built(meaning?)
}

/// The command that the words after the program's name mean, if they mean one. No memory is taken.
pub fn command_of(words: &[String]) -> Option<Command>
    ensures meaning { MatchOption result (¬ (HasMeaning (map string_bytes words.now))) (λ c. Means (map string_bytes words.now) c) }
{
    command_meant(meaning(words))
}

/// Reads words that mean a command. Want of memory is the one refusal.
pub fn read_command(alloc: Global, words: &[String]) -> Result<Command, OutOfMemory>
    requires { HasMeaning (map string_bytes words.now) }
    ensures { IfOk result (λ c. Means (map string_bytes words.now) c) }
{
    let Ok(found) = parse(alloc, words) else {
        return Err(OutOfMemory);
    };
    match command_meant(meaning_in(&found)) {
        Some(command) => Ok(command),
        None => unreachable!(),
    }
}
