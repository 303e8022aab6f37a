// What each command replies on the bytes of its input.
ghost use Rattle.std.specs.Prelude.{◌≡◌, IfOk, false};
ghost use Rattle.cell_certificate.specs.Answers.{IsRight};
ghost use Rattle.cell_certificate.specs.Written.{AreListed};
ghost use Rattle.mixedcells.specs.Answers.{IsReply, IsFileReply, IsPlainReply, IsGenericReply, IsListReply, IsCheckReply, IsPowersReply, IsRowsReply, IsMadeReply, IsVerdictReply, TellsFault};
ghost use Rattle.mixedcells.specs.Judging.{TellsAnswer};
ghost use Rattle.mixedcells.specs.Walks.{IsReachedListing, IsReachedSum, IsWalkReply};
ghost use Rattle.mixedcells.specs.Words.{needs_team};
ghost use Rattle.mixedcells.specs.Families as families;
ghost use Rattle.mixedcells.specs.Families.{IsFit, IsInLimits};

use crate::lines::{format_line, no_line, overflow_cell, overflow_line, too_many_line, yes_line};
use crate::outcome::Outcome;
use crate::words::{Command, Family};
use crate::{along, logs, moves, systems};
use cayley::{LiftFile, Problem};
use cell_certificate::{CheckFault, Verdict};
use family_gen::{cyclic, scatter};
use homotopy_rows::{RowFault, rows_of, write_rows};
use listing_text::{Listing, read_listing, write_listing};
use plain_lister::{PlainFault, plain_list};
use std::alloc::Global;
use support_text::{FormatFault, TextFault, read_problem, write_problem};
use wide_int::OutOfMemory;

// The reason of a line that passes but has a further point of the sum 0.
const FLAT: u8 = 6;

/// An outcome and the text that is written for it.
#[derive(Drop)]
pub struct Reply {
    pub outcome: Outcome,
    pub text: Vec<u8>,
}

/// What a command for one searcher replies on the bytes of its whole input, which are at most 16,777,216.
pub fn answer(alloc: Global, command: Command, bytes: &[u8]) -> Result<Reply, OutOfMemory>
    requires fit { IsFit command }
    requires alone { needs_team command ≡ false }
    ensures { IfOk result (λ r. IsReply command bytes.now r.outcome r.text.items) }
{
    match command {
        Command::Plain => plain(alloc, bytes),
        Command::List(_) => list(alloc, bytes),
        Command::Sum(_) => sum(alloc, bytes),
        Command::Check => check(alloc, bytes),
        Command::Generic => generic(alloc, bytes),
        Command::Move => moves::moved(alloc, bytes),
        Command::Trace => logs::trace(alloc, bytes),
        Command::Verify => logs::verify(alloc, bytes),
        Command::Powers => powers(alloc, bytes),
        Command::Poly(seed) => systems::poly(alloc, seed, bytes),
        Command::Make(family, seed) => made(alloc, family, seed),
    }
}

// What `plain` replies.
fn plain(alloc: Global, bytes: &[u8]) -> Result<Reply, OutOfMemory>
    ensures { IfOk result (λ r. IsPlainReply bytes.now r.outcome r.text.items) }
{
    match read_problem(alloc, bytes) {
        Ok(file) => listing(alloc, &file),
        Err(TextFault::Format(fault)) => refusal(alloc, fault),
        Err(TextFault::OutOfMemory) => Err(OutOfMemory),
    }
}

// What `list` replies.
fn list(alloc: Global, bytes: &[u8]) -> Result<Reply, OutOfMemory>
    ensures { IfOk result (λ r. IsFileReply (IsWalkReply IsReachedListing) bytes.now r.outcome r.text.items) }
{
    match read_problem(alloc, bytes) {
        Ok(file) => along::list(alloc, &file),
        Err(TextFault::Format(fault)) => refusal(alloc, fault),
        Err(TextFault::OutOfMemory) => Err(OutOfMemory),
    }
}

// What `sum` replies.
fn sum(alloc: Global, bytes: &[u8]) -> Result<Reply, OutOfMemory>
    ensures { IfOk result (λ r. IsFileReply (IsWalkReply IsReachedSum) bytes.now r.outcome r.text.items) }
{
    match read_problem(alloc, bytes) {
        Ok(file) => along::sum(alloc, &file),
        Err(TextFault::Format(fault)) => refusal(alloc, fault),
        Err(TextFault::OutOfMemory) => Err(OutOfMemory),
    }
}

// What `generic` replies.
fn generic(alloc: Global, bytes: &[u8]) -> Result<Reply, OutOfMemory>
    ensures { IfOk result (λ r. IsGenericReply bytes.now r.outcome r.text.items) }
{
    match read_problem(alloc, bytes) {
        Ok(file) => along::generic(alloc, &file),
        Err(TextFault::Format(fault)) => refusal(alloc, fault),
        Err(TextFault::OutOfMemory) => Err(OutOfMemory),
    }
}

/// The reply to a fault of the input's format.
pub fn refusal(alloc: Global, fault: FormatFault) -> Result<Reply, OutOfMemory>
    ensures { IfOk result (λ r. TellsFault fault r.outcome r.text.items) }
{
    let text = format_line(alloc, fault.line, fault.kind)?;
    let outcome = Outcome::Format {
        line: fault.line,
        kind: fault.kind,
    };
    Ok(Reply { outcome, text })
}

// The reply on a file.
fn listing(alloc: Global, file: &LiftFile) -> Result<Reply, OutOfMemory>
    ensures { IfOk result (λ r. IsListReply file.now r.outcome r.text.items) }
{
    // A lift file is valid by its type, as its readers tell.
    let _dim = file.dim();
    let problem = Problem::plain(alloc, file)?;
    match plain_list(alloc, &problem) {
        Ok(found) => {
            let text = write_listing(alloc, file, &found)?;
            Ok(Reply {
                outcome: Outcome::Ok,
                text,
            })
        }
        Err(PlainFault::TooMany { choices }) => {
            let text = too_many_line(alloc, choices)?;
            Ok(Reply {
                outcome: Outcome::TooMany { choices },
                text,
            })
        }
        Err(PlainFault::Overflow { cell }) => {
            let text = overflow_cell(alloc, &cell)?;
            Ok(Reply {
                outcome: Outcome::OverflowCell { cell },
                text,
            })
        }
        Err(PlainFault::OutOfMemory) => Err(OutOfMemory),
    }
}

// What `check` replies.
fn check(alloc: Global, bytes: &[u8]) -> Result<Reply, OutOfMemory>
    ensures { IfOk result (λ r. IsCheckReply bytes.now r.outcome r.text.items) }
{
    match read_listing(alloc, bytes) {
        Ok(listing) => verdict(alloc, &listing),
        Err(TextFault::Format(fault)) => refusal(alloc, fault),
        Err(TextFault::OutOfMemory) => Err(OutOfMemory),
    }
}

/// What `check` replies on a listing.
pub fn verdict(alloc: Global, listing: &Listing) -> Result<Reply, OutOfMemory>
    requires { AreListed listing.now }
    ensures { IfOk result (λ r. IsVerdictReply listing.now r.outcome r.text.items) }
{
    answered(alloc, cell_certificate::check(alloc, listing))
}

/// The reply to the answer of a checker.
pub fn answered(alloc: Global, answer: Result<Verdict, CheckFault>) -> Result<Reply, OutOfMemory>
    ensures { IfOk result (λ r. TellsAnswer answer r.outcome r.text.items) }
{
    match answer {
        Ok(Verdict::Yes) => {
            let text = yes_line(alloc)?;
            Ok(Reply {
                outcome: Outcome::Ok,
                text,
            })
        }
        Ok(Verdict::No { line, reason }) => {
            let text = no_line(alloc, line, reason)?;
            Ok(Reply {
                outcome: Outcome::No { line, reason },
                text,
            })
        }
        Err(CheckFault::Overflow { line }) => {
            let text = overflow_line(alloc, line)?;
            Ok(Reply {
                outcome: Outcome::OverflowLine { line },
                text,
            })
        }
        Err(CheckFault::OutOfMemory) => Err(OutOfMemory),
    }
}

// What `powers` replies.
fn powers(alloc: Global, bytes: &[u8]) -> Result<Reply, OutOfMemory>
    ensures { IfOk result (λ r. IsPowersReply bytes.now r.outcome r.text.items) }
{
    match read_listing(alloc, bytes) {
        Ok(listing) => judged_rows(alloc, &listing),
        Err(TextFault::Format(fault)) => refusal(alloc, fault),
        Err(TextFault::OutOfMemory) => Err(OutOfMemory),
    }
}

// The powers of a listing's cells where every line passes, else what the checker says.
fn judged_rows(alloc: Global, listing: &Listing) -> Result<Reply, OutOfMemory>
    requires { AreListed listing.now }
    ensures { IfOk result (λ r. IsRowsReply listing.now r.outcome r.text.items) }
{
    match cell_certificate::check(alloc, listing) {
        Ok(Verdict::Yes) => rows(alloc, listing),
        refused => answered(alloc, refused),
    }
}

// The powers of a listing whose lines all pass, or its first flat line.
fn rows(alloc: Global, listing: &Listing) -> Result<Reply, OutOfMemory>
    requires listed { AreListed listing.now }
    requires right { IsRight listing.now }
    ensures { IfOk result (λ r. IsRowsReply listing.now r.outcome r.text.items) }
{
    match rows_of(alloc, listing) {
        Ok(rows) => {
            let text = write_rows(alloc, &rows)?;
            Ok(Reply {
                outcome: Outcome::Ok,
                text,
            })
        }
        Err(RowFault::Flat { line }) => {
            let text = no_line(alloc, line, FLAT)?;
            Ok(Reply {
                outcome: Outcome::No { line, reason: FLAT },
                text,
            })
        }
        Err(RowFault::OutOfMemory) => Err(OutOfMemory),
    }
}

// What `make` replies.
fn made(alloc: Global, family: Family, seed: u64) -> Result<Reply, OutOfMemory>
    requires { IsInLimits family }
    ensures { IfOk result (λ r. IsMadeReply family seed r.outcome r.text.items) }
{
    let file = family_file(alloc, family, seed)?;
    let mut text = Vec::new(alloc);
    write_problem(&file, &mut text)?;
    Ok(Reply {
        outcome: Outcome::Ok,
        text,
    })
}

// The file of a family.
fn family_file(alloc: Global, family: Family, seed: u64) -> Result<LiftFile, OutOfMemory>
    requires { IsInLimits family }
    ensures { IfOk result (λ file. file ≡ families.family_file family seed) }
{
    match family {
        Family::Cyclic(n) => cyclic(alloc, n as usize, seed),
        Family::Scatter(n, m, side) => scatter(alloc, n as usize, m as usize, side, seed),
    }
}
