// The lines that are written for answers other than a listing.
ghost use Rattle.std.specs.Prelude.{◌≡◌, ◌++◌, IfOk, OnOk};
ghost use Rattle.lex_height.specs.Values.{IsLowest};
ghost use Rattle.mixedcells.specs.Outcomes.{format_line, no_line, overflow_line, too_many_line, overflow_cell, yes_line, tie_free_line, sum_lines, spot_words, second_words, time_words, tie_at, IsTieLine};

use cayley::{Cell, Place, TieProof};
use line_text::write_int;
use listing_text::write_positions;
use std::alloc::Global;
use support_text::write_bytes;
use wide_int::{Frac, OutOfMemory};

/// The line of a fault of the input's format.
pub fn format_line(alloc: Global, line: u64, kind: u8) -> Result<Vec<u8>, OutOfMemory>
    ensures { IfOk result (λ text. text.items ≡ format_line line kind) }
{
    match format!(in alloc; "format: line {line} kind {kind}\n") {
        Ok(text) => Ok(text.into_bytes()),
        Err(_) => Err(OutOfMemory),
    }
}

/// The line of a listing's line that doesn't pass, and the reason.
pub fn no_line(alloc: Global, line: u64, reason: u8) -> Result<Vec<u8>, OutOfMemory>
    ensures { IfOk result (λ text. text.items ≡ no_line line reason) }
{
    match format!(in alloc; "no: line {line} reason {reason}\n") {
        Ok(text) => Ok(text.into_bytes()),
        Err(_) => Err(OutOfMemory),
    }
}

/// The line of a listing's line with a number that doesn't fit.
pub fn overflow_line(alloc: Global, line: u64) -> Result<Vec<u8>, OutOfMemory>
    ensures { IfOk result (λ text. text.items ≡ overflow_line line) }
{
    match format!(in alloc; "overflow: line {line}\n") {
        Ok(text) => Ok(text.into_bytes()),
        Err(_) => Err(OutOfMemory),
    }
}

/// The line of a number of choices that is too large.
pub fn too_many_line(alloc: Global, choices: u64) -> Result<Vec<u8>, OutOfMemory>
    ensures { IfOk result (λ text. text.items ≡ too_many_line choices) }
{
    match format!(in alloc; "too many: {choices}\n") {
        Ok(text) => Ok(text.into_bytes()),
        Err(_) => Err(OutOfMemory),
    }
}

/// The line of a cell whose working doesn't fit.
pub fn overflow_cell(alloc: Global, cell: &Cell) -> Result<Vec<u8>, OutOfMemory>
    ensures { IfOk result (λ text. text.items ≡ overflow_cell cell.now) }
{
    let mut text = Vec::new(alloc);
    write_bytes(&mut text, b"overflow: cell")?;
    write_positions(&mut text, cell.pairs())?;
    write_bytes(&mut text, b"\n")?;
    Ok(text)
}

/// The line of a listing whose lines all pass.
pub fn yes_line(alloc: Global) -> Result<Vec<u8>, OutOfMemory>
    ensures { IfOk result (λ text. text.items ≡ yes_line) }
{
    let mut text = Vec::new(alloc);
    write_bytes(&mut text, b"yes\n")?;
    Ok(text)
}

/// The line of a path without a tie.
pub fn tie_free_line(alloc: Global) -> Result<Vec<u8>, OutOfMemory>
    ensures { IfOk result (λ text. text.items ≡ tie_free_line) }
{
    let mut text = Vec::new(alloc);
    write_bytes(&mut text, b"tie free\n")?;
    Ok(text)
}

/// The lines of a number of mixed cells and of the size of a path tree.
pub fn sum_lines(alloc: Global, cells: u64, tree: u64) -> Result<Vec<u8>, OutOfMemory>
    ensures { IfOk result (λ text. text.items ≡ sum_lines cells tree) }
{
    match format!(in alloc; "cells {cells}\ntree {tree}\n") {
        Ok(text) => Ok(text.into_bytes()),
        Err(_) => Err(OutOfMemory),
    }
}

// Appends support and position of a point, each behind a blank.
fn write_spot(out: &mut Vec<u8>, place: Place) -> Result<(), OutOfMemory>
    ensures { OnOk result (out.new.items ≡ out.old.items ++ spot_words place) }
{
    write_bytes(out, b" ")?;
    write_int(out, i128::from(place.support))?;
    write_bytes(out, b" ")?;
    write_int(out, i128::from(place.position))
}

// Appends the same of a second point, if there is one.
fn write_second(out: &mut Vec<u8>, second: Option<Place>) -> Result<(), OutOfMemory>
    ensures { OnOk result (out.new.items ≡ out.old.items ++ second_words second) }
{
    match second {
        Some(place) => write_spot(out, place),
        None => Ok(()),
    }
}

// Appends a time.
fn write_time(out: &mut Vec<u8>, time: &Frac) -> Result<(), OutOfMemory>
    ensures { OnOk result (out.new.items ≡ out.old.items ++ time_words time.now) }
{
    write_bytes(out, b" at ")?;
    write_int(out, time.num())?;
    write_bytes(out, b" / ")?;
    write_int(out, time.den())
}

// Appends the line of a tie at this time.
fn write_tie(out: &mut Vec<u8>, time: &Frac, proof: &TieProof) -> Result<(), OutOfMemory>
    ensures { OnOk result (out.new.items ≡ out.old.items ++ tie_at time.now proof.now) }
{
    write_bytes(out, b"tie: cell")?;
    write_positions(out, proof.cell.pairs())?;
    write_time(out, time)?;
    write_bytes(out, b" points")?;
    write_spot(out, proof.first)?;
    write_second(out, proof.second)?;
    write_bytes(out, b"\n")
}

/// The line of a tie: the cell, the rational part of the time in lowest terms, and the points.
pub fn tie_line(alloc: Global, proof: &TieProof) -> Result<Vec<u8>, OutOfMemory>
    ensures line { IfOk result (λ text. IsTieLine proof.now text.items) }
    ensures lowest { IsLowest proof.now.time }
{
    let _den = proof.time.den();
    let time = proof.time.frac();
    let mut text = Vec::new(alloc);
    write_tie(&mut text, &time, proof)?;
    Ok(text)
}
