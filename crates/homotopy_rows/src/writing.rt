// The text of powers, written.
ghost use Rattle.std.specs.Prelude.{◌≡◌, ◌++◌, List, [], ◌∷◌, codes, flat_map, map, IfOk, OnOk};
ghost use Rattle.std.specs.Fmt.{signed_decimal};
ghost use Rattle.support_text.specs.Words.{text_of};
ghost use Rattle.homotopy_rows.specs.Stored.{row};
ghost use Rattle.homotopy_rows.specs.Writing.{power_words, scale_words, row_lines, homotopy_text};

use crate::rows::PowerRow;
use int_vectors::IntVec;
use line_text::write_int;
use listing_text::write_positions;
use std::alloc::Global;
use support_text::{write_bytes, write_count};
use wide_int::OutOfMemory;

// Appends each number behind a blank.
fn write_each(out: &mut Vec<u8>, numbers: &[i128]) -> Result<(), OutOfMemory>
    ensures { OnOk result (out.new.items ≡ out.old.items ++ flat_map (λ z. codes " " ++ signed_decimal z) numbers.now) }
{
    for z in numbers {
        write_bytes(out, b" ")?;
        write_int(out, *z)?;
    }
    Ok(())
}

// Appends the line of a support's powers.
fn write_powers(out: &mut Vec<u8>, powers: &IntVec) -> Result<(), OutOfMemory>
    ensures { OnOk result (out.new.items ≡ out.old.items ++ text_of (power_words powers.now ∷ [])) }
{
    write_bytes(out, b"powers")?;
    write_each(out, powers.as_slice())?;
    write_bytes(out, b"\n")
}

// Appends the lines of all supports' powers.
fn write_supports(out: &mut Vec<u8>, powers: &[IntVec]) -> Result<(), OutOfMemory>
    ensures { OnOk result (out.new.items ≡ out.old.items ++ flat_map (λ ws. text_of (power_words ws ∷ [])) powers.now) }
{
    for own in powers {
        write_powers(out, own)?;
    }
    Ok(())
}

// Appends the line of a cell and its scale.
fn write_scale(out: &mut Vec<u8>, r: &PowerRow) -> Result<(), OutOfMemory>
    ensures { OnOk result (out.new.items ≡ out.old.items ++ text_of (scale_words (row r.now) ∷ [])) }
{
    write_bytes(out, b"cell")?;
    write_positions(out, r.cell.pairs())?;
    write_bytes(out, b" : ")?;
    write_int(out, r.scale)?;
    write_bytes(out, b"\n")
}

// Appends the lines of a cell.
fn write_row(out: &mut Vec<u8>, r: &PowerRow) -> Result<(), OutOfMemory>
    ensures { OnOk result (out.new.items ≡ out.old.items ++ text_of (row_lines (row r.now))) }
{
    write_scale(out, r)?;
    write_supports(out, &r.powers)
}

// Appends the lines of all cells.
fn write_cells(out: &mut Vec<u8>, rows: &[PowerRow]) -> Result<(), OutOfMemory>
    ensures { OnOk result (out.new.items ≡ out.old.items ++ flat_map (λ r. text_of (row_lines (row r))) rows.now) }
{
    for r in rows {
        write_row(out, r)?;
    }
    Ok(())
}

// Appends the text of the powers of cells.
fn append_rows(out: &mut Vec<u8>, rows: &[PowerRow]) -> Result<(), OutOfMemory>
    ensures { OnOk result (out.new.items ≡ out.old.items ++ homotopy_text (map row rows.now)) }
{
    write_count(out, b"homotopies", rows.len())?;
    write_cells(out, rows)?;
    write_bytes(out, b"end\n")
}

/// The text of the powers of cells: `homotopies K`, for each cell a line `cell a1 b1 .. an bn : scale`
/// and a line `powers w1 .. wM` for each support, and `end`.
pub fn write_rows(alloc: Global, rows: &[PowerRow]) -> Result<Vec<u8>, OutOfMemory>
    ensures { IfOk result (λ text. text.items ≡ homotopy_text (map row rows.now)) }
{
    let mut text = Vec::new(alloc);
    append_rows(&mut text, rows)?;
    Ok(text)
}
