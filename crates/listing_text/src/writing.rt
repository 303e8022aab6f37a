// The text of a listing, written.
ghost use Rattle.std.specs.Prelude.{◌≡◌, ◌++◌, pos, ℕ, List, [], ◌∷◌, codes, decimal, length, flat_map, IfOk, OnOk};
ghost use Rattle.std.specs.Fmt.{signed_decimal};
ghost use Rattle.support_text.specs.Words.{text_of};
ghost use Rattle.listing_text.specs.Writing.{cell_words, cells_lines, listing_text};

use cayley::{FoundCell, LiftFile};
use line_text::write_int;
use std::alloc::Global;
use support_text::{append_problem, write_bytes, write_count};
use wide_int::OutOfMemory;

// Appends a blank and a position.
fn write_position(out: &mut Vec<u8>, position: u32) -> Result<(), OutOfMemory>
    ensures { OnOk result (out.new.items ≡ out.old.items ++ (codes " " ++ decimal position)) }
{
    write_bytes(out, b" ")?;
    write_int(out, position as i128)
}

/// Appends the two positions of each pair, each behind a blank.
pub fn write_positions(out: &mut Vec<u8>, pairs: &[(u32, u32)]) -> Result<(), OutOfMemory>
    ensures { OnOk result (out.new.items ≡ out.old.items ++ flat_map (λ x. (codes " " ++ decimal x.0) ++ (codes " " ++ decimal x.1)) pairs.now) }
{
    for pair in pairs {
        write_position(out, pair.0)?;
        write_position(out, pair.1)?;
    }
    Ok(())
}

/// Appends each number of a vector behind a blank.
pub fn write_vector(out: &mut Vec<u8>, entries: &[i128]) -> Result<(), OutOfMemory>
    ensures { OnOk result (out.new.items ≡ out.old.items ++ flat_map (λ z. codes " " ++ signed_decimal z) entries.now) }
{
    for entry in entries {
        write_bytes(out, b" ")?;
        write_int(out, *entry)?;
    }
    Ok(())
}

// Appends a cell's line.
fn write_cell(out: &mut Vec<u8>, cell: &FoundCell) -> Result<(), OutOfMemory>
    ensures { OnOk result (out.new.items ≡ out.old.items ++ text_of (cell_words cell.now ∷ [])) }
{
    write_bytes(out, b"cell")?;
    write_positions(out, cell.cell.pairs())?;
    write_bytes(out, b" :")?;
    write_vector(out, cell.normal.v.as_slice())?;
    write_bytes(out, b" / ")?;
    write_int(out, cell.normal.den)?;
    write_bytes(out, b"\n")
}

// Appends the lines of cells.
fn write_cells(out: &mut Vec<u8>, cells: &[FoundCell]) -> Result<(), OutOfMemory>
    ensures { OnOk result (out.new.items ≡ out.old.items ++ flat_map (λ x. text_of (cell_words x ∷ [])) cells.now) }
{
    for cell in cells {
        write_cell(out, cell)?;
    }
    Ok(())
}

/// Appends the lines behind the file: the line `cells K`, a line for each cell and the line `end`.
pub fn append_cells(out: &mut Vec<u8>, cells: &[FoundCell]) -> Result<(), OutOfMemory>
    ensures { OnOk result (out.new.items ≡ out.old.items ++ text_of (cells_lines cells.now)) }
{
    write_count(out, b"cells", cells.len())?;
    write_cells(out, cells)?;
    write_bytes(out, b"end\n")
}

// Appends a listing.
fn append_listing(
    out: &mut Vec<u8>,
    file: &LiftFile,
    cells: &[FoundCell],
) -> Result<(), OutOfMemory>
    ensures { OnOk result (out.new.items ≡ out.old.items ++ listing_text file.now cells.now) }
{
    append_problem(file, out)?;
    append_cells(out, cells)
}

/// The text of a listing: the file's canonical text, the line `cells K`, a line for each cell and the line `end`.
pub fn write_listing(
    alloc: Global,
    file: &LiftFile,
    cells: &[FoundCell],
) -> Result<Vec<u8>, OutOfMemory>
    ensures { IfOk result (λ text. text.items ≡ listing_text file.now cells.now) }
{
    let mut text = Vec::new(alloc);
    append_listing(&mut text, file, cells)?;
    Ok(text)
}
