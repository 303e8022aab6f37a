// The canonical text of a file, written.
ghost use Rattle.std.specs.Prelude.{◌≡◌, ◌++◌, ◌*ℤ◌, pos, ℕ, List, [], ◌∷◌, codes, length, map, flat_map, Ok, OnOk, OnErr};
ghost use Rattle.std.specs.Fmt.{signed_decimal};
ghost use Rattle.cayley.specs.Stored.{file_point, version_of};
ghost use Rattle.support_text.specs.Words.{text_of};
ghost use Rattle.support_text.specs.ProblemText.{problem_of};
ghost use Rattle.support_text.specs.Writing.{point_words, support_lines, start_words, start_lines, version_text, problem_text};

use cayley::{FilePoint, LiftFile, Version};
use line_text::write_int;
use wide_int::OutOfMemory;

/// Appends bytes. A refusal leaves `out` as it was.
pub fn write_bytes(out: &mut Vec<u8>, bytes: &[u8]) -> Result<(), OutOfMemory>
    ensures ok { OnOk result (out.new.items ≡ out.old.items ++ bytes.now) }
    ensures err { OnErr result (out.new.items ≡ out.old.items) }
{
    out.extend_from_slice(bytes).map_err(|_| OutOfMemory)
}

/// Appends each number and a blank behind it.
pub fn write_numbers(out: &mut Vec<u8>, numbers: &[i128]) -> Result<(), OutOfMemory>
    ensures { OnOk result (out.new.items ≡ out.old.items ++ flat_map (λ z. signed_decimal z ++ codes " ") numbers.now) }
{
    for z in numbers {
        write_int(out, *z)?;
        write_bytes(out, b" ")?;
    }
    Ok(())
}

/// Appends a word, a number and the end of the line.
pub fn write_count(out: &mut Vec<u8>, word: &[u8], count: usize) -> Result<(), OutOfMemory>
    ensures { OnOk result (out.new.items ≡ out.old.items ++ (word.now ++ (codes " " ++ (signed_decimal (pos count) ++ codes "\n")))) }
{
    write_bytes(out, word)?;
    write_bytes(out, b" ")?;
    write_int(out, count as i128)?;
    write_bytes(out, b"\n")
}

// Appends a height.
fn write_height(out: &mut Vec<u8>, height: i64) -> Result<(), OutOfMemory>
    ensures { OnOk result (out.new.items ≡ out.old.items ++ signed_decimal height) }
{
    write_int(out, height as i128)
}

// Appends a point's line.
fn write_point(out: &mut Vec<u8>, point: &FilePoint) -> Result<(), OutOfMemory>
    ensures { OnOk result (out.new.items ≡ out.old.items ++ text_of (point_words (file_point point.now) ∷ [])) }
{
    write_numbers(out, point.coords.as_slice())?;
    write_bytes(out, b": ")?;
    write_height(out, point.height)?;
    write_bytes(out, b"\n")
}

// Appends the lines of points.
fn write_points(out: &mut Vec<u8>, points: &[FilePoint]) -> Result<(), OutOfMemory>
    ensures { OnOk result (out.new.items ≡ out.old.items ++ flat_map (λ x. text_of (point_words (file_point x) ∷ [])) points.now) }
{
    for point in points {
        write_point(out, point)?;
    }
    Ok(())
}

// Appends the lines of a support.
fn write_support(out: &mut Vec<u8>, points: &[FilePoint]) -> Result<(), OutOfMemory>
    ensures { OnOk result (out.new.items ≡ out.old.items ++ text_of (support_lines (map file_point points.now))) }
{
    write_count(out, b"support", points.len())?;
    write_points(out, points)
}

// Appends the lines of supports.
fn write_supports(out: &mut Vec<u8>, supports: &[Vec<FilePoint>]) -> Result<(), OutOfMemory>
    ensures { OnOk result (out.new.items ≡ out.old.items ++ flat_map (λ s. text_of (support_lines (map file_point s.items))) supports.now) }
{
    for points in supports {
        write_support(out, points)?;
    }
    Ok(())
}

// Appends a start line.
fn write_start(out: &mut Vec<u8>, heights: &[i64]) -> Result<(), OutOfMemory>
    ensures { OnOk result (out.new.items ≡ out.old.items ++ text_of (start_words heights.now ∷ [])) }
{
    write_bytes(out, b"start")?;
    write_heights(out, heights)?;
    write_bytes(out, b"\n")
}

// Appends each start height with a blank before it.
fn write_heights(out: &mut Vec<u8>, heights: &[i64]) -> Result<(), OutOfMemory>
    ensures { OnOk result (out.new.items ≡ out.old.items ++ flat_map (λ h. codes " " ++ signed_decimal h) heights.now) }
{
    for height in heights {
        write_bytes(out, b" ")?;
        write_height(out, *height)?;
    }
    Ok(())
}

// Appends the start lines.
fn write_starts(out: &mut Vec<u8>, starts: &[Vec<i64>]) -> Result<(), OutOfMemory>
    ensures { OnOk result (out.new.items ≡ out.old.items ++ flat_map (λ s. text_of (start_words s.items ∷ [])) starts.now) }
{
    for heights in starts {
        write_start(out, heights)?;
    }
    Ok(())
}

// Appends the start lines if the file gives them.
fn write_given_starts(out: &mut Vec<u8>, file: &LiftFile) -> Result<(), OutOfMemory>
    ensures { OnOk result (out.new.items ≡ out.old.items ++ text_of (start_lines file.now.starts)) }
{
    match file.starts() {
        Some(starts) => write_starts(out, starts),
        None => Ok(()),
    }
}

// Appends the first line of a file of this version.
fn write_header(out: &mut Vec<u8>, version: Version) -> Result<(), OutOfMemory>
    ensures { OnOk result (out.new.items ≡ out.old.items ++ (codes "mixedcells " ++ (version_text (version_of version) ++ codes "\n"))) }
{
    match version {
        Version::First => write_bytes(out, b"mixedcells 1\n"),
        Version::Second => write_bytes(out, b"mixedcells 2\n"),
    }
}

/// Appends the canonical text of a file; a refusal may leave a part of it in `out`.
pub fn append_problem(file: &LiftFile, out: &mut Vec<u8>) -> Result<(), OutOfMemory>
    ensures { OnOk result (out.new.items ≡ out.old.items ++ problem_text file.now) }
{
    write_header(out, file.form())?;
    write_count(out, b"dim", file.dim())?;
    write_supports(out, file.supports())?;
    write_given_starts(out, file)?;
    write_bytes(out, b"end\n")
}

/// Appends the canonical text of a file. A refusal leaves `out` as it was.
#[tactic(auto, using(crate::proofs::FileTexts::read_back))]
pub fn write_problem(file: &LiftFile, out: &mut Vec<u8>) -> Result<(), OutOfMemory>
    ensures ok { OnOk result (out.new.items ≡ out.old.items ++ problem_text file.now) }
    ensures err { OnErr result (out.new.items ≡ out.old.items) }

    // The text means the file.
    ensures meaning { problem_of (problem_text file.now) ≡ Ok file.now }
{
    let _dimension = file.dim();
    let mut text = Vec::new(*out.allocator());
    append_problem(file, &mut text)?;
    write_bytes(out, &text)
}
