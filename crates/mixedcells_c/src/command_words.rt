// The words that the bytes of a command hold.
ghost use Rattle.std.specs.Prelude.{◌≡◌, ◌==◌, IfOk, map, string_bytes};
ghost use Rattle.std.specs.List.{slice_split};
ghost use Rattle.mixedcells_c.specs.Commands.{words_in};

use std::alloc::{AllocError, Global};
use std::str;
use wide_int::OutOfMemory;

// The words between the blanks of a command; none, if it isn't UTF-8.
pub(crate) fn words_of(alloc: Global, command: &[u8]) -> Result<Vec<String>, OutOfMemory>
    ensures { IfOk result (λ ws. map string_bytes ws.items ≡ words_in command.now) }
{
    match str::from_utf8(command) {
        Ok(text) => split_words(alloc, text),
        Err(_) => Ok(Vec::new(alloc)),
    }
}

// The words between the blanks of a text.
fn split_words(alloc: Global, text: &str) -> Result<Vec<String>, OutOfMemory>
    ensures { IfOk result (λ ws. map string_bytes ws.items ≡ slice_split (λ b. b == 32) text.now) }
{
    let Ok(parts) = parts_of(alloc, text) else {
        return Err(OutOfMemory);
    };
    match owned(alloc, &parts) {
        Ok(words) => Ok(words),
        Err(_) => Err(OutOfMemory),
    }
}

fn parts_of(alloc: Global, text: &str) -> Result<Vec<&str>, AllocError>
    ensures { IfOk result (λ ps. map (λ p. p.now) ps.items ≡ slice_split (λ b. b == 32) text.now) }
{
    text.split(' ').collect(alloc)
}

// The same texts in memory of their own.
fn owned(alloc: Global, parts: &[&str]) -> Result<Vec<String>, AllocError>
    ensures { IfOk result (λ ws. map string_bytes ws.items ≡ map (λ p. p.now) parts.now) }
{
    let mut words = Vec::new(alloc);
    for part in parts {
        let word = String::from_str(alloc, part)?;
        words.push(word)?;
    }
    Ok(words)
}
