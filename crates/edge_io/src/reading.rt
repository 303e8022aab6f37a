// Reading to the end of input.
ghost use Rattle.std.specs.Prelude.{◌≡◌, ◌≤◌, ◌<◌, ◌+◌, List, ℕ, length, take, drop, min, vec_len, IfOk, OnOk, MatchResult};
ghost use Rattle.std.specs.Io.KnownBytes.{Consumes, ReadConsumes, IsAtEnd};
ghost use Rattle.edge_io.specs.Faults.{HasCause};
ghost use Rattle.edge_io.specs.Reading.{Stops};

use crate::ends::{Failed, Source};
use std::alloc::{AllocError, Global};
use thiserror::Error;

// The longest input that is read.
const LIMIT: usize = 16_777_216;

// The least room that a read is given, unless the limit is nearer.
const CHUNK: usize = 65_536;

/// Why the input wasn't read to its end.
#[derive(Clone, Copy, Debug, PartialEq, Eq, Error)]
pub enum ReadStop {
    /// A read failed.
    #[error("the input can't be read")]
    Fault,
    /// The input has more than 16,777,216 bytes.
    #[error("the input has more than 16777216 bytes")]
    TooLong,
    /// There was no memory for the input.
    #[error("out of memory")]
    OutOfMemory,
}

/// Reads all that `source` has left, which is at most 16,777,216 bytes.
///
/// It stops where a read fails, and at the byte after the limit. What it took until then is lost.
pub fn read_all<S: Source>(alloc: Global, source: &mut S) -> Result<Vec<u8>, ReadStop>
    // Some bytes were taken, and the answer says which or how many.
    ensures taken { (bytes : List ℕ) × Consumes (S.left source.old) (S.left source.new) bytes
        × MatchResult result (λ v. (v.items ≡ bytes) × (length bytes ≤ 16777216) × IsAtEnd (S.left source.new))
        (Stops (S.faults source.old) (S.faults source.new) (length bytes)) }
    ensures later { S.faults source.old ≤ S.faults source.new }
{
    let mut bytes = Vec::new(alloc);
    let mut filled = 0;
    while filled <= LIMIT {
        if make_room(&mut bytes, filled).is_err() {
            return Err(ReadStop::OutOfMemory);
        }
        let Ok(count) = read_behind(source, &mut bytes, filled) else {
            return Err(ReadStop::Fault);
        };
        if count == 0 {
            bytes.truncate(filled);
            return Ok(bytes);
        }
        filled += count;
    }
    Err(ReadStop::TooLong)
}

// Reads into `bytes` behind the first `filled` of them.
fn read_behind<S: Source>(source: &mut S, bytes: &mut [u8], filled: usize) -> Result<usize, Failed>
    requires { filled ≤ length bytes.old }
    ensures front { take filled bytes.new ≡ take filled bytes.old }
    ensures bound { IfOk result (λ n. filled + n ≤ length bytes.new) }
    ensures bytes { ReadConsumes (S.left source.old) (S.left source.new) result (drop filled bytes.new) }
    ensures cause { HasCause (S.faults source.old) (S.faults source.new) result }
{
    source.read(&mut bytes[filled..])
}

// Lengthens `bytes`, of which the first `filled` count, so that a read has room. The length at least doubles.
fn make_room(bytes: &mut Vec<u8>, filled: usize) -> Result<(), AllocError>
    requires filled { filled ≤ vec_len bytes.old }
    requires below { filled ≤ 16777216 }
    requires within { vec_len bytes.old ≤ 16777217 }
    ensures front { take filled bytes.new.items ≡ take filled bytes.old.items }
    ensures room { OnOk result (min (filled + 65536) 16777217 ≤ vec_len bytes.new) }
    ensures kept { filled ≤ vec_len bytes.new }
    ensures bound { vec_len bytes.new ≤ 16777217 }
{
    let wanted = (filled + CHUNK).min(LIMIT + 1);
    if wanted <= bytes.len() {
        return Ok(());
    }
    let doubled = (2 * bytes.len()).max(wanted).min(LIMIT + 1);
    bytes.resize(doubled, 0)
}
