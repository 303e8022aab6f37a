// A source in memory that never fails.
ghost use Rattle.std.specs.Prelude.{◌≡◌, Some, length, min, IfOk, IsOk};
ghost use Rattle.std.specs.Io.{ReadsAtMost};
ghost use Rattle.std.specs.Io.KnownBytes.{ReadConsumes};
ghost use Rattle.edge_io.specs.Faults.{HasCause};

use crate::ends::{Failed, Source};
use std::marker::Model;

/// A source over bytes in memory that never fails and has no count of faults. Contracts see the bytes that are left.
#[derive(Drop)]
pub struct SteadySource {
    bytes: Vec<u8>,
    given: usize,
}

impl Model for SteadySource {
    ghost use Rattle.std.specs.Prelude.{ℕ, List, ◌≤◌, drop, length};

    ghost Value = { List ℕ };

    ghost view = { λ s. drop s.given s.bytes.items };

    ghost invariant = { λ s. s.given ≤ length s.bytes.items };
}

impl SteadySource {
    /// A source of `bytes`.
    pub fn new(bytes: Vec<u8>) -> SteadySource
        ensures { result ≡ bytes.items }
    {
        SteadySource { bytes, given: 0 }
    }
}

impl Source for SteadySource {
    ghost left = { λ s. Some s };

    ghost faults = { λ _. 0 };

    fn read(&mut self, buf: &mut [u8]) -> Result<usize, Failed>
        ensures bound { ReadsAtMost result buf.new }
        ensures bytes { ReadConsumes (Some self.old) (Some self.new) result buf.new }
        ensures cause { HasCause 0 0 result }
        ensures steady { IsOk result }
        ensures gives { IfOk result (λ n. n ≡ min (length buf.new) (length self.old)) }
    {
        let rest = &self.bytes[self.given..];
        let count = buf.len().min(rest.len());
        buf[..count].copy_from_slice(&rest[..count]);
        self.given += count;
        Ok(count)
    }
}
