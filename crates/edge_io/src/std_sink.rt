// Std's writers.
ghost use Rattle.std.specs.Prelude.{◌≡◌, ◌≤◌};
ghost use Rattle.edge_io.specs.Plan.{next};

use crate::ends::{Failed, Sink};
use std::io::Write;
use std::marker::Model;

/// A sink over one of std's writers, flushed after each write. It is trusted: contracts see its count of faults
/// alone, which rises at each error and stands still at 2^64 - 1.
#[derive(Drop)]
pub struct StdSink<W: Write> {
    inner: W,
    faults: u64,
}

impl<W: Write> Model for StdSink<W> {
    ghost use Rattle.std.specs.Prelude.{ℕ};

    ghost Value = { ℕ };

    ghost view = { λ s. s.faults };
}

impl<W: Write> StdSink<W> {
    /// A sink into `inner`, without a fault yet.
    pub fn new(inner: W) -> StdSink<W>
        ensures { result ≡ 0 }
    {
        StdSink { inner, faults: 0 }
    }

    // Counts a fault.
    fn fault(&mut self) -> Failed
        ensures counted { self.new ≡ next self.old }
        ensures later { self.old ≤ self.new }
    {
        self.faults = self.faults.saturating_add(1);
        Failed
    }
}

impl<W: Write> Sink for StdSink<W> {
    ghost use Rattle.std.specs.Prelude.{None};

    ghost held = { λ _. None };

    ghost faults = { λ s. s };

    fn write(&mut self, piece: &[u8]) -> Result<usize, Failed> {
        let Ok(count) = self.inner.write(piece) else {
            return Err(self.fault());
        };
        if count == 0 && !piece.is_empty() {
            return Err(self.fault());
        }
        if self.inner.flush().is_err() {
            return Err(self.fault());
        }
        Ok(count)
    }
}
