// A sink in memory that grows.
ghost use Rattle.std.specs.Prelude.{◌≡◌, ◌<◌, [], Some, length, IfOk};
ghost use Rattle.std.specs.Io.{WritesAtMost};
ghost use Rattle.std.specs.Io.KnownBytes.{WriteAppends};
ghost use Rattle.edge_io.specs.Faults.{HasCause};

use edge_io::{Failed, Sink};
use std::alloc::Global;
use std::marker::Model;

// A sink into memory that it takes as it is written to. A write fails where there is no memory for it.
#[derive(Drop)]
pub(crate) struct GrowingSink {
    bytes: Vec<u8>,
    faults: u64,
}

impl Model for GrowingSink {
    ghost use Rattle.mixedcells_c.specs.Buffers.{Grown};

    ghost Value = { Grown };

    ghost view = { λ s. record { held = s.bytes.items; faults = s.faults } };
}

impl GrowingSink {
    // An empty sink.
    pub(crate) fn new(alloc: Global) -> GrowingSink
        ensures { result ≡ record { held = []; faults = 0 } }
    {
        GrowingSink {
            bytes: Vec::new(alloc),
            faults: 0,
        }
    }

    // The bytes that were written.
    pub(crate) fn into_bytes(self) -> Vec<u8>
        ensures { result.items ≡ self.held }
    {
        self.bytes
    }
}

impl Sink for GrowingSink {
    ghost held = { λ s. Some s.held };

    ghost faults = { λ s. s.faults };

    fn write(&mut self, piece: &[u8]) -> Result<usize, Failed>
        ensures bound { WritesAtMost result piece.now }
        ensures some { 0 < length piece.now → IfOk result (λ n. 0 < n) }
        ensures bytes { WriteAppends (Some self.old.held) (Some self.new.held) result piece.now }
        ensures cause { HasCause self.old.faults self.new.faults result }
    {
        match self.bytes.extend_from_slice(piece) {
            Ok(()) => Ok(piece.len()),
            Err(_) => {
                self.faults = self.faults.saturating_add(1);
                Err(Failed)
            }
        }
    }
}
