// A sink in memory.
ghost use Rattle.std.specs.Prelude.{◌≡◌, ◌≢◌, ◌<◌, ◌-◌, ◌↔◌, ◌⊎◌, [], Some, length, min, IsErr, IfOk, Contains, is_err};
ghost use Rattle.std.specs.Io.{WritesAtMost};
ghost use Rattle.std.specs.Io.KnownBytes.{WriteAppends};
ghost use Rattle.edge_io.specs.Faults.{HasCause};
ghost use Rattle.edge_io.specs.Plan.{next, new_plan, after_call};

use crate::call_plan::CallPlan;
use crate::ends::{Failed, Sink};
use std::alloc::Global;
use std::marker::Model;
use wide_int::OutOfMemory;

/// A sink into memory, of which given calls fail.
///
/// Contracts see the bytes that it holds, how many it has room for, and the plan of its calls, as a `MemorySource`
/// has one.
#[derive(Drop)]
pub struct MemorySink {
    bytes: Vec<u8>,
    room: usize,
    plan: CallPlan,
}

impl Model for MemorySink {
    ghost use Rattle.std.specs.Prelude.{◌≤◌, length, vec_capacity};
    ghost use Rattle.edge_io.specs.Plan.{Store};

    ghost Value = { Store };

    ghost view = { λ s. record { held = s.bytes.items; room = s.room; plan = s.plan } };

    ghost invariant = { λ s. (length s.bytes.items ≤ s.room) × (s.room ≤ vec_capacity s.bytes) };
}

impl MemorySink {
    /// An empty sink that holds up to `room` bytes, takes at most `piece` of them in a call and fails in the calls
    /// whose numbers, from 1, stand in `failing`. The memory for `room` bytes is taken here; a write takes none.
    pub fn new(
        alloc: Global,
        room: usize,
        piece: usize,
        failing: Vec<u64>,
    ) -> Result<MemorySink, OutOfMemory>
        requires { 0 < piece }
        ensures { IfOk result (λ s. s ≡ record { held = []; room = room; plan = new_plan piece failing.items }) }
    {
        let Ok(bytes) = Vec::with_capacity(alloc, room) else {
            return Err(OutOfMemory);
        };
        let plan = CallPlan::new(piece, failing);
        Ok(MemorySink { bytes, room, plan })
    }

    /// The bytes that were written.
    pub fn bytes(&self) -> &[u8]
        ensures { result.now ≡ self.now.held }
    {
        &self.bytes
    }
}

impl Sink for MemorySink {
    ghost held = { λ s. Some s.held };

    ghost faults = { λ s. s.plan.faults };

    fn write(&mut self, piece: &[u8]) -> Result<usize, Failed>
        ensures bound { WritesAtMost result piece.now }
        ensures some { 0 < length piece.now → IfOk result (λ n. 0 < n) }
        ensures bytes { WriteAppends (Some self.old.held) (Some self.new.held) result piece.now }
        ensures cause { HasCause self.old.plan.faults self.new.plan.faults result }
        ensures fails { IsErr result ↔ (Contains self.old.plan.failing (next self.old.plan.calls)
            ⊎ ((0 < length piece.now) × (length self.old.held ≡ self.old.room))) }
        ensures takes { IfOk result (λ n. n ≡ min (min (length piece.now) self.old.plan.piece) (self.old.room - length self.old.held)) }
        ensures counts { self.new.plan ≡ after_call self.old.plan (is_err result) }
        ensures room { self.new.room ≡ self.old.room }
    {
        let room = self.room - self.bytes.len();
        if self.plan.call() || (room == 0 && !piece.is_empty()) {
            return Err(self.plan.fault());
        }
        let count = piece.len().min(self.plan.piece()).min(room);
        match self.bytes.extend_from_slice(&piece[..count]) {
            Ok(()) => Ok(count),
            Err(_) => unreachable!(),
        }
    }
}
