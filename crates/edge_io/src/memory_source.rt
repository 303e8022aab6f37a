// A source in memory.
ghost use Rattle.std.specs.Prelude.{◌≡◌, ◌<◌, ◌↔◌, Some, length, min, IsErr, IfOk, Contains, is_err};
ghost use Rattle.std.specs.Io.{ReadsAtMost};
ghost use Rattle.std.specs.Io.KnownBytes.{ReadConsumes};
ghost use Rattle.edge_io.specs.Faults.{HasCause};
ghost use Rattle.edge_io.specs.Plan.{next, new_plan, after_call};

use crate::call_plan::CallPlan;
use crate::ends::{Failed, Source};
use std::marker::Model;

/// A source over bytes in memory, of which given calls fail.
///
/// Contracts see the bytes that are left and the plan of its calls: the most bytes that a call gives, the numbers
/// from 1 of the calls that fail, and how many calls came and how many of them failed. Both counts stand still at
/// 2^64 - 1.
#[derive(Drop)]
pub struct MemorySource {
    bytes: Vec<u8>,
    given: usize,
    plan: CallPlan,
}

impl Model for MemorySource {
    ghost use Rattle.std.specs.Prelude.{◌<◌, ◌≤◌, drop, length};
    ghost use Rattle.edge_io.specs.Plan.{Supply};

    ghost Value = { Supply };

    ghost view = { λ s. record { left = drop s.given s.bytes.items; plan = s.plan } };

    ghost invariant = { λ s. s.given ≤ length s.bytes.items };
}

impl MemorySource {
    /// A source of `bytes` that gives at most `piece` of them in a call and fails in the calls whose numbers, from
    /// 1, stand in `failing`.
    pub fn new(bytes: Vec<u8>, piece: usize, failing: Vec<u64>) -> MemorySource
        requires { 0 < piece }
        ensures { result ≡ record { left = bytes.items; plan = new_plan piece failing.items } }
    {
        MemorySource {
            bytes,
            given: 0,
            plan: CallPlan::new(piece, failing),
        }
    }
}

impl Source for MemorySource {
    ghost left = { λ s. Some s.left };

    ghost faults = { λ s. s.plan.faults };

    fn read(&mut self, buf: &mut [u8]) -> Result<usize, Failed>
        ensures bound { ReadsAtMost result buf.new }
        ensures bytes { ReadConsumes (Some self.old.left) (Some self.new.left) result buf.new }
        ensures cause { HasCause self.old.plan.faults self.new.plan.faults result }
        ensures fails { IsErr result ↔ Contains self.old.plan.failing (next self.old.plan.calls) }
        ensures gives { IfOk result (λ n. n ≡ min (min (length buf.new) self.old.plan.piece) (length self.old.left)) }
        ensures counts { self.new.plan ≡ after_call self.old.plan (is_err result) }
    {
        if self.plan.call() {
            return Err(self.plan.fault());
        }
        let rest = &self.bytes[self.given..];
        let count = buf.len().min(self.plan.piece()).min(rest.len());
        buf[..count].copy_from_slice(&rest[..count]);
        self.given += count;
        Ok(count)
    }
}
