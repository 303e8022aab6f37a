// What searchers pass on their way.
use std::sync::Wait;
use std::sync::atomic::{AtomicBool, AtomicU64, Ordering};
use std::thread;

/// What a searcher of a team passes before each of its expansions. It tells nothing.
pub trait Gate: Sync {
    /// The searcher's number, and the number of this expansion among its own, both from 1.
    fn pass<R: Wait>(&self, rt: &R, searcher: u32, expansion: u64);
}

/// A gate that is always open.
pub struct NoGate;

impl Gate for NoGate {
    fn pass<R: Wait>(&self, _rt: &R, _searcher: u32, _expansion: u64) {}
}

/// A gate that holds one pass until two searchers have met, for tests.
#[derive(Drop)]
pub struct HoldGate {
    hold_at: u64,
    turns: u64,
    passes: AtomicU64,
    // The searcher that passed first; 0 before that.
    first: AtomicU64,
    // Another searcher has passed.
    other: AtomicBool,
    met: AtomicBool,
}

impl HoldGate {
    /// A gate that numbers all passes from 1 and holds the pass numbered `hold_at` until a pass by
    /// a searcher with another number has come, or until it has looked `turns` times.
    pub fn new(hold_at: u64, turns: u64) -> HoldGate {
        HoldGate {
            hold_at,
            turns,
            passes: AtomicU64::new(0),
            first: AtomicU64::new(0),
            other: AtomicBool::new(false),
            met: AtomicBool::new(false),
        }
    }

    /// Whether a pass by another searcher had come when the held pass went on.
    pub fn met(&self) -> bool {
        self.met.load(Ordering::SeqCst)
    }
}

// The number of a pass, from 1; it stands at 2^64 - 1 once it would exceed it.
fn numbered(passes: &AtomicU64) -> u64 {
    match passes.fetch_update(Ordering::SeqCst, Ordering::SeqCst, |seen| {
        Some(seen.saturating_add(1))
    }) {
        Ok(before) => before.saturating_add(1),
        Err(seen) => seen,
    }
}

impl HoldGate {
    // Notes who passes.
    fn note(&self, searcher: u64) {
        if let Err(first) = self
            .first
            .compare_exchange(0, searcher, Ordering::SeqCst, Ordering::SeqCst)
        {
            if first != searcher {
                self.other.store(true, Ordering::SeqCst);
            }
        }
    }

    // Looks for another searcher, again and again.
    fn hold(&self) {
        for _turn in 0..self.turns {
            if self.other.load(Ordering::SeqCst) {
                self.met.store(true, Ordering::SeqCst);
                return;
            }
            thread::yield_now();
        }
    }
}

impl Gate for HoldGate {
    fn pass<R: Wait>(&self, _rt: &R, searcher: u32, _expansion: u64) {
        let number = numbered(&self.passes);
        self.note(u64::from(searcher));
        if number == self.hold_at {
            self.hold();
        }
    }
}
