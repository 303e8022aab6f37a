//! What the searchers of a team tell each other beside the pool. No clause rests on it.
use std::sync::atomic::{AtomicBool, AtomicU64, Ordering};

/// How many branches are open, and whether some searcher halted.
#[derive(Drop)]
pub struct Progress {
    open: AtomicU64,
    halted: AtomicBool,
}

impl Progress {
    /// A count of open branches, and whether a searcher has halted already.
    pub fn new(open: u64, halted: bool) -> Progress {
        Progress {
            open: AtomicU64::new(open),
            halted: AtomicBool::new(halted),
        }
    }

    /// One branch more is open.
    pub fn opened(&self) {
        self.open.fetch_add(1, Ordering::SeqCst);
    }

    /// One branch fewer is open.
    pub fn closed(&self) {
        self.open.fetch_sub(1, Ordering::SeqCst);
    }

    /// Whether no branch is open.
    pub fn is_done(&self) -> bool {
        self.open.load(Ordering::SeqCst) == 0
    }

    /// A searcher has halted.
    pub fn halt(&self) {
        self.halted.store(true, Ordering::SeqCst);
    }

    /// Whether some searcher has halted.
    pub fn is_halted(&self) -> bool {
        self.halted.load(Ordering::SeqCst)
    }
}
