//! The pool may be shared, and its seats may move, where the branches may move.
use crate::pool::{Pool, Seat, Unclosed};

// Asks that the value's type may be shared.
fn shared<T: Sync>(_value: &T) {}

// Asks that the value's type may move.
fn moved<T: Send>(value: T) -> T {
    value
}

/// A pool of branches that may move between threads may be used by several of them at once.
pub fn pool_is_shared<B: Send + Drop>(pool: &Pool<B>) {
    shared(pool);
}

/// A seat of such a pool may move to another thread.
pub fn seat_is_moved<B: Send + Drop>(seat: Seat<B>) -> Seat<B> {
    moved(seat)
}

/// What a refused close hands back may move too.
pub fn unclosed_is_moved<B: Send + Drop>(unclosed: Unclosed<B>) -> Unclosed<B> {
    moved(unclosed)
}
