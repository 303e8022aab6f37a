//! The end of a pool.
ghost use Rattle.std.specs.Prelude.{◌≡◌, ◌≤◌, ◌++◌, ◌-◌, ◌+◌, ◌^◌, [], IfOk, IfErr, IsPermutation, length, min, vec_capacity};
ghost use Rattle.std.specs.List.Sorted.{IsNonDecreasingBy};
ghost use Rattle.std.specs.List.{All, flat_map, sum_by};
ghost use Rattle.branch_pool.specs.declared.rule.TheConstants.{SEATS};
ghost use Rattle.branch_pool.specs.Seats.{IsSeatOf, AreAllSeats, all_taken, offered_by, taken_by};
ghost use Rattle.branch_pool.specs.Parts.{Numbered};

use super::gathering::{emptied, joined, learned, parted};
use super::{Own, Pool, Seat};
use crate::rule::SeatView;
use crossbeam_deque::Pass;
use std::alloc::Global;

/// What a closed pool had: the branches that were offered and that no one took, how many were offered, and how many were taken. The counts stand at
/// 2^64 - 1 once they would exceed it.
#[derive(Drop)]
pub struct Tally<B> {
    pub left: Vec<B>,
    pub offered: u64,
    pub taken: u64,
}

/// A pool that couldn't be closed for want of memory, and its seats, untouched and in the order in which they were given. Both may be used or
/// closed again.
#[derive(Drop)]
pub struct Unclosed<B> {
    pub pool: Pool<B>,
    pub seats: Vec<Seat<B>>,
}

impl<B: Drop> Pool<B> {
    /// Ends a pool whose seats are all given, in any order: all that they offered is what is left together with what they took. The memory for it is
    /// taken first; where there is none, pool and seats come back.
    pub fn close(self, alloc: Global, mut seats: Vec<Seat<B>>) -> Result<Tally<B>, Unclosed<B>>
        requires { AreAllSeats self seats.items }
        ensures kept { IfOk result (λ t. IsPermutation (offered_by seats.items) (t.left.items ++ taken_by seats.items)) }
        ensures offered { IfOk result (λ t. t.offered ≡ min (length (offered_by seats.items)) (2 ^ 64 - 1)) }
        ensures taken { IfOk result (λ t. t.taken ≡ min (length (taken_by seats.items)) (2 ^ 64 - 1)) }
        ensures unclosed { IfErr result (λ u. (u.pool ≡ self) × (u.seats.items ≡ seats.items)) }
    {
        let count = self.stealers.len();
        let (offered, taken) = counts(&seats);
        let Ok(room) = usize::try_from(offered.saturating_sub(taken)) else {
            return Err(Unclosed { pool: self, seats });
        };
        let Ok(left) = Vec::with_capacity(alloc, room) else {
            return Err(Unclosed { pool: self, seats });
        };
        let Ok(workers) = Vec::with_capacity(alloc, count) else {
            return Err(Unclosed { pool: self, seats });
        };
        let Ok(rows) = Vec::with_capacity(alloc, count) else {
            return Err(Unclosed { pool: self, seats });
        };
        in_order(&mut seats);
        Ok(Tally {
            left: closed(&self, seats, workers, rows, left),
            offered: capped(offered),
            taken: capped(taken),
        })
    }
}

impl<B> Seat<B> {
    fn number(&self) -> u32
        ensures { result ≡ self.now.number }
    {
        self.number
    }
}

// The seats in the order of their numbers. It takes no memory.
fn in_order<B>(seats: &mut Vec<Seat<B>>)
    ensures kept { IsPermutation seats.old.items seats.new.items }
    ensures order { IsNonDecreasingBy (λ s. s.number) seats.new.items }
{
    seats.sort_unstable_by_key(|seat| seat.number());
}

// How many branches the seats offered and took, the second for each seat up to its last value.
fn counts<B>(seats: &Vec<Seat<B>>) -> (u128, u128)
    requires { length seats.now.items ≤ SEATS }
    ensures offered { result.0 ≡ sum_by (λ s. length s.offered) seats.now.items }
    ensures taken { result.1 ≡ sum_by (λ s. min (length (all_taken s)) (2 ^ 64 - 1)) seats.now.items }
{
    let mut offered = 0u128;
    let mut taken = 0u128;
    for seat in seats {
        offered += u128::from(seat.offered);
        taken += u128::from(seat.taken);
    }
    (offered, taken)
}

// A count that stands at its last value.
fn capped(count: u128) -> u64
    ensures { result ≡ min count (2 ^ 64 - 1) }
{
    u64::try_from(count).unwrap_or(u64::MAX)
}

// Joins all views and takes what is left, into a list with room for it.
fn closed<B: Drop>(
    pool: &Pool<B>,
    seats: Vec<Seat<B>>,
    workers: Vec<Own<B>>,
    rows: Vec<Vec<Pass<B, SeatView<B>>>>,
    mut left: Vec<B>,
) -> Vec<B>
    requires seats { All (λ s. IsSeatOf pool.now s) seats.items × Numbered (λ k s. s.number ≡ k) 1 seats.items × (length seats.items ≡ length pool.now.deques) }
    requires size { (1 ≤ length pool.now.deques) × (length pool.now.deques ≤ SEATS) }
    requires empty { (workers.items ≡ []) × (rows.items ≡ []) × (left.items ≡ []) }
    requires space { (length seats.items ≤ vec_capacity workers) × (length seats.items ≤ vec_capacity rows) }
    requires room { length (offered_by seats.items) ≤ length (taken_by seats.items) + vec_capacity left }
    ensures { IsPermutation (offered_by seats.items) (result.items ++ taken_by seats.items) }
{
    let (mut workers, rows) = parted(pool, seats, workers, rows);
    joined(&mut workers, rows);
    learned(&mut workers);
    emptied(workers, &mut left);
    left
}
