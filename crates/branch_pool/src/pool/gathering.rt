//! Seats are taken apart, and what their deques have left is gathered.
ghost use Rattle.std.specs.Prelude.{◌≡◌, ◌<◌, ◌≤◌, ◌++◌, ◌-◌, ◌+◌, [], reverse, IsPermutation, length, map, vec_capacity};
ghost use Rattle.std.specs.List.{All, flat_map, sum_by};
ghost use Rattle.crossbeam_deque.specs.Handles.{worker_deque, worker_view};
ghost use Rattle.branch_pool.specs.declared.rule.TheConstants.{SEATS};
ghost use Rattle.branch_pool.specs.Seats.{IsSeatOf, all_taken, taken_by};
ghost use Rattle.branch_pool.specs.Parts.{Numbered, IsUsedRow, IsQuiet, added, own_offered, own_taken, own_parts, pass_taken, pass_parts, IsOwner};

use super::{Own, Pool, Seat};
use crate::rule::{Gather, Holding, SeatView, Taking};
use crossbeam_deque::Pass;
use std::alloc::Global;

// Takes all that a worker's deque has left, into a list with room for it.
pub(super) fn drained<B: Drop>(mut own: Own<B>, left: &mut Vec<B>)
    requires whole { IsOwner own × ((worker_view own).parts ≡ SEATS) }
    requires room { length (worker_view own).offered + length left.old.items ≤ length (worker_view own).taken + vec_capacity left.old }
    ensures kept { IsPermutation ((worker_view own).offered ++ left.old.items) (left.new.items ++ (worker_view own).taken) }
    ensures room { vec_capacity left.new ≡ vec_capacity left.old }
{
    while let Some(branch) = own.pop_as::<Taking>() {
        left.push_reserved(branch);
    }
}

// The passes of one seat join the workers of their deques.
pub(super) fn absorbed<B: Drop>(workers: &mut Vec<Own<B>>, mut passes: Vec<Pass<B, SeatView<B>>>)
    requires deques { map (λ p. (p.rows, p.heap)) passes.items ≡ map (λ w. worker_deque w) workers.old.items }
    requires workers { All (λ w. IsOwner w × (0 < own_parts w)) workers.old.items }
    requires quiet { All IsQuiet passes.items }
    ensures same { (map (λ w. worker_deque w) workers.new.items ≡ map (λ w. worker_deque w) workers.old.items) × All (λ w. IsOwner w × (0 < own_parts w)) workers.new.items }
    ensures offered { map own_offered workers.new.items ≡ map own_offered workers.old.items }
    ensures parts { map own_parts workers.new.items ≡ added (map own_parts workers.old.items) (map pass_parts passes.items) }
    ensures taken { IsPermutation (flat_map own_taken workers.old.items ++ flat_map pass_taken passes.items) (flat_map own_taken workers.new.items) }
{
    while let Some(pass) = passes.pop() {
        workers[passes.len()].absorb::<Gather>(pass);
    }
}

// All rows join, so that each worker has all parts of its deque.
pub(super) fn joined<B: Drop>(workers: &mut Vec<Own<B>>, mut rows: Vec<Vec<Pass<B, SeatView<B>>>>)
    requires size { (1 ≤ length workers.old.items) × (length workers.old.items ≤ SEATS) × (length rows.items ≡ length workers.old.items) }
    requires workers { All (λ w. IsOwner w × (own_parts w ≡ SEATS + 1 - length workers.old.items)) workers.old.items }
    requires rows { Numbered (λ k r. IsUsedRow (map (λ w. worker_deque w) workers.old.items) k r.items) 1 (reverse rows.items) }
    ensures whole { All (λ w. IsOwner w × (own_parts w ≡ SEATS)) workers.new.items }
    ensures offered { map own_offered workers.new.items ≡ map own_offered workers.old.items }
    ensures taken { IsPermutation (flat_map own_taken workers.old.items ++ flat_map (λ r. flat_map pass_taken r.items) rows.items) (flat_map own_taken workers.new.items) }
{
    while let Some(passes) = rows.pop() {
        absorbed(workers, passes);
    }
}

// No more was taken from a deque than was offered to it.
pub(super) fn learned<B: Drop>(workers: &mut Vec<Own<B>>)
    requires whole { All (λ w. IsOwner w × (own_parts w ≡ SEATS)) workers.old.items }
    ensures same { map (λ w. worker_view w) workers.new.items ≡ map (λ w. worker_view w) workers.old.items }
    ensures whole { All (λ w. IsOwner w × (own_parts w ≡ SEATS) × (length (own_taken w) ≤ length (own_offered w))) workers.new.items }
{
    for at in 0..workers.len() {
        let _held = workers[at].len_as::<Holding>();
    }
}

// Takes all that the deques have left.
pub(super) fn emptied<B: Drop>(mut workers: Vec<Own<B>>, left: &mut Vec<B>)
    requires whole { All (λ w. IsOwner w × (own_parts w ≡ SEATS) × (length (own_taken w) ≤ length (own_offered w))) workers.items }
    requires room { sum_by (λ w. length (own_offered w)) workers.items + length left.old.items ≤ sum_by (λ w. length (own_taken w)) workers.items + vec_capacity left.old }
    ensures { IsPermutation (flat_map own_offered workers.items ++ left.old.items) (left.new.items ++ flat_map own_taken workers.items) }
{
    while let Some(own) = workers.pop() {
        drained(own, left);
    }
}

// Takes seats in the order of their numbers apart, into workers and rows, the rows last first.
pub(super) fn parted<B: Drop>(
    pool: &Pool<B>,
    mut seats: Vec<Seat<B>>,
    mut workers: Vec<Own<B>>,
    mut rows: Vec<Vec<Pass<B, SeatView<B>>>>,
) -> (Vec<Own<B>>, Vec<Vec<Pass<B, SeatView<B>>>>)
    requires seats { All (λ s. IsSeatOf pool.now s) seats.items × Numbered (λ k s. s.number ≡ k) 1 seats.items × (length seats.items ≡ length pool.now.deques) }
    requires empty { (workers.items ≡ []) × (rows.items ≡ []) }
    requires room { (length seats.items ≤ vec_capacity workers) × (length seats.items ≤ vec_capacity rows) }
    ensures workers { (map (λ w. worker_deque w) result.0.items ≡ pool.now.deques) × All (λ w. IsOwner w × (own_parts w ≡ SEATS + 1 - length pool.now.deques)) result.0.items }
    ensures rows { Numbered (λ k r. IsUsedRow pool.now.deques k r.items) 1 (reverse result.1.items) }
    ensures lengths { (length result.0.items ≡ length pool.now.deques) × (length result.1.items ≡ length pool.now.deques) }
    ensures offered { map (λ s. s.offered) seats.items ≡ map own_offered result.0.items }
    ensures taken { IsPermutation (taken_by seats.items) (flat_map own_taken result.0.items ++ flat_map (λ r. flat_map pass_taken r.items) result.1.items) }
{
    while let Some(seat) = seats.pop() {
        let Seat { own, passes, .. } = seat;
        workers.push_reserved(own);
        rows.push_reserved(passes);
    }
    workers.reverse();
    (workers, rows)
}
