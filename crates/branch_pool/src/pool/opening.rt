//! A new pool: deques, and a seat for each.
ghost use Rattle.std.specs.Prelude.{◌≡◌, ◌<◌, ◌≤◌, ◌-◌, ◌+◌, [], IfOk, length, slice_index_or, map, vec_capacity, None, cond, ◌==◌};
ghost use Rattle.std.specs.List.{All, range_with_len};
ghost use Rattle.crossbeam_deque.specs.Handles.{view, IsPassOf, stealer_deque, stealer_flavor, worker_deque, worker_view, worker_flavor, worker_port};
ghost use Rattle.branch_pool.specs.declared.rule.TheConstants.{SEATS};
ghost use Rattle.branch_pool.specs.Rule.{view_of};
ghost use Rattle.branch_pool.specs.Seats.{AreAllSeats, all_taken, fresh_seat, fresh_seats};
ghost use Rattle.branch_pool.specs.Parts.{worker_views, pass_views, keeps, Numbered, IsRow, IsOwner};

use super::{Other, Own, Pool, Seat};
use crate::rule::{Deal, SeatView, Settle, Size};
use crossbeam_deque::{Pass, Worker};
use std::alloc::{AllocError, Global};
use std::marker::Brand;
use wide_int::OutOfMemory;

impl<B: Drop> Pool<B> {
    /// A pool with an empty deque for each of 1 to [`SEATS`](crate::SEATS) seats, and the seats, from number 1 on.
    pub fn new(alloc: Global, seats: u32) -> Result<(Pool<B>, Vec<Seat<B>>), OutOfMemory>
        requires { (1 ≤ seats) × (seats ≤ SEATS) }
        ensures pool { IfOk result (λ r. length r.0.deques ≡ seats) }
        ensures fresh { IfOk result (λ r. r.1.items ≡ fresh_seats r.0 seats) }
        ensures all { IfOk result (λ r. AreAllSeats r.0 r.1.items) }
        ensures empty { IfOk result (λ r. All (λ s. (s.offered ≡ []) × (all_taken s ≡ [])) r.1.items) }
    {
        match opened(alloc, seats) {
            Ok(both) => Ok(both),
            Err(_) => Err(OutOfMemory),
        }
    }
}

// A pool of this many seats.
fn opened<B: Drop>(alloc: Global, seats: u32) -> Result<(Pool<B>, Vec<Seat<B>>), AllocError>
    requires { (1 ≤ seats) × (seats ≤ SEATS) }
    ensures pool { IfOk result (λ r. length r.0.deques ≡ seats) }
    ensures fresh { IfOk result (λ r. r.1.items ≡ fresh_seats r.0 seats) }
{
    let count = seats as usize;
    let mut rows = Vec::with_capacity(alloc, count)?;
    let list = Vec::with_capacity(alloc, count)?;
    let (mut workers, stealers) = made(alloc, count)?;
    for number in 1..seats + 1 {
        rows.push_reserved(dealt_row(alloc, number, &mut workers, &stealers)?);
    }
    let list = seated(workers, rows, list);
    Ok((Pool { stealers }, list))
}

// The deques, all empty, and their stealers.
fn made<B: Drop>(alloc: Global, count: usize) -> Result<(Vec<Own<B>>, Vec<Other<B>>), AllocError>
    requires { count ≤ SEATS }
    ensures deques { IfOk result (λ r. map (λ s. stealer_deque s) r.1.items ≡ map (λ w. worker_deque w) r.0.items) }
    ensures views { IfOk result (λ r. (length r.0.items ≡ count) × (map (λ w. worker_view w) r.0.items ≡ worker_views count 0 0 count)) }
    ensures flavors { IfOk result (λ r. All (λ w. IsOwner w) r.0.items × All (λ s. stealer_flavor s ≡ 1) r.1.items) }
{
    let mut workers = Vec::with_capacity(alloc, count)?;
    let mut stealers = Vec::with_capacity(alloc, count)?;
    for _turn in 0..count {
        let mut worker = Worker::lifo_as(alloc, 64)?;
        settled::<B, Brand>(&mut worker, count);
        stealers.push_reserved(worker.stealer()?);
        workers.push_reserved(worker);
    }
    Ok((workers, stealers))
}

// Tells a new deque how many seats there are.
fn settled<B: Drop, N: Size>(worker: &mut Own<B>, _seats: usize)
    requires { (N.seats ≡ _seats) × IsOwner worker.old × (worker_view worker.old ≡ view_of 0 SEATS [] []) }
    ensures same { (worker_deque worker.new ≡ worker_deque worker.old) × (worker_flavor worker.new ≡ worker_flavor worker.old) × (worker_port worker.new ≡ worker_port worker.old) }
    ensures view { worker_view worker.new ≡ view_of _seats SEATS [] [] }
{
    let _spent = worker.another::<Settle<N>>();
}

// One pass of a seat, for the deque at `at`.
fn dealt<B: Drop>(
    number: u32,
    at: usize,
    worker: &mut Own<B>,
    stealer: &Other<B>,
) -> Pass<B, SeatView<B>>
    requires place { (1 ≤ number) × (number ≤ SEATS) × (at < SEATS) }
    requires deque { stealer_deque stealer.now ≡ worker_deque worker.old }
    requires view { worker_view worker.old ≡ view_of (worker_view worker.old).seats (keeps (number - 1) at (at + 1)) [] [] }
    ensures same { (worker_deque worker.new ≡ worker_deque worker.old) × (worker_flavor worker.new ≡ worker_flavor worker.old) × (worker_port worker.new ≡ worker_port worker.old) }
    ensures left { worker_view worker.new ≡ view_of (worker_view worker.old).seats (keeps (number - 1) (at + 1) (at + 1)) [] [] }
    ensures pass { IsPassOf (worker_deque worker.old) result × (view result ≡ view_of (cond (at + 1 == number) 0 (worker_view worker.old).seats) (cond (at + 1 == number) 0 1) [] []) }
{
    if at + 1 == number as usize {
        stealer.pass()
    } else {
        worker.another::<Deal>()
    }
}

// The passes of one seat: one with a part for each other deque, and one with none for its own.
fn dealt_row<B: Drop>(
    alloc: Global,
    number: u32,
    workers: &mut Vec<Own<B>>,
    stealers: &Vec<Other<B>>,
) -> Result<Vec<Pass<B, SeatView<B>>>, AllocError>
    requires place { (1 ≤ number) × (number ≤ length workers.old.items) × (length workers.old.items ≤ SEATS) }
    requires deques { map (λ s. stealer_deque s) stealers.now.items ≡ map (λ w. worker_deque w) workers.old.items }
    requires views { map (λ w. worker_view w) workers.old.items ≡ worker_views (length workers.old.items) (number - 1) 0 (length workers.old.items) }
    requires flavor { All (λ w. IsOwner w) workers.old.items }
    ensures workers { IfOk result (λ ps. (map (λ w. worker_deque w) workers.new.items ≡ map (λ w. worker_deque w) workers.old.items) × (map (λ w. worker_view w) workers.new.items ≡ worker_views (length workers.old.items) (number - 1) (length workers.old.items) (length workers.old.items)) × All (λ w. IsOwner w) workers.new.items) }
    ensures passes { IfOk result (λ ps. (map (λ p. (p.rows, p.heap)) ps.items ≡ map (λ w. worker_deque w) workers.old.items) × (map (λ p. view p) ps.items ≡ pass_views (length workers.old.items) number (length workers.old.items)) × All (λ p. (p.me.hand ≡ None) × (p.me.spare ≡ None)) ps.items) }
{
    let count = workers.len();
    let mut passes = Vec::with_capacity(alloc, count)?;
    for at in 0..count {
        passes.push_reserved(dealt(number, at, &mut workers[at], &stealers[at]));
    }
    Ok(passes)
}

// Puts workers and rows together to seats, into an empty list with room for them.
fn seated<B: Drop>(
    mut workers: Vec<Own<B>>,
    mut rows: Vec<Vec<Pass<B, SeatView<B>>>>,
    mut list: Vec<Seat<B>>,
) -> Vec<Seat<B>>
    requires workers { All (λ w. IsOwner w × (worker_view w ≡ view_of (length workers.items) (SEATS + 1 - length workers.items) [] [])) workers.items }
    requires size { (length workers.items ≤ SEATS) × (length rows.items ≡ length workers.items) }
    requires rows { Numbered (λ k r. IsRow (map (λ w. worker_deque w) workers.items) k r.items) 1 rows.items }
    requires room { (list.items ≡ []) × (length workers.items ≤ vec_capacity list) }
    ensures { result.items ≡ map (λ k. fresh_seat (map (λ w. worker_deque w) workers.items) k) (range_with_len 1 (length workers.items)) }
{
    while let Some(own) = workers.pop() {
        let Some(passes) = rows.pop() else {
            unreachable!()
        };
        let number = workers.len() as u32 + 1;
        list.push_reserved(Seat {
            number,
            offered: 0,
            taken: 0,
            own,
            passes,
        });
    }
    list.reverse();
    list
}
