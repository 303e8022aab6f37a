//! The pool and its seats.
ghost use Rattle.std.specs.Prelude.{◌≡◌, ◌≢◌, ◌<◌, ◌≤◌, ◌↔◌, ◌++◌, ◌∷◌, [], List, ℕ, IfErr, IfSome, IsNone, OnOk, IsPermutation, length};
ghost use Rattle.crossbeam_deque.specs.Handles.{view, IsPassOf, SamePass, stealer_deque, stealer_flavor};
ghost use Rattle.branch_pool.specs.Rule.{view_of, HoldsAtMost};
ghost use Rattle.branch_pool.specs.Seats.{IsSeatOf, taken_from, all_taken, with_offered, with_taken, own_view, other_view};

mod closing;
mod gathering;
mod opening;

use crate::rule::{Offering, PoolRule, SeatView, Stealing, Taking};
pub use closing::{Tally, Unclosed};
use crossbeam_deque::{Pass, Steal, Stealer, Worker};
use std::alloc::Global;
use std::marker::Model;
use std::sync::Wait;

// A seat's own end of its deque.
type Own<B> = Worker<B, Global, SeatView<B>, PoolRule>;

// What the other seats steal by.
type Other<B> = Stealer<B, Global, SeatView<B>, PoolRule>;

/// The deques of 1 to [`SEATS`](crate::SEATS) seats, of which each seat takes from all. Contracts see which deques they are, that of seat 1 first.
#[derive(Drop)]
pub struct Pool<B> {
    stealers: Vec<Other<B>>,
}

impl<B> Model for Pool<B> {
    ghost use Rattle.std.specs.Prelude.{◌≡◌, ◌≤◌, map, length};
    ghost use Rattle.std.specs.List.{All};
    ghost use Rattle.branch_pool.specs.declared.rule.TheConstants.{SEATS};
    ghost use Rattle.branch_pool.specs.Seats.{PoolData};
    ghost use Rattle.crossbeam_deque.specs.Handles.{stealer_deque, stealer_flavor};

    ghost Value = { PoolData };

    ghost view = { λ p. record { deques = map (λ s. stealer_deque s) p.stealers.items } };

    ghost invariant = { λ p. All (λ s. stealer_flavor s ≡ 1) p.stealers.items × (1 ≤ length p.stealers.items) × (length p.stealers.items ≤ SEATS) };
}

/// One searcher's place at a pool, with a deque of its own. Contracts see its number from 1, the pool's deques, the list of what it offered, and
/// for each deque the list of what it took from it. It has offered at most 2^64 - 1 branches.
#[derive(Drop)]
pub struct Seat<B> {
    number: u32,
    offered: u64,
    taken: u64,
    own: Own<B>,
    passes: Vec<Pass<B, SeatView<B>>>,
}

impl<B> Model for Seat<B> {
    ghost use Rattle.std.specs.Prelude.{◌≡◌, List, ◌<◌, ◌≤◌, ◌-◌, ◌+◌, ◌^◌, [], None, map, length, min, slice_index_or};
    ghost use Rattle.std.specs.List.{All, flat_map};
    ghost use Rattle.branch_pool.specs.declared.rule.TheConstants.{SEATS};
    ghost use Rattle.branch_pool.specs.Seats.{SeatData};
    ghost use Rattle.branch_pool.specs.Parts.{row, taken_with, IsOwner};
    ghost use Rattle.crossbeam_deque.specs.Handles.{worker_deque, worker_view};

    ghost Value = { SeatData B };

    ghost view = { λ s. record { number = s.number; deques = map (λ p. (p.rows, p.heap)) s.passes.items; offered = (worker_view s.own).offered; taken = taken_with s.number (worker_view s.own).taken (map (λ p. p.me.view.client.taken) s.passes.items) } };

    ghost invariant = { λ s. (1 ≤ s.number) × (s.number ≤ length s.passes.items) × (length s.passes.items ≤ SEATS) × IsOwner s.own × ((worker_view s.own).parts ≡ SEATS + 1 - length s.passes.items)
        × (s.offered ≡ length (worker_view s.own).offered)
        × All (λ p. (p.me.hand ≡ None) × (p.me.spare ≡ None) × (p.me.view.client.offered ≡ [])) s.passes.items
        × (map (λ p. p.me.view.client.parts) s.passes.items ≡ row s.number (length s.passes.items))
        × (s.taken ≡ min (length (flat_map (λ l. l) (taken_with s.number (worker_view s.own).taken (map (λ p. p.me.view.client.taken) s.passes.items)))) (2 ^ 64 - 1))
        × (slice_index_or (map (λ p. (p.rows, p.heap)) s.passes.items) (s.number - 1) (worker_deque s.own) ≡ worker_deque s.own)
        × (slice_index_or (map (λ p. p.me.view.client.taken) s.passes.items) (s.number - 1) [] ≡ [])
        × ((worker_view s.own).seats ≡ length s.passes.items)
        × All (λ p. 0 < p.me.view.client.parts → p.me.view.client.seats ≡ length s.passes.items) s.passes.items };
}

impl<B: Drop> Pool<B> {
    /// Puts a branch at the back of the seat's own deque. Where there is no memory, or the seat has offered 2^64 - 1 branches already, the branch
    /// comes back and nothing changes. The deque takes memory from the allocator that the pool was made with.
    pub fn offer(&self, seat: &mut Seat<B>, branch: B) -> Result<(), B>
        requires { IsSeatOf self.now seat.old }
        ensures done { OnOk result (seat.new ≡ with_offered seat.old branch) }
        ensures refused { IfErr result (λ b. (b ≡ branch) × (seat.new ≡ seat.old)) }
        ensures same { (seat.new.number ≡ seat.old.number) × (seat.new.deques ≡ seat.old.deques) }
    {
        if seat.offered == u64::MAX {
            return Err(branch);
        }
        seat.own.push_as::<Offering>(branch)?;
        seat.offered += 1;
        Ok(())
    }

    /// Takes the newest branch of the seat's own deque; `None` where the deque was empty at a moment of this call. In a pool of one seat that is
    /// where the seat has taken all that it offered.
    pub fn take(&self, seat: &mut Seat<B>) -> Option<B>
        requires { IsSeatOf self.now seat.old }
        ensures some { IfSome result (λ b. seat.new ≡ with_taken seat.old seat.old.number b) }
        ensures none { IsNone result → seat.new ≡ seat.old }
        ensures taken { IfSome result (λ b. IsPermutation (b ∷ all_taken seat.old) (all_taken seat.new)) }
        ensures same { (seat.new.number ≡ seat.old.number) × (seat.new.deques ≡ seat.old.deques) }
        ensures held { IfSome result (λ b. (rest : List B) × IsPermutation seat.old.offered (taken_from seat.old seat.old.number ++ b ∷ rest)) }
        ensures empty { IsNone result → HoldsAtMost 0 0 (own_view seat.old) }
        ensures part { IsNone result → (rest : List B) × IsPermutation seat.old.offered (taken_from seat.old seat.old.number ++ rest) }
        ensures alone { length seat.old.deques ≡ 1 → IsNone result ↔ IsPermutation seat.old.offered (all_taken seat.old) }
    {
        let newest = seat.own.pop_as::<Taking>()?;
        seat.taken = seat.taken.saturating_add(1);
        Some(newest)
    }

    /// Takes the oldest branch of another seat's deque; `None` where that deque held at most one branch at a moment of this call, which may be on
    /// its way to the deque's own seat. A step that another seat has overtaken is tried again within the call.
    pub fn steal<R: Wait>(&self, rt: &R, seat: &mut Seat<B>, from: u32) -> Option<B>
        requires own { IsSeatOf self.now seat.old }
        requires place { (1 ≤ from) × (from ≤ length self.now.deques) × (from ≢ seat.old.number) }
        ensures some { IfSome result (λ b. seat.new ≡ with_taken seat.old from b) }
        ensures none { IsNone result → seat.new ≡ seat.old }
        ensures taken { IfSome result (λ b. IsPermutation (b ∷ all_taken seat.old) (all_taken seat.new)) }
        ensures same { (seat.new.number ≡ seat.old.number) × (seat.new.deques ≡ seat.old.deques) }
        ensures few { IsNone result → (place : ℕ) × HoldsAtMost 1 place (other_view seat.old from) }
    {
        let at = from as usize - 1;
        let stealer = &self.stealers[at];
        let oldest = stolen(rt, stealer, &mut seat.passes[at])?;
        seat.taken = seat.taken.saturating_add(1);
        Some(oldest)
    }
}

// The oldest branch of a deque, by a pass of it.
fn stolen<B: Drop, R: Wait>(
    rt: &R,
    stealer: &Other<B>,
    pass: &mut Pass<B, SeatView<B>>,
) -> Option<B>
    requires { IsPassOf (stealer_deque stealer.now) pass.old × (0 < (view pass.old).parts) × ((view pass.old).seats ≢ 1) × (stealer_flavor stealer.now ≡ 1) }
    ensures same { SamePass pass.old pass.new }
    ensures rest { ((view pass.new).seats ≡ (view pass.old).seats) × ((view pass.new).parts ≡ (view pass.old).parts) × ((view pass.new).offered ≡ (view pass.old).offered) }
    ensures some { IfSome result (λ b. view pass.new ≡ view_of (view pass.old).seats (view pass.old).parts (view pass.old).offered ((view pass.old).taken ++ b ∷ [])) }
    ensures none { IsNone result → view pass.new ≡ view pass.old }
    ensures few { IsNone result → (place : ℕ) × HoldsAtMost 1 place (view pass.old) }
{
    for _ in rt.forever() {
        match stealer.steal_as::<Stealing>(pass) {
            Steal::Success(branch) => return Some(branch),
            Steal::Empty => return None,
            Steal::Retry => {}
        }
    }
    unreachable!()
}
