//! The rule that each deque of a pool keeps, and the steps on it.
ghost use Rattle.std.specs.Prelude.{ℕ};

use crossbeam_deque::protocol::{Join, Lesson, Outcome, Protocol, Split};
use std::collections::LinkedList;
use std::marker::{Brand, PhantomData};

/// The greatest number of seats of a pool. The views of a deque have as many parts together.
pub const SEATS: u32 = 64;

/// What a deque's rule keeps of one seat: how many seats the pool has, what this one offered to the deque and took from it, and how many of the
/// [`SEATS`] parts it has. A view with all parts knows all that was offered and taken. Views exist in proofs alone.
pub struct SeatView<B> {
    pub seats: u64,
    pub parts: u64,
    pub offered: LinkedList<B>,
    pub taken: LinkedList<B>,
}

/// The pool rule. A deque begins with its own seat's view, which has all parts; the guest is a view without one.
pub struct PoolRule;

impl<B> Protocol<B, SeatView<B>> for PoolRule {
    ghost use Rattle.std.specs.Prelude.{[]};
    ghost use Rattle.branch_pool.specs.Rule.{view_of, IsBalanced};
    ghost use Rattle.branch_pool.specs.declared.rule.TheConstants.{SEATS};

    ghost holds = { IsBalanced };

    ghost first = { view_of 0 SEATS [] [] };

    ghost guest = { view_of 0 0 [] [] };
}

/// A number of seats, which a proof picks where a pool is made.
pub trait Size {
    ghost seats: { ℕ };
}

impl Size for Brand {
    ghost seats = { 0 };
}

/// The deque of a new pool learns the number of seats. A spent view comes off.
pub struct Settle<N> {
    of: PhantomData<N>,
}

impl<B, N: Size> Split<SeatView<B>> for Settle<N> {
    ghost use Rattle.std.specs.Prelude.{[]};
    ghost use Rattle.branch_pool.specs.Rule.{view_of};

    ghost left = { λ v. view_of N.seats v.parts v.offered v.taken };

    ghost right = { λ v. view_of 0 0 [] [] };
}

/// A part goes to another seat, which has offered and taken nothing yet.
pub struct Deal;

impl<B> Split<SeatView<B>> for Deal {
    ghost use Rattle.std.specs.Prelude.{[], ◌-◌};
    ghost use Rattle.branch_pool.specs.Rule.{view_of};

    ghost left = { λ v. view_of v.seats (v.parts - 1) v.offered v.taken };

    ghost right = { λ v. view_of v.seats 1 [] [] };
}

/// One view takes the lists and parts of another, which is spent.
pub struct Gather;

impl<B> Join<SeatView<B>> for Gather {
    ghost use Rattle.std.specs.Prelude.{[], ◌+◌, ◌++◌};
    ghost use Rattle.branch_pool.specs.Rule.{view_of};

    ghost both = { λ v w. view_of v.seats (v.parts + w.parts) (v.offered ++ w.offered) (v.taken ++ w.taken) };

    ghost spent = { view_of 0 0 [] [] };
}

/// A branch is offered.
pub struct Offering;

impl<B> Outcome<B, SeatView<B>> for Offering {
    ghost use Rattle.std.specs.Prelude.{[], ◌∷◌, ◌++◌, ◌≡◌};
    ghost use Rattle.branch_pool.specs.Rule.{view_of};

    ghost then = { λ v xs w. w ≡ view_of v.seats v.parts (v.offered ++ xs) v.taken };
}

/// The seat takes the newest branch of its own deque; none, where the deque is empty.
pub struct Taking;

impl<B> Outcome<B, SeatView<B>> for Taking {
    ghost use Rattle.std.specs.Prelude.{[], ◌≡◌, ◌++◌, List, IsPermutation};
    ghost use Rattle.branch_pool.specs.Rule.{view_of, HoldsAtMost};

    ghost then = { λ v xs w. (w ≡ view_of v.seats v.parts v.offered (v.taken ++ xs)) × ((rest : List B) × IsPermutation v.offered (v.taken ++ (xs ++ rest))) };

    ghost empty = { λ v. HoldsAtMost 0 0 v };
}

/// The seat takes the oldest branch of another's deque; none, where that deque holds at most one.
pub struct Stealing;

impl<B> Outcome<B, SeatView<B>> for Stealing {
    ghost use Rattle.std.specs.Prelude.{◌≡◌, ◌++◌, ℕ};
    ghost use Rattle.branch_pool.specs.Rule.{view_of, HoldsAtMost};

    ghost then = { λ v xs w. w ≡ view_of v.seats v.parts v.offered (v.taken ++ xs) };

    ghost empty = { λ v. (place : ℕ) × HoldsAtMost 1 place v };
}

/// Who has all parts knows what the deque holds.
pub struct Holding;

impl<B> Lesson<B, SeatView<B>> for Holding {
    ghost use Rattle.std.specs.Prelude.{◌++◌, ◌≡◌, IsPermutation};
    ghost use Rattle.branch_pool.specs.declared.rule.TheConstants.{SEATS};

    ghost fact = { λ v items. v.parts ≡ SEATS → IsPermutation v.offered (items ++ v.taken) };
}
