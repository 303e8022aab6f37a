//! What one searcher of a team has.
ghost use Rattle.std.specs.Prelude.{◌≡◌, ◌≤◌, ◌+◌, IsTrue, vec_len, vec_capacity};

use branch_pool::Seat;
use cayley::FoundCell;
use searcher::{Branch, HaltCause};

/// One searcher: its number, its seat, the branches in its hand, what it found, how many cells it solved and expanded, and why it halted.
#[derive(Drop)]
pub struct Job {
    pub number: u32,
    pub seat: Seat<Branch>,
    pub hand: Vec<Branch>,
    pub found: Vec<FoundCell>,
    pub solves: u64,
    pub expansions: u64,
    pub report: Option<HaltCause>,
}

/// Room for two branches in the hand and for a found cell.
pub fn has_room(job: &mut Job) -> bool
    ensures same { (job.new.number ≡ job.old.number) × (job.new.seat ≡ job.old.seat) × (job.new.hand.items ≡ job.old.hand.items) × (job.new.found.items ≡ job.old.found.items) × (job.new.solves ≡ job.old.solves) × (job.new.report ≡ job.old.report) }
    ensures room { IsTrue result → (vec_len job.new.hand + 2 ≤ vec_capacity job.new.hand) × (vec_len job.new.found + 1 ≤ vec_capacity job.new.found) }
{
    job.hand.reserve(2).is_ok() && job.found.reserve(1).is_ok()
}
