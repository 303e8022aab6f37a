//! One searcher at work.
ghost use Rattle.std.specs.Prelude.{◌≡◌, ◌⊎◌, ◌<◌, ◌≤◌, ◌+◌, [], ◌∷◌, ◌++◌, IfSome, IsNone, IsTrue, IsPermutation, Contains, length, vec_len, vec_capacity};
ghost use Rattle.cayley.specs.Problems.{IsStill};
ghost use Rattle.branch_pool.specs.declared.rule.TheConstants.{SEATS};
ghost use Rattle.branch_pool.specs.Seats.{IsSeatOf, all_taken};
ghost use Rattle.searcher.specs.Branches.{children_of};
ghost use Rattle.searcher.specs.Searches.{opened, found_in};
ghost use Rattle.search_team.specs.Searchers.{IsJob};
ghost use Rattle.search_team.specs.Walkers.{IsWalker, IsWorker};

use crate::jobs::{Job, has_room};
use crate::progress::Progress;
use crate::steps::count_after;
use crate::walkers::{Taken, Walker};
use branch_pool::{Pool, Seat};
use cayley::Problem;
use crossbeam_utils::Backoff;
use edge_io::Gate;
use searcher::{Branch, Children, Expansion, HaltCause, Walk};
use std::alloc::Global;
use std::snapshot::Snapshot;
use std::sync::Wait;

// The oldest branch of the first of these seats that has one; the seat's own isn't among them.
fn stolen<R: Wait>(
    rt: &R,
    pool: &Pool<Branch>,
    seat: &mut Seat<Branch>,
    first: u32,
    end: u32,
) -> Option<Branch>
    requires own { IsSeatOf pool.now seat.old }
    requires range { (1 ≤ first) × (end ≤ length pool.now.deques + 1) × ((seat.old.number < first) ⊎ (end ≤ seat.old.number)) }
    ensures some { IfSome result (λ b. IsPermutation (b ∷ all_taken seat.old) (all_taken seat.new)) }
    ensures none { IsNone result → seat.new ≡ seat.old }
    ensures same { (seat.new.number ≡ seat.old.number) × (seat.new.deques ≡ seat.old.deques) × (seat.new.offered ≡ seat.old.offered) }
{
    for from in first..end {
        if let Some(branch) = pool.steal(rt, seat, from) {
            return Some(branch);
        }
    }
    None
}

// The newest branch of the own deque, else the oldest of another, beginning behind the own one.
fn next<R: Wait>(
    rt: &R,
    pool: &Pool<Branch>,
    searchers: u32,
    number: u32,
    seat: &mut Seat<Branch>,
) -> Option<Taken>
    requires own { IsSeatOf pool.now seat.old }
    requires seats { (searchers ≡ length pool.now.deques) × (searchers ≤ SEATS) }
    requires number { (seat.old.number ≡ number) × (number ≤ searchers) }
    ensures some { IfSome result (λ t. IsPermutation (t.branch ∷ all_taken seat.old) (all_taken seat.new)) }
    ensures own { IfSome result (λ t. IsTrue t.own → Contains seat.old.offered t.branch) }
    ensures none { IsNone result → seat.new ≡ seat.old }
    ensures same { (seat.new.number ≡ seat.old.number) × (seat.new.deques ≡ seat.old.deques) × (seat.new.offered ≡ seat.old.offered) }
{
    if let Some(branch) = pool.take(seat) {
        return Some(Taken { branch, own: true });
    }
    if let Some(branch) = stolen(rt, pool, seat, number + 1, searchers + 1) {
        return Some(Taken { branch, own: false });
    }
    let branch = stolen(rt, pool, seat, 1, number)?;
    Some(Taken { branch, own: false })
}

// Offers a branch; one that is handed back goes to the hand.
fn put(pool: &Pool<Branch>, seat: &mut Seat<Branch>, hand: &mut Vec<Branch>, branch: Branch) -> bool
    requires own { IsSeatOf pool.now seat.old }
    requires room { vec_len hand.old + 1 ≤ vec_capacity hand.old }
    ensures done { IsTrue result → (seat.new ≡ record seat.old { offered = seat.old.offered ++ branch ∷ [] }) × (hand.new ≡ hand.old) }
    ensures kept { ¬ (IsTrue result) → (seat.new ≡ seat.old) × (hand.new.items ≡ hand.old.items ++ branch ∷ []) }
    ensures same { (seat.new.number ≡ seat.old.number) × (seat.new.deques ≡ seat.old.deques) }
    ensures room { (vec_len hand.new ≤ vec_len hand.old + 1) × (vec_capacity hand.new ≡ vec_capacity hand.old) }
{
    match pool.offer(seat, branch) {
        Ok(()) => true,
        Err(branch) => {
            hand.push_reserved(branch);
            false
        }
    }
}

// Offers the children in order; from the first that is handed back they stay in the hand.
fn put_all(
    pool: &Pool<Branch>,
    progress: &Progress,
    seat: &mut Seat<Branch>,
    hand: &mut Vec<Branch>,
    children: Children,
) -> bool
    requires own { IsSeatOf pool.now seat.old }
    requires room { vec_len hand.old + 2 ≤ vec_capacity hand.old }
    requires empty { hand.old.items ≡ [] }
    ensures outs { seat.new.offered ++ hand.new.items ≡ seat.old.offered ++ children_of children }
    ensures taken { all_taken seat.new ≡ all_taken seat.old }
    ensures same { (seat.new.number ≡ seat.old.number) × (seat.new.deques ≡ seat.old.deques) }
    ensures all { IsTrue result → hand.new.items ≡ [] }
{
    match children {
        Children::None => {
            progress.closed();
            true
        }
        Children::One(first) => put(pool, seat, hand, first),
        Children::Two(first, second) => {
            progress.opened();
            if put(pool, seat, hand, first) {
                put(pool, seat, hand, second)
            } else {
                hand.push_reserved(second);
                false
            }
        }
    }
}

// Puts away what an expansion gave. False where a child was handed back.
fn settled(pool: &Pool<Branch>, progress: &Progress, job: &mut Job, expansion: Expansion) -> bool
    requires own { IsSeatOf pool.now job.old.seat }
    requires room { (vec_len job.old.hand + 2 ≤ vec_capacity job.old.hand) × (vec_len job.old.found + 1 ≤ vec_capacity job.old.found) }
    requires empty { job.old.hand.items ≡ [] }
    ensures outs { job.new.seat.offered ++ job.new.hand.items ≡ job.old.seat.offered ++ opened expansion }
    ensures found { job.new.found.items ≡ job.old.found.items ++ found_in expansion }
    ensures taken { all_taken job.new.seat ≡ all_taken job.old.seat }
    ensures same { (job.new.number ≡ job.old.number) × (job.new.seat.number ≡ job.old.seat.number) × (job.new.seat.deques ≡ job.old.seat.deques) × (job.new.solves ≡ job.old.solves) × (job.new.report ≡ job.old.report) }
    ensures all { IsTrue result → job.new.hand.items ≡ [] }
{
    match expansion {
        Expansion::Inner { children } => {
            put_all(pool, progress, &mut job.seat, &mut job.hand, children)
        }
        Expansion::Target(found) => {
            job.found.push_reserved(found);
            progress.closed();
            true
        }
        Expansion::Endless => {
            progress.closed();
            true
        }
        Expansion::Stranger { branch: _stranger } => {
            progress.closed();
            true
        }
    }
}

// One turn of a searcher. False where it is done.
fn turn<G: Gate, R: Wait>(
    rt: &R,
    alloc: Global,
    problem: &Problem,
    gate: &G,
    pool: &Pool<Branch>,
    searchers: u32,
    given: &Snapshot<Vec<Branch>>,
    progress: &Progress,
    backoff: &Backoff,
    walker: &mut Walker,
    job: &mut Job,
) -> bool
    requires still { IsStill problem.now }
    requires seats { (searchers ≡ length pool.now.deques) × (searchers ≤ SEATS) }
    requires job { IsJob problem.now pool.now given.now.value.items job.old }
    requires walker { IsWalker problem.now job.old.seat.offered walker.old }
    ensures job { IsJob problem.now pool.now given.now.value.items job.new }
    ensures walker { IsWalker problem.now job.new.seat.offered walker.new }
    ensures number { job.new.number ≡ job.old.number }
{
    // A problem is valid by its type, as its readers tell.
    let _dim = problem.dim();
    if job.report.is_some() || progress.is_halted() {
        return false;
    }
    if !has_room(job) {
        job.report = Some(HaltCause::OutOfMemory);
        progress.halt();
        return false;
    }
    let Some(taken) = next(rt, pool, searchers, job.number, &mut job.seat) else {
        if progress.is_done() {
            return false;
        }
        backoff.snooze();
        return true;
    };
    backoff.reset();
    job.expansions = job.expansions.saturating_add(1);
    gate.pass(rt, job.number, job.expansions);
    let solves = count_after(problem, &taken.branch, job.solves);
    match walker.expanded(alloc, problem, taken) {
        Ok(expansion) => {
            job.solves = solves;
            if !settled(pool, progress, job, expansion) {
                job.report = Some(HaltCause::OutOfMemory);
                progress.halt();
                return false;
            }
            true
        }
        Err(halt) => {
            job.hand.push_reserved(halt.branch);
            job.report = Some(halt.cause);
            progress.halt();
            false
        }
    }
}

/// Lets a searcher take, expand and offer until no branch is open or some searcher halted. It is told whether all given branches begin at the start.
pub fn work<G: Gate, R: Wait>(
    rt: &R,
    alloc: Global,
    problem: &Problem,
    gate: &G,
    pool: &Pool<Branch>,
    searchers: u32,
    given: &Snapshot<Vec<Branch>>,
    progress: &Progress,
    from_start: bool,
    job: &mut Job,
)
    requires still { IsStill problem.now }
    requires seats { (searchers ≡ length pool.now.deques) × (searchers ≤ SEATS) }
    requires job { IsWorker problem.now pool.now given.now.value.items from_start job.old }
    ensures job { IsJob problem.now pool.now given.now.value.items job.new }
    ensures number { job.new.number ≡ job.old.number }
{
    let backoff = Backoff::new();
    let mut walker = Walker {
        walk: Walk::new(problem),
        from_start,
    };
    for _ in rt.forever() {
        if !turn(
            rt,
            alloc,
            problem,
            gate,
            pool,
            searchers,
            given,
            progress,
            &backoff,
            &mut walker,
            job,
        ) {
            return;
        }
    }
    unreachable!()
}
