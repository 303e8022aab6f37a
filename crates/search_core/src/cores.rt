ghost use Rattle.std.specs.Prelude.{◌≡◌, ◌≤◌, ◌↔◌, ◌⊎◌, IsTrue, MatchOption, IfOk, OnOk, OnErr, IfErr, length};
ghost use Rattle.cayley.specs.Problems.{Problem};
ghost use Rattle.cayley.specs.Valid.{IsStillProblem};
ghost use Rattle.search_core.specs.States.{IsSearcher, searcher_at, start_state};
ghost use Rattle.search_core.specs.Events.{IsEnabled, HasEffect, Follows, IsGrowing};
ghost use Rattle.search_core.specs.Contents.{KeepsShare};

use crate::branches::{CoreBranch, CoreOutcome, Hand};
use crate::events::{Event, StepFault};
use crate::searchers::Searcher;
use cayley::Cell;
use std::alloc::Global;
use std::marker::Model;
use wide_int::OutOfMemory;

/// The greatest number of searchers.
pub const MOST_SEARCHERS: u32 = 64;

/// One deque of open branches, one hand and one list of reported cells for each searcher.
///
/// Searchers are numbered from 1. Nothing waits and nothing is shared: an event is one call.
#[derive(Drop)]
pub struct Core {
    searchers: Vec<Searcher>,
}

impl Model for Core {
    ghost use Rattle.std.specs.Prelude.{List};
    ghost use Rattle.search_core.specs.States.{State};

    ghost Value = { State };

    ghost view = { λ c. c.searchers.items };
}

impl Core {
    /// The core of this many searchers, at least 1: the branch stands in the deque of searcher 1,
    /// and all else is empty.
    ///
    /// Whatever events come, as long as each expansion is true, the reported cells together with
    /// the shares of all open branches stay the branch's share (after the reverse search of Avis
    /// and Fukuda 1996). Once nothing is open the reported cells are that share.
    pub fn new(alloc: Global, searchers: u32, branch: CoreBranch) -> Result<Core, OutOfMemory>
        requires least { 1 ≤ searchers }
        requires most { searchers ≤ MOST_SEARCHERS }
        ensures start { IfOk result (λ core. core ≡ start_state searchers branch) }
        ensures kept { (p : Problem) → IsStillProblem p → KeepsShare p (start_state searchers branch) branch }
    {
        Core::started(alloc, searchers, branch)
    }

    // The core, searcher by searcher.
    fn started(alloc: Global, searchers: u32, branch: CoreBranch) -> Result<Core, OutOfMemory>
        requires { 1 ≤ searchers }
        ensures { IfOk result (λ core. core ≡ start_state searchers branch) }
    {
        let mut first = Searcher::idle(alloc);
        first.open(branch)?;
        let Ok(mut all) = Vec::with_capacity(alloc, searchers as usize) else {
            return Err(OutOfMemory);
        };
        all.push_reserved(first);
        for _turn in 1..searchers {
            all.push_reserved(Searcher::idle(alloc));
        }
        Ok(Core { searchers: all })
    }

    // The searcher with this number, if there is one.
    fn searcher(&self, s: u32) -> Option<&Searcher>
        ensures { MatchOption result (¬ (IsSearcher self.now s)) (λ x. IsSearcher self.now s × (x.now ≡ searcher_at self.now s)) }
    {
        if 1 <= s && s as usize <= self.searchers.len() {
            Some(&self.searchers[s as usize - 1])
        } else {
            None
        }
    }

    fn can_claim(&self, s: u32) -> bool
        ensures { IsTrue result ↔ IsEnabled self.now (Event.Claim s) }
    {
        match self.searcher(s) {
            Some(own) => own.hand.is_empty() && !own.deque.is_empty(),
            None => false,
        }
    }

    fn can_steal(&self, s: u32, from: u32) -> bool
        ensures { IsTrue result ↔ IsEnabled self.now (Event.Steal s from) }
    {
        match (self.searcher(s), self.searcher(from)) {
            (Some(own), Some(other)) => from != s && own.hand.is_empty() && !other.deque.is_empty(),
            _ => false,
        }
    }

    fn is_enabled(&self, event: &Event) -> bool
        ensures { IsTrue result ↔ IsEnabled self.now event.now }
    {
        match event {
            Event::Claim { searcher } => self.can_claim(*searcher),
            Event::Steal { searcher, from } => self.can_steal(*searcher, *from),
            Event::Expand {
                searcher,
                outcome: _,
            } => match self.searcher(*searcher) {
                Some(own) => own.hand.has_branch(),
                None => false,
            },
            Event::Offer { searcher } => match self.searcher(*searcher) {
                Some(own) => own.hand.has_child(),
                None => false,
            },
            Event::Report { searcher } => match self.searcher(*searcher) {
                Some(own) => own.hand.has_cell(),
                None => false,
            },
        }
    }

    fn claim(&mut self, s: u32)
        requires { IsEnabled self.old (Event.Claim s) }
        ensures { HasEffect (Event.Claim s) self.old self.new }
    {
        self.searchers[s as usize - 1].claim();
    }

    fn steal(&mut self, s: u32, from: u32)
        requires { IsEnabled self.old (Event.Steal s from) }
        ensures { HasEffect (Event.Steal s from) self.old self.new }
    {
        let branch = self.searchers[from as usize - 1].give_oldest();
        self.searchers[s as usize - 1].receive(branch);
    }

    fn expand(&mut self, s: u32, outcome: CoreOutcome)
        requires { IsSearcher self.old s }
        ensures { HasEffect (Event.Expand s outcome) self.old self.new }
    {
        self.searchers[s as usize - 1].expand(outcome);
    }

    fn offer(&mut self, s: u32) -> Result<(), OutOfMemory>
        requires { IsEnabled self.old (Event.Offer s) }
        ensures ok { OnOk result (HasEffect (Event.Offer s) self.old self.new) }
        ensures err { OnErr result (self.new ≡ self.old) }
    {
        self.searchers[s as usize - 1].offer()
    }

    fn report(&mut self, s: u32) -> Result<(), OutOfMemory>
        requires { IsEnabled self.old (Event.Report s) }
        ensures ok { OnOk result (HasEffect (Event.Report s) self.old self.new) }
        ensures err { OnErr result (self.new ≡ self.old) }
    {
        self.searchers[s as usize - 1].report()
    }

    /// One event.
    ///
    /// `NotEnabled` exactly where the event's premise doesn't hold, or a searcher that it names
    /// isn't one. A refusal hands the event back and changes nothing. Only `Offer` and `Report`
    /// take memory.
    pub fn step(&mut self, event: Event) -> Result<(), StepFault>
        ensures done { OnOk result (Follows event self.old self.new) }
        ensures refused { IfErr result (λ fault. ((fault ≡ StepFault.NotEnabled event) ⊎ (fault ≡ StepFault.OutOfMemory event)) × (self.new ≡ self.old)) }
        ensures memory { result ≡ Err (StepFault.OutOfMemory event) → IsGrowing event }
        ensures searchers { length self.new ≡ length self.old }
        ensures not_enabled { result ≡ Err (StepFault.NotEnabled event) ↔ ¬ (IsEnabled self.old event) }
    {
        if !self.is_enabled(&event) {
            return Err(StepFault::NotEnabled(event));
        }
        match event {
            Event::Claim { searcher } => self.claim(searcher),
            Event::Steal { searcher, from } => self.steal(searcher, from),
            Event::Expand { searcher, outcome } => self.expand(searcher, outcome),
            Event::Offer { searcher } => {
                if self.offer(searcher).is_err() {
                    return Err(StepFault::OutOfMemory(Event::Offer { searcher }));
                }
            }
            Event::Report { searcher } => {
                if self.report(searcher).is_err() {
                    return Err(StepFault::OutOfMemory(Event::Report { searcher }));
                }
            }
        }
        Ok(())
    }

    /// The open branches of searcher s, oldest first.
    pub fn deque(&self, s: u32) -> &[CoreBranch]
        requires { IsSearcher self.now s }
        ensures { result.now ≡ (searcher_at self.now s).deque }
    {
        self.searchers[s as usize - 1].deque.as_slice()
    }

    /// What searcher s has in its hand.
    pub fn hand(&self, s: u32) -> &Hand
        requires { IsSearcher self.now s }
        ensures { result.now ≡ (searcher_at self.now s).hand }
    {
        &self.searchers[s as usize - 1].hand
    }

    /// The cells that searcher s reported, in order.
    pub fn outs(&self, s: u32) -> &[Cell]
        requires { IsSearcher self.now s }
        ensures { result.now ≡ (searcher_at self.now s).outs }
    {
        self.searchers[s as usize - 1].outs.as_slice()
    }
}
