use crate::branches::CoreOutcome;

/// One move of a searcher. Searchers are named by their numbers, from 1.
#[derive(Drop)]
pub enum Event {
    /// The newest branch of the searcher's own deque goes to its empty hand.
    Claim { searcher: u32 },
    /// The oldest branch of another searcher's deque goes to the searcher's empty hand.
    Steal { searcher: u32, from: u32 },
    /// The branch in the hand gives way to what it was expanded to.
    Expand { searcher: u32, outcome: CoreOutcome },
    /// The first child that waits in the hand goes to the back of the searcher's own deque.
    Offer { searcher: u32 },
    /// The cell in the hand is reported.
    Report { searcher: u32 },
}

/// Why an event wasn't done. It is handed back, and nothing has changed.
#[derive(Drop)]
pub enum StepFault {
    /// The event can't come in this state, or names a searcher that there isn't.
    NotEnabled(Event),
    OutOfMemory(Event),
}
