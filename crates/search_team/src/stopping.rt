//! What a team hands back where it stops.
use branch_pool::Unclosed;
use cayley::FoundCell;
use searcher::{Branch, HaltCause};

/// What one searcher left and what it found, in no order.
#[derive(Drop)]
pub struct Part {
    pub left: Vec<Branch>,
    pub found: Vec<FoundCell>,
}

/// A team that stopped. Nothing of the given branches is lost: what the parts found, what lies behind the branches that are left, and what lies
/// behind those that a rest holds, is what lies behind the given ones.
#[derive(Drop)]
pub struct TeamStopped {
    pub cause: HaltCause,
    /// What the searchers found and left. None where memory lacked before the first offer.
    pub parts: Vec<Part>,
    /// The given branches, where memory lacked before the first offer, and else none.
    pub unoffered: Vec<Branch>,
    /// The pool, where memory lacked for its close.
    pub rest: Option<Unclosed<Branch>>,
}
