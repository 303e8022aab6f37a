//! One searcher: a branch is expanded to its children, and the search goes on until no branch is
//! left.
#![tactic(auto)]

mod begins;
mod branches;
mod children;
mod circuits;
mod counting;
mod endings;
mod expansions;
mod keeping;
mod lasts;
mod passing;
mod searching;
mod settling;
mod tables;
mod targets;
mod ties;
mod turning;
mod walks;

pub use branches::Branch;
pub use cayley::{Begin, FoundCell};
pub use children::kept_by;
pub use cone_walls::Kept;
pub use counting::{Counted, count_alone};
pub use expansions::{Children, Expansion, Halt, HaltCause, expand};
pub use passing::pass_until;
pub use searching::{Found, Stopped, search_alone};
pub use tables::expand_kept;
pub use targets::has_file_points;
pub use walks::Walk;

#[cfg(test)]
mod search_tests;
#[cfg(test)]
mod table_tests;
#[cfg(test)]
mod tests;
#[cfg(test)]
mod walk_tests;
