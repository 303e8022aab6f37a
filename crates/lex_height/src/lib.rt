//! Values of several entries: whole numbers by rank over one denominator, in lowest terms.
#![tactic(auto)]

mod accepted;
mod laws;
mod lex;
mod lowest;
mod order;
mod part;
mod parts;

pub use laws::{one_form, ordered};
pub use lex::Lex;
pub use order::compare_parts;
pub use part::{LexPart, PARTS};
pub use parts::Parts;

#[cfg(test)]
mod tests;
