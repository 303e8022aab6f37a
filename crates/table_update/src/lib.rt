//! The states of an elimination, kept so that it is changed where one row is.
#![tactic(auto)]

mod kept;
mod states;
mod table;

pub use kept::Kept;
pub use reduced_rows::ReduceFault;
pub use table::Table;

#[cfg(test)]
mod tests;
