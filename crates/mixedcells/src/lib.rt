//! The top call: from the words and the bytes that are read to the bytes that are written.
#![tactic(auto)]

mod along;
mod lines;
mod logs;
mod many;
mod moves;
mod outcome;
mod replies;
mod systems;
mod together;
mod top;
mod walks;
mod words;

pub use many::run;
pub use outcome::Outcome;
pub use top::run_alone;
pub use words::{Command, Family};

#[cfg(test)]
mod along_tests;
#[cfg(test)]
mod ends_tests;
#[cfg(test)]
mod log_tests;
#[cfg(test)]
mod many_tests;
#[cfg(test)]
mod move_tests;
#[cfg(test)]
mod system_tests;
#[cfg(test)]
mod tests;
