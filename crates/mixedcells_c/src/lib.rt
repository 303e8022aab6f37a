//! The commands for C: words and bytes in the caller's memory in place of the program's words, input and output.
#![tactic(auto)]

mod command_words;
mod delivery;
mod exports;
mod growing_sink;
mod runs;
mod slice_source;

pub use exports::mixedcells_run;

#[cfg(test)]
mod tests;
