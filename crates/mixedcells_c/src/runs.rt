// A run of a command on bytes in memory.
ghost use Rattle.std.specs.Prelude.{IfOk, map, string_bytes};
ghost use Rattle.mixedcells_c.specs.Commands.{words_in};
ghost use Rattle.mixedcells_c.specs.Runs.{IsRun};

use crate::command_words::words_of;
use crate::growing_sink::GrowingSink;
use crate::slice_source::SliceSource;
use mixedcells::{Outcome, run_alone};
use std::alloc::Global;
use wide_int::OutOfMemory;

// How a run ended, and what it wrote.
#[derive(Drop)]
pub(crate) struct Answer {
    pub(crate) outcome: Outcome,
    pub(crate) text: Vec<u8>,
}

// Runs the command that the words mean on an input. Every end that fails is want of memory.
fn run_words(alloc: Global, words: &[String], input: &[u8]) -> Result<Answer, OutOfMemory>
    ensures { IfOk result (λ a. IsRun (map string_bytes words.now) input.now a.outcome a.text.items) }
{
    let mut source = SliceSource::new(input);
    let mut sink = GrowingSink::new(alloc);
    let outcome = run_alone(alloc, words, &mut source, &mut sink);
    match outcome {
        Outcome::ReadFault | Outcome::WriteFault | Outcome::OutOfMemory => Err(OutOfMemory),
        _ => Ok(Answer {
            outcome,
            text: sink.into_bytes(),
        }),
    }
}

// Runs a command on an input.
pub(crate) fn run_command(
    alloc: Global,
    command: &[u8],
    input: &[u8],
) -> Result<Answer, OutOfMemory>
    ensures { IfOk result (λ a. IsRun (words_in command.now) input.now a.outcome a.text.items) }
{
    let words = words_of(alloc, command)?;
    run_words(alloc, &words, input)
}
