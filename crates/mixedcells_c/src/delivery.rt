// What reaches the caller's memory.
ghost use Rattle.std.specs.Prelude.{◌⊎◌};
ghost use Rattle.mixedcells_c.specs.Commands.{words_in};
ghost use Rattle.mixedcells_c.specs.Buffers.{IsGiven, HasNoRoom};
ghost use Rattle.mixedcells_c.specs.Runs.{IsEnd};

use crate::runs::{Answer, run_command};
use mixedcells::Outcome;
use std::alloc::Global;

// There was no memory: the status of `Outcome::OutOfMemory`.
pub(crate) const NO_MEMORY: u32 = 8;

// There was no room for the answer. No outcome has a status above 255.
pub(crate) const NO_ROOM: u32 = 256;

// Writes a text to the front of the room, or its length alone where the room is less.
fn put(outcome: &Outcome, text: &[u8], room: &mut [u8], needed: &mut usize) -> u32
    ensures { IsGiven outcome.now text.now room.old room.new needed.new result
        ⊎ HasNoRoom text.now room.old room.new needed.new result }
{
    *needed = text.len();
    if room.len() < text.len() {
        return NO_ROOM;
    }
    room[..text.len()].copy_from_slice(text);
    u32::from(outcome.status())
}

// Runs a command on an input, and gives its answer in the caller's memory.
pub(crate) fn run_into(
    alloc: Global,
    command: &[u8],
    input: &[u8],
    room: &mut [u8],
    needed: &mut usize,
) -> u32
    ensures { IsEnd (words_in command.now) input.now room.old room.new needed.new result }
{
    match run_command(alloc, command, input) {
        Ok(Answer { outcome, text }) => put(&outcome, &text, room, needed),
        Err(_) => {
            *needed = 0;
            NO_MEMORY
        }
    }
}
