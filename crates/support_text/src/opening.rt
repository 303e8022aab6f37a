// How a line behind the last support begins.

/// The first word of a line: `end`, `start` or another one.
#[derive(Clone, Copy)]
pub enum Opening {
    End,
    Start,
    Other,
}
