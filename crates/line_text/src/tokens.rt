// The tokens of a line.

/// A token of the source: a run of bytes of a line, or `:` or `/` alone.
#[derive(Clone, Copy, Debug)]
pub struct Token<'a> {
    /// The number of its line, from 1.
    pub line: u64,
    /// Where it starts in the source, from 0.
    pub start: usize,
    /// Its bytes, a slice of the source.
    pub text: &'a [u8],
}
