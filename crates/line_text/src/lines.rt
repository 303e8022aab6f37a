// A source, line by line.
ghost use Rattle.std.specs.Prelude.{◌≡◌, ◌<◌, ◌∷◌, [], length, IfNone, IfSome, MatchOption};
ghost use Rattle.line_text.specs.Lines.{lines_of, end_line_of, all_tokens, StandInOrder, split};

use crate::bytes::{line_content, split_line};
use crate::line::Line;
use std::marker::Model;

/// A source that is read line by line, lines without a token left out.
///
/// Contracts see the lines that are left, each with its number and tokens, and the number that the end of input has.
#[derive(Drop)]
pub struct Lines<'a> {
    number: u64,
    at: usize,
    rest: &'a [u8],
}

impl<'a> Model for Lines<'a> {
    ghost use Rattle.std.specs.Prelude.{◌+◌, ◌<◌, ◌^◌, length};
    ghost use Rattle.line_text.specs.Lines.{Unread, split, rows_from};

    ghost Value = { Unread };

    ghost view = { λ l. record { rows = rows_from l.at l.number (split l.rest.now); end_line = l.number + length (split l.rest.now) } };

    ghost invariant = { λ l. (l.at + length l.rest.now < 2 ^ 64) × (l.number + length l.rest.now < 2 ^ 64) };
}

impl<'a> Lines<'a> {
    /// The lines of `bytes`.
    pub fn new(bytes: &'a [u8]) -> Lines<'a>
        ensures rows { result.rows ≡ lines_of bytes.now }
        ensures end_line { result.end_line ≡ end_line_of bytes.now }

        // Each token is the slice of the source that starts at its place, and none lies over another.
        ensures slices { StandInOrder bytes.now 0 (all_tokens result.rows) }
    {
        Lines {
            number: 1,
            at: 0,
            rest: bytes,
        }
    }

    /// Takes the next line that has a token; none where there is none.
    pub fn next_line(&mut self) -> Option<Line<'a>>
        ensures next { MatchOption result (self.old.rows ≡ []) (λ line. self.old.rows ≡ line ∷ self.new.rows) }
        ensures ended { IfNone result (self.new.rows ≡ []) }
        ensures some { IfSome result (λ line. 0 < length line.tokens) }
        ensures end_line { self.new.end_line ≡ self.old.end_line }
    {
        while !self.rest.is_empty() {
            let (text, rest) = split_line(self.rest);
            let line = Line::new(self.number, self.at, line_content(text));
            self.number += 1;
            self.at += self.rest.len() - rest.len();
            self.rest = rest;
            if line.has_token() {
                return Some(line);
            }
        }
        None
    }

    /// The number of lines of the whole source, plus 1.
    pub fn end_line(&self) -> u64
        ensures { result ≡ self.now.end_line }
    {
        self.number + line_count(self.rest)
    }
}

// How many lines the bytes have.
fn line_count(bytes: &[u8]) -> u64
    ensures { result ≡ length (split bytes.now) }
{
    let mut count = 0;
    let mut rest = bytes;
    while !rest.is_empty() {
        (_, rest) = split_line(rest);
        count += 1;
    }
    count
}
