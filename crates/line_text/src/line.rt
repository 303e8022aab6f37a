// One line, token by token.
ghost use Rattle.std.specs.Prelude.{◌≡◌, ◌+◌, ◌^◌, ◌≤◌, ◌<◌, ◌↔◌, ◌∷◌, [], ℕ, false, length, take, drop, IsTrue, IfNone, IfSome, MatchOption};
ghost use Rattle.line_text.specs.Tokens.{token, tokens, begins_blank};

use crate::bytes::{blanks_end, is_mark, run_end};
use crate::tokens::Token;
use std::marker::Model;

/// A line of a source that is read token by token. Contracts see its number, from 1, and the tokens that are left.
#[derive(Drop)]
pub struct Line<'a> {
    number: u64,
    at: usize,
    rest: &'a [u8],
}

impl<'a> Model for Line<'a> {
    ghost use Rattle.std.specs.Prelude.{◌+◌, ◌<◌, ◌^◌, length};
    ghost use Rattle.line_text.specs.Tokens.{tokens};
    ghost use Rattle.line_text.specs.Lines.{Row};

    ghost Value = { Row };

    ghost view = { λ l. record { number = l.number; tokens = tokens l.at l.rest.now } };

    ghost invariant = { λ l. l.at + length l.rest.now < 2 ^ 64 };
}

impl<'a> Line<'a> {
    // The line of this number whose content stands at this place.
    pub(crate) fn new(number: u64, at: usize, content: &'a [u8]) -> Line<'a>
        requires { at + length content.now < 2 ^ 64 }
        ensures { result ≡ record { number = number; tokens = tokens at content.now } }
    {
        Line {
            number,
            at,
            rest: content,
        }
    }

    /// The number of this line, from 1.
    pub fn number(&self) -> u64
        ensures { result ≡ self.now.number }
    {
        self.number
    }

    // Whether a token is left.
    pub(crate) fn has_token(&self) -> bool
        ensures { IsTrue result ↔ (0 < length self.now.tokens) }
    {
        blanks_end(self.rest) < self.rest.len()
    }

    /// Takes the next token of this line; none where none is left.
    pub fn next_token(&mut self) -> Option<Token<'a>>
        ensures next { MatchOption result (self.old.tokens ≡ []) (λ t. self.old.tokens ≡ token t.start t.text.now ∷ self.new.tokens) }
        ensures ended { IfNone result (self.new.tokens ≡ []) }
        ensures line { IfSome result (λ t. t.line ≡ self.old.number) }
        ensures number { self.new.number ≡ self.old.number }
    {
        let blanks = blanks_end(self.rest);
        let rest = &self.rest[blanks..];
        let len = token_len(rest);
        if len == 0 {
            return None;
        }
        let line = self.number;
        let start = self.at + blanks;
        let (text, rest) = rest.split_at(len);
        self.rest = rest;
        self.at = start + len;
        Some(Token { line, start, text })
    }
}

// The length of the token that the bytes begin with, or 0 where there are none.
fn token_len(bytes: &[u8]) -> usize
    requires { begins_blank bytes.now ≡ false }
    ensures within { result ≤ length bytes.now }
    ensures none { result ≡ 0 → (place : ℕ) → tokens place bytes.now ≡ [] }
    ensures some { 0 < result → (place : ℕ) → tokens place bytes.now ≡ token place (take result bytes.now) ∷ tokens (place + result) (drop result bytes.now) }
{
    if bytes.is_empty() {
        return 0;
    }
    if is_mark(bytes[0]) {
        return 1;
    }
    run_end(bytes)
}
