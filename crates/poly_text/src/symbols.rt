// The symbols of a polynomial's line.
ghost use Rattle.std.specs.Prelude.{◌≡◌, ◌≤◌, ◌<◌, IfOk, IfErr, IfSome, length};
ghost use Rattle.support_text.specs.Words.{words};
ghost use Rattle.poly_text.specs.Symbols as spec;
ghost use Rattle.poly_text.specs.Symbols.{Appends, symbols_in};
ghost use Rattle.support_text.specs.Faults.{Gives};

use crate::fault::{Kind, fault_at};
use line_text::{Line, Token, read_int};
use std::alloc::Global;
use support_text::TextFault;

// A symbol. Digits count by their value; there is none where it is above 2^127 - 1.
#[derive(Clone, Copy)]
pub(crate) enum Symbol {
    Digits(Option<i128>),
    Variable(Option<i128>),
    Sign(bool),
    Times,
    Power,
    Open,
    Close,
}

// The value of digits.
#[tactic(auto, unfolding(crate::specs::Symbols::value_of_digits))]
fn value(digits: &[u8]) -> Option<i128>
    ensures { result ≡ spec.value_of_digits digits.now }
{
    let token = Token {
        line: 0,
        start: 0,
        text: digits,
    };
    match read_int(&token, 0, i128::MAX) {
        Ok(number) => Some(number),
        Err(_) => None,
    }
}

// Whether no digit goes on over this byte.
fn ends_digits(byte: u8) -> bool
    ensures { result ≡ spec.ends_digits byte }
{
    !byte.is_ascii_digit()
}

// How many digits the bytes begin with.
fn digit_count(bytes: &[u8]) -> usize
    ensures within { result ≤ length bytes.now }
    ensures count { result ≡ spec.digit_count bytes.now }
{
    let mut count = 0;
    while count < bytes.len() && !ends_digits(bytes[count]) {
        count += 1;
    }
    count
}

// The symbol of a byte that isn't a digit or `x`.
#[tactic(auto, unfolding(crate::specs::Symbols::mark))]
fn mark(byte: u8) -> Option<Symbol>
    ensures { result ≡ spec.mark byte }
{
    if byte == b'+' {
        return Some(Symbol::Sign(false));
    }
    if byte == b'-' {
        return Some(Symbol::Sign(true));
    }
    if byte == b'*' {
        return Some(Symbol::Times);
    }
    if byte == b'^' {
        return Some(Symbol::Power);
    }
    if byte == b'(' {
        return Some(Symbol::Open);
    }
    if byte == b')' {
        return Some(Symbol::Close);
    }
    None
}

// A mark and its length.
fn marked(byte: u8) -> Option<(Symbol, usize)>
    ensures symbol { result ≡ spec.one_byte (spec.mark byte) }
    ensures one { IfSome result (λ p. p.1 ≡ 1) }
{
    match mark(byte) {
        Some(symbol) => Some((symbol, 1)),
        None => None,
    }
}

// The first symbol of bytes, and how many bytes it has.
#[tactic(auto, unfolding(crate::specs::Symbols::first_symbol))]
fn first_symbol(bytes: &[u8]) -> Option<(Symbol, usize)>
    requires { 0 < length bytes.now }
    ensures symbol { result ≡ spec.first_symbol bytes.now }
    ensures least { IfSome result (λ p. 1 ≤ p.1) }
    ensures within { IfSome result (λ p. p.1 ≤ length bytes.now) }
{
    let count = digit_count(bytes);
    if 0 < count {
        let (digits, _) = bytes.split_at(count);
        return Some((Symbol::Digits(value(digits)), count));
    }
    if bytes[0] != b'x' {
        return marked(bytes[0]);
    }
    let (_, behind) = bytes.split_at(1);
    let count = digit_count(behind);
    if count == 0 {
        return None;
    }
    let (digits, _) = behind.split_at(count);
    Some((Symbol::Variable(value(digits)), count + 1))
}

// Appends the symbols of a word. Tells whether each of its bytes is part of one.
fn add_word(symbols: &mut Vec<Symbol>, word: &[u8]) -> Result<bool, TextFault>
    ensures reading { IfOk result (λ done. Appends done symbols.old.items symbols.new.items (spec.symbols_of_word word.now)) }
    ensures memory { IfErr result (λ e. e ≡ TextFault.OutOfMemory) }
{
    let mut rest = word;
    while !rest.is_empty() {
        let Some((symbol, count)) = first_symbol(rest) else {
            return Ok(false);
        };
        if symbols.reserve(1).is_err() {
            return Err(TextFault::OutOfMemory);
        }
        symbols.push_reserved(symbol);
        let (_, behind) = rest.split_at(count);
        rest = behind;
    }
    Ok(true)
}

// The symbols of what is left of a line.
pub(crate) fn symbols(alloc: Global, line: &mut Line) -> Result<Vec<Symbol>, TextFault>
    ensures { Gives (λ symbols. symbols.items) result (symbols_in line.old.number (spec.symbols_of (words line.old))) }
{
    let mut symbols = Vec::new(alloc);
    while let Some(token) = line.next_token() {
        match add_word(&mut symbols, token.text) {
            Ok(true) => {}
            Ok(false) => return Err(fault_at(line.number(), Kind::Grammar)),
            Err(_refused) => return Err(TextFault::OutOfMemory),
        }
    }
    Ok(symbols)
}
