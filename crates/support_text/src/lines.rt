// The words of a line from left to right, and the next line with words.
ghost use Rattle.std.specs.Prelude.{◌≡◌, ◌≤ℤ◌, ◌∷◌, [], ◌≢◌, IfOk, IfErr, MatchResult};
ghost use Rattle.support_text.specs.Faults.{Gives, fault};
ghost use Rattle.support_text.specs.Words as spec;
ghost use Rattle.support_text.specs.Words.{words};

use crate::fault::{Kind, TextFault, fault_at};
use line_text::{BadNumber, Line, Lines, read_int};

/// Takes the next word of the line, which must be `text`.
#[tactic(auto, unfolding(crate::specs::Words::word))]
pub fn word(line: &mut Line, text: &[u8], kind: Kind) -> Result<(), TextFault>
    ensures reading { Gives (λ done. words line.new) result (spec.word text.now kind line.old.number (words line.old)) }
    ensures number { line.new.number ≡ line.old.number }
    ensures memory { IfErr result (λ e. e ≢ TextFault.OutOfMemory) }
{
    let Some(token) = line.next_token() else {
        return Err(fault_at(line.number(), kind));
    };
    if token.text != text {
        return Err(fault_at(line.number(), kind));
    }
    Ok(())
}

/// Takes the next word of the line, which must be a number from `low` to `high`. The fault is `wrong`
/// where it is missing or isn't spelled as a number, and `outside` where it is out of the limits.
#[tactic(auto, unfolding(crate::specs::Words::number))]
pub fn number(
    line: &mut Line,
    low: i128,
    high: i128,
    wrong: Kind,
    outside: Kind,
) -> Result<i128, TextFault>
    requires { low ≤ℤ high }
    ensures reading { Gives (λ z. (z, words line.new)) result (spec.number low high wrong outside line.old.number (words line.old)) }
    ensures within { IfOk result (λ z. (low ≤ℤ z) × (z ≤ℤ high)) }
    ensures number { line.new.number ≡ line.old.number }
    ensures memory { IfErr result (λ e. e ≢ TextFault.OutOfMemory) }
{
    let Some(token) = line.next_token() else {
        return Err(fault_at(line.number(), wrong));
    };
    match read_int(&token, low, high) {
        Ok(value) => Ok(value),
        Err(BadNumber::Spelling) => Err(fault_at(line.number(), wrong)),
        Err(BadNumber::Outside) => Err(fault_at(line.number(), outside)),
    }
}

/// No word of the line may be left.
#[tactic(auto, unfolding(crate::specs::Words::nothing_more))]
pub fn nothing_more(line: &mut Line, kind: Kind) -> Result<(), TextFault>
    ensures reading { Gives (λ done. tt) result (spec.nothing_more kind line.old.number (words line.old)) }
    ensures number { line.new.number ≡ line.old.number }
    ensures memory { IfErr result (λ e. e ≢ TextFault.OutOfMemory) }
{
    match line.next_token() {
        None => Ok(()),
        Some(_) => Err(fault_at(line.number(), kind)),
    }
}

/// Takes the next line that has words, which must be there.
pub fn next_line<'a>(lines: &mut Lines<'a>) -> Result<Line<'a>, TextFault>
    ensures next { MatchResult result (λ line. lines.old.rows ≡ line ∷ lines.new.rows)
        (λ e. (lines.old.rows ≡ []) × (e ≡ TextFault.Format (fault lines.old.end_line Kind.Missing))) }
    ensures end_line { lines.new.end_line ≡ lines.old.end_line }
{
    match lines.next_line() {
        Some(line) => Ok(line),
        None => Err(fault_at(lines.end_line(), Kind::Missing)),
    }
}
