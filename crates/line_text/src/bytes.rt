// Where lines, comments, blanks and tokens begin and end.
ghost use Rattle.std.specs.Prelude.{◌≡◌, ◌+◌, ◌-◌, ◌≤◌, ◌<◌, ℕ, suc, drop, false, length};
ghost use Rattle.std.specs.List.{position_or_len};
ghost use Rattle.line_text.specs.Lines.{split, rows_from, with_row};
ghost use Rattle.line_text.specs.Tokens.{content, tokens};
ghost use Rattle.line_text.specs.Tokens as spec;

// The bytes of the first line, without its line feed, and what follows the line.
pub(crate) fn split_line(bytes: &[u8]) -> (&[u8], &[u8])
    requires { 0 < length bytes.now }
    ensures lines { length (split bytes.now) ≡ suc (length (split result.1.now)) }
    ensures rows { (place number : ℕ) → rows_from place number (split bytes.now) ≡ with_row number (tokens place (content result.0.now))
        (rows_from (place + (length bytes.now - length result.1.now)) (number + 1) (split result.1.now)) }
    ensures within { length result.0.now ≤ length bytes.now }
    ensures less { length result.1.now < length bytes.now }
{
    let end = line_end(bytes);
    let next = (end + 1).min(bytes.len());
    let (text, _) = bytes.split_at(end);
    let (_, rest) = bytes.split_at(next);
    (text, rest)
}

// Where the first line feed stands, or the length.
fn line_end(bytes: &[u8]) -> usize
    ensures place { result ≡ position_or_len spec.is_line_feed bytes.now }
    ensures within { result ≤ length bytes.now }
{
    let mut end = 0;
    while end < bytes.len() && bytes[end] != b'\n' {
        end += 1;
    }
    end
}

// Where the first byte that isn't blank stands, or the length.
pub(crate) fn blanks_end(bytes: &[u8]) -> usize
    ensures within { result ≤ length bytes.now }
    ensures same { (place : ℕ) → tokens place bytes.now ≡ tokens (place + result) (drop result bytes.now) }
    ensures next { spec.begins_blank (drop result bytes.now) ≡ false }
{
    let mut end = 0;
    while end < bytes.len() && is_blank(bytes[end]) {
        end += 1;
    }
    end
}

// Where the first blank or mark stands, or the length.
pub(crate) fn run_end(bytes: &[u8]) -> usize
    ensures place { result ≡ position_or_len spec.ends_token bytes.now }
    ensures within { result ≤ length bytes.now }
{
    let mut end = 0;
    while end < bytes.len() && !ends_token(bytes[end]) {
        end += 1;
    }
    end
}

// A line's text without a carriage return at its end and without its comment.
#[tactic(auto, unfolding(crate::specs::Tokens::content))]
pub(crate) fn line_content(text: &[u8]) -> &[u8]
    ensures value { result.now ≡ content text.now }
    ensures within { length result.now ≤ length text.now }
{
    let text = without_return(text);
    &text[..comment_start(text)]
}

// The text without a carriage return at its end.
fn without_return(text: &[u8]) -> &[u8]
    ensures { result.now ≡ spec.without_return text.now }
{
    match text {
        [rest @ .., b'\r'] => rest,
        _ => text,
    }
}

// Where the first `#` stands, or the length.
fn comment_start(text: &[u8]) -> usize
    ensures place { result ≡ position_or_len spec.is_comment text.now }
    ensures within { result ≤ length text.now }
{
    let mut start = 0;
    while start < text.len() && text[start] != b'#' {
        start += 1;
    }
    start
}

// Whether a byte is a blank.
fn is_blank(byte: u8) -> bool
    ensures { result ≡ spec.is_blank byte }
{
    byte == b' ' || byte == b'\t'
}

// Whether a run of bytes ends before this one.
fn ends_token(byte: u8) -> bool
    ensures { result ≡ spec.ends_token byte }
{
    is_blank(byte) || is_mark(byte)
}

// Whether a byte is a token by itself.
pub(crate) fn is_mark(byte: u8) -> bool
    ensures { result ≡ spec.is_mark byte }
{
    byte == b':' || byte == b'/'
}
