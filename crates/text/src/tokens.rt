// The tokens of an input: what IN reads.
ghost use Rattle.std.specs.Prelude.{◌≤◌, length};
ghost use Rattle.text.specs.Tokens.{TokenFrom};

use super::bytes::is_blank;
use super::find::find_from;

// A part of a text, from `start` up to `end`. No slice of it, since where a token ends is IN's next place, a number of the record.
#[derive(Clone, Copy)]
pub struct Span {
    pub start: usize,
    pub end: usize,
}

// The next token of the input, from p on, if one is left.
pub fn next_token(t: &[u8], p: usize) -> Option<Span>
    requires { p ≤ length t.now }
    ensures { TokenFrom t.now p result }
{
    let blanks = t[p..].iter().position(|&b| !is_blank(b))?;
    let start = p + blanks;
    let end = find_from(t, start, is_blank);
    Some(Span { start, end })
}
