// The lines of a text.
ghost use Rattle.std.specs.Prelude.{◌≡◌, not, ◌≤◌, ◌+◌, length, ◌∷◌, [], drop, MatchOption};
ghost use Rattle.std.specs.List.{list_all, position_or_len};
ghost use Rattle.model.specs.Load.{lines};
ghost use Rattle.text.specs.Lines.{is_line_feed};

use super::find::find_from;

// The bytes that are looked at together for an LF.
const BLOCK: usize = 8;

// Whether no LF is among the bytes. No test ends the fold, so that the compiler tests a block's bytes at once.
fn has_no_line_feed(bytes: &[u8]) -> bool
    ensures { result ≡ list_all (λ b. not (is_line_feed b)) bytes.now }
{
    bytes.iter().fold(true, |inside, &b| inside & (b != b'\n'))
}

// Past blocks that belong to the first line.
fn skip_blocks(t: &[u8]) -> usize
    ensures bound { result ≤ length t.now }
    ensures same { result + position_or_len is_line_feed (drop result t.now) ≡ position_or_len is_line_feed t.now }
{
    let blocks = t
        .chunks_exact(BLOCK)
        .position(|block| !has_no_line_feed(block));
    BLOCK * blocks.unwrap_or(t.len() / BLOCK)
}

// The first line of a text, without its LF, and the lines behind it. A line without bytes is seen at once, since looking for an LF block by block
// costs more than such a line.
fn split_line(t: &[u8]) -> Option<(&[u8], &[u8])>
    ensures { MatchOption result (lines t.now ≡ []) (λ r. lines t.now ≡ r.0.now ∷ lines r.1.now) }
{
    if t.is_empty() {
        return None;
    }
    if t[0] == b'\n' {
        return Some((&t[..0], &t[1..]));
    }
    let end = find_from(t, skip_blocks(t), |b| b == b'\n');
    Some((&t[..end], &t[t.len().min(end + 1)..]))
}

// The lines of a text. Not `split_inclusive`, which looks at single bytes: over 60 KB it took twice as long, and over lines of 300 bytes six times.
#[derive(Clone, Copy)]
pub struct Lines<'a> {
    rest: &'a [u8],
}

impl<'a> Lines<'a> {
    ghost use Rattle.text.specs.Lines.{lines_left};

    pub fn new(text: &'a [u8]) -> Self
        ensures { lines_left result ≡ lines text.now }
    {
        Lines { rest: text }
    }
}

impl<'a> Iterator for Lines<'a> {
    ghost use Rattle.std.specs.Iterator.{YieldsFirstRef, item_count};
    ghost use Rattle.text.specs.Lines.{lines_left};

    type Item = &'a [u8];

    ghost next_gives = { YieldsFirstRef lines_left };

    ghost remaining = { item_count lines_left };

    fn next(&mut self) -> Option<&'a [u8]> {
        let (line, rest) = split_line(self.rest)?;
        self.rest = rest;
        Some(line)
    }
}

// The count of lines.
#[tactic(auto, using(crate::proofs::Walks::lines_few))]
pub fn count_lines(t: &[u8]) -> usize
    ensures { result ≡ length (lines t.now) }
{
    Lines::new(t).count()
}
