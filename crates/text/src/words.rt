// The words of a line.
ghost use Rattle.std.specs.Prelude.{◌≡◌, ◌||◌, ◌++◌, ◌∷◌, [], ℕ, List, MatchOption, IfSome};
ghost use Rattle.model.specs.Load.{is_separator, is_comment, words};

use super::bytes::{is_comment, is_separator};
use super::find::find;

// A word ends at this byte.
fn ends_word(b: u8) -> bool
    ensures { result ≡ (is_comment b || is_separator b) }
{
    is_comment(b) || is_separator(b)
}

// The first word of a line, and what follows it. The word and the rest are the line's end, so that their lengths say where the word is.
pub fn split_word(l: &[u8]) -> Option<(&[u8], &[u8])>
    ensures words { MatchOption result (words l.now ≡ []) (λ r. words l.now ≡ r.0.now ∷ words r.1.now) }
    ensures place { IfSome result (λ r. (front : List ℕ) × (l.now ≡ front ++ (r.0.now ++ r.1.now))) }
{
    let from_word = &l[find(l, |b| !is_separator(b))..];
    let (word, rest) = from_word.split_at(find(from_word, ends_word));
    if word.is_empty() {
        return None;
    }
    Some((word, rest))
}

// The words of a line, one after another. Not one type with `Lines`: a trait of what a split gives, and a type for each split, are more than a second `next`.
#[derive(Clone, Copy)]
pub struct Words<'a> {
    rest: &'a [u8],
}

impl<'a> Words<'a> {
    ghost use Rattle.text.specs.Words.{words_left};

    pub fn new(line: &'a [u8]) -> Self
        ensures { words_left result ≡ words line.now }
    {
        Words { rest: line }
    }
}

impl<'a> Iterator for Words<'a> {
    ghost use Rattle.std.specs.Iterator.{YieldsFirstRef, item_count};
    ghost use Rattle.text.specs.Words.{words_left};

    type Item = &'a [u8];

    ghost next_gives = { YieldsFirstRef words_left };

    ghost remaining = { item_count words_left };

    fn next(&mut self) -> Option<&'a [u8]> {
        let (word, rest) = split_word(self.rest)?;
        self.rest = rest;
        Some(word)
    }
}
