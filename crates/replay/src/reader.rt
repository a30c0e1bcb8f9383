// The reader: words between blanks, and decimal numbers modulo 2^64.
ghost use Rattle.std.specs.Prelude.{◌≡◌, ◌+◌, ◌^◌, ◌<◌, ◌≤◌, length, IfSome, MatchOption};

use text::tokens::next_token;

// What is left of the input.
#[derive(Drop)]
pub struct Reader<'a> {
    rest: &'a [u8],
}

impl<'a> Reader<'a> {
    pub fn new(input: &'a [u8]) -> Self {
        Reader { rest: input }
    }

    // The next word, if there is one.
    pub fn word(&mut self) -> Option<&'a [u8]>
        ensures { MatchOption result (length self.new.rest.now ≤ length self.old.rest.now) (λ w. (0 < length w.now) × (length self.new.rest.now < length self.old.rest.now)) }
    {
        let Some(span) = next_token(self.rest, 0) else {
            self.rest = &[];
            return None;
        };
        let (passed, rest) = self.rest.split_at(span.end);
        self.rest = rest;
        Some(&passed[span.start..])
    }

    // The next number, 0 if it is missing.
    pub fn number(&mut self) -> u64
        ensures { length self.new.rest.now ≤ length self.old.rest.now }
    {
        self.word().map_or(0, number_of)
    }

    // The next twelve numbers, of each its low 32 bits.
    pub fn fields(&mut self) -> [u32; 12]
        ensures { length self.new.rest.now ≤ length self.old.rest.now }
    {
        let mut fields = [0; 12];
        for field in &mut fields {
            *field = low(self.number());
        }
        fields
    }

    // The next n bytes and those beyond them, which are not read yet. An input that is short of them is read to its end.
    pub fn bytes(&mut self, n: usize, beyond: usize) -> Option<&'a [u8]>
        requires { n + beyond < 2 ^ 64 }
        ensures shorter { length self.new.rest.now ≤ length self.old.rest.now }
        ensures len { IfSome result (λ s. length s.now ≡ n + beyond) }
    {
        let bytes = self.rest.get(..n + beyond);
        self.rest = if bytes.is_some() {
            &self.rest[n..]
        } else {
            &[]
        };
        bytes
    }
}

// n with one digit more: the low four bits of its byte.
fn append_digit(n: u64, b: u8) -> u64 {
    n.wrapping_mul(10).wrapping_add(u64::from(b % 16))
}

// The number that digits spell.
fn natural_of(digits: &[u8]) -> u64 {
    digits.iter().fold(0, |n, b| append_digit(n, *b))
}

// The number of a word: one behind a minus as its two's complement.
fn number_of(word: &[u8]) -> u64 {
    match word.strip_prefix(b"-") {
        Some(digits) => natural_of(digits).wrapping_neg(),
        None => natural_of(word),
    }
}

// The low 32 bits.
pub fn low(v: u64) -> u32 {
    (v & 0xFFFF_FFFF) as u32
}

// The value, or the most that there may be.
pub fn at_most(v: u64, most: usize) -> usize
    ensures { result ≤ most }
{
    usize::try_from(v).map_or(most, |v| v.min(most))
}
