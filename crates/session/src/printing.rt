// The lines that takrun prints, as bytes at the front of a lent buffer, since there is no heap. Each function answers the count of the bytes that it wrote.
ghost use Rattle.std.specs.Prelude.{◌≡◌, ◌+◌, ◌*◌, ◌≤◌, [], ◌∷◌, ◌++◌, length};
ghost use Rattle.std.specs.List.{flat_map};
ghost use Rattle.model.specs.Calls.{ending_word};
ghost use Rattle.model.specs.Numbers.{decimal, longest_decimal};
ghost use Rattle.model.specs.Lines.{field, value_line, value_lines, ending_line, refusal_line};
ghost use Rattle.session.specs.Puts.{longest_line, longest_word, Put};

use model::Ending;
use writer::decimal::write_decimal;
use writer::natural::write_natural;

// Bytes as they are.
fn put_bytes(bytes: &[u8], out: &mut [u8]) -> usize
    requires { length bytes.now ≤ length out.old }
    ensures { Put out.old bytes.now out.new result }
{
    let count = bytes.len();
    out[..count].copy_from_slice(bytes);
    count
}

// A space and a number.
fn put_field(n: u64, out: &mut [u8]) -> usize
    requires { 21 ≤ length out.old }
    ensures { Put out.old (field n) out.new result }
{
    let start = put_bytes(b" ", out);
    start + write_natural(n, &mut out[start..])
}

// A value.
fn put_decimal(value: i32, out: &mut [u8]) -> usize
    requires { longest_decimal ≤ length out.old }
    ensures put { Put out.old (decimal value) out.new result }
    ensures within { result ≤ longest_decimal }
{
    write_decimal(value, out).unwrap()
}

// A value's line.
fn put_value(value: i32, out: &mut [u8]) -> usize
    requires { 12 ≤ length out.old }
    ensures { Put out.old (value_line value) out.new result }
{
    let end = put_decimal(value, out);
    end + put_bytes(b"\n", &mut out[end..])
}

// Each value on a line.
#[tactic(auto, unfolding(model::specs::Lines::value_lines))]
pub fn put_values(values: &[i32], out: &mut [u8]) -> usize
    requires { length values.now * 12 ≤ length out.old }
    ensures put { Put out.old (value_lines values.now) out.new result }
    ensures within { result ≤ length values.now * 12 }
{
    let mut at = 0;
    for value in values {
        at += put_value(*value, &mut out[at..]);
    }
    at
}

// A word, then numbers.
#[tactic(auto, using(crate::proofs::Pieces::put_then, crate::proofs::Pieces::fields_all))]
fn put_line(word: &[u8], numbers: &[u64], out: &mut [u8]) -> usize
    requires { length word.now + 21 * length numbers.now + 1 ≤ length out.old }
    ensures { Put out.old (word.now ++ (flat_map field numbers.now ++ (10 ∷ []))) out.new result }
{
    let mut at = put_bytes(word, out);
    for n in numbers {
        at += put_field(*n, &mut out[at..]);
    }
    at + put_bytes(b"\n", &mut out[at..])
}

// The paper's word for an ending. No Display: neither the trait nor the type is this crate's, and it writes to a Formatter, not to lent bytes.
#[tactic(auto, unfolding(model::specs::Calls::ending_word))]
fn ending_word(ending: Ending) -> &'static [u8]
    ensures value { result.now ≡ ending_word ending }
    ensures within { length result.now ≤ longest_word }
{
    match ending {
        Ending::Failed => b"FAILED",
        Ending::Ended => b"ENDED",
        Ending::Paused => b"PAUSED",
        Ending::OutputFull => b"OUTPUT FULL",
    }
}

// The ending, IRCR, IAR and spent.
pub fn put_ending(ending: Ending, ircr: u32, iar: u32, spent: u64, out: &mut [u8]) -> usize
    requires { longest_line ≤ length out.old }
    ensures { Put out.old (ending_line ending ircr iar spent) out.new result }
{
    let numbers = [u64::from(ircr), u64::from(iar), spent];
    put_line(ending_word(ending), &numbers, out)
}

// `REFUSED`, the number and the index of the line.
pub fn put_refusal(number: u32, index: usize, out: &mut [u8]) -> usize
    requires { longest_line ≤ length out.old }
    ensures { Put out.old (refusal_line number index) out.new result }
{
    put_line(b"REFUSED", &[u64::from(number), index as u64], out)
}
