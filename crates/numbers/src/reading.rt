// Decimal numbers in a word.
ghost use Rattle.std.specs.Prelude.{◌≡◌, ℕ, ◌+◌, ◌-◌, ◌*◌, ◌^◌, ◌≤◌, true, min, length, drop};
ghost use Rattle.model.specs.Numbers.{is_digit, digits_from, natural, number};
ghost use Rattle.model.specs.Step.{input_number};
ghost use Rattle.numbers.specs.Reading.{capped, sign_length, signed_of, reading_of, answer_of};

use text::bytes::is_digit;

// Greater values are held as this one, which is outside every range already.
const CAP: u64 = 1073741824;

// Why a word is no number of a range.
#[derive(Clone, Copy, Debug, PartialEq, Eq)]
pub enum NumberError {
    NotANumber,
    Outside,
}

// The value with one more digit.
fn append_digit(n: u64, b: u8) -> u64
    requires { (n ≤ 2 ^ 30) × (is_digit b ≡ true) }
    ensures { result ≡ min (2 ^ 30) (n * 10 + (b - 48)) }
{
    (n * 10 + (u64::from(b) - 48)).min(CAP)
}

// Behind digits whose value is CAP or more only the form counts.
fn read_rest(w: &[u8]) -> Option<u64>
    ensures { (e : ℕ) → 2 ^ 30 ≤ e → result ≡ capped (digits_from e w.now) }
{
    if w.iter().all(|&b| is_digit(b)) {
        Some(CAP)
    } else {
        None
    }
}

// The digits behind the zeros in front.
fn skip_zeros(w: &[u8]) -> &[u8]
    ensures { digits_from 0 w.now ≡ digits_from 0 result.now }
{
    let zeros = w.iter().position(|&b| b != b'0').unwrap_or(w.len());
    &w[zeros..]
}

// The value of digits, at most CAP; none where a byte is no digit or there is no byte.
pub fn read_digits(w: &[u8]) -> Option<u64>
    ensures { result ≡ capped (natural w.now) }
{
    if w.is_empty() {
        return None;
    }
    let digits = skip_zeros(w);
    let mut n: u64 = 0;
    // Tried: a `while let` over `split_first`, whose rest needs no index. The compiled IN then had one instruction more for each byte of a token.
    for (i, &b) in digits.iter().enumerate() {
        if !is_digit(b) {
            return None;
        }
        n = append_digit(n, b);
        if n == CAP {
            return read_rest(&digits[i + 1..]);
        }
    }
    Some(n)
}

// The same from a place on: none where the word ends before it.
pub fn read_digits_from(w: &[u8], from: usize) -> Option<u64>
    ensures { result ≡ capped (natural (drop from w.now)) }
{
    read_digits(w.get(from..)?)
}

// The number of digits behind a sign, or behind none. -m is a number of the range, and m is none.
fn signed(digits: Option<u64>, is_negative: bool, m: u32) -> Result<i32, NumberError>
    requires { m ≤ 2 ^ 29 }
    ensures { result ≡ signed_of m is_negative digits }
{
    let v = digits.ok_or(NumberError::NotANumber)?;
    let end = u64::from(m) + u64::from(is_negative);
    if end <= v {
        return Err(NumberError::Outside);
    }
    let size = v as i32;
    Ok(if is_negative { -size } else { size })
}

// 1 for a byte that is a sign.
fn sign_length(b: u8) -> usize
    ensures { result ≡ sign_length b }
{
    usize::from(matches!(b, b'+' | b'-'))
}

// The word as a number of -m..m-1.
pub fn read_number(w: &[u8], m: u32) -> Result<i32, NumberError>
    requires { (1 ≤ m) × (m ≤ 2 ^ 29) }
    ensures value { result ≡ reading_of m (number w.now) }
    ensures answer { answer_of result ≡ input_number m (number w.now) }
{
    let &b = w.first().ok_or(NumberError::NotANumber)?;
    let digits = read_digits_from(w, sign_length(b));
    signed(digits, b == b'-', m)
}
