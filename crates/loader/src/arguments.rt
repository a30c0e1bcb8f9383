// An argument of an instruction, as the word of its cell.
ghost use Rattle.std.specs.Prelude.{◌≡◌, ◌<◌, ◌≤◌, ◌^◌, drop};
ghost use Rattle.std.specs.Int.Signed.{mag};
ghost use Rattle.model.specs.Parameters.{max_cells};
ghost use Rattle.model.specs.Numbers.{mapped, natural, number};
ghost use Rattle.model.specs.Words.{number_kind, word_of, number_bits, register, literal};
ghost use Rattle.model.specs.Load.{special_of, after_d, argument, checked_argument};
ghost use Rattle.image.specs.Kinds.{number_of_kind};
ghost use Rattle.loader.specs.Faults.{indexed_of, checked_of};
ghost use Rattle.loader.specs.Keys.{Finds};

use crate::names::find_word;
use bounds::limits::Limits;
use image::forms::{allows_direct, allows_number, allows_register, allows_special};
use image::kinds::Kind;
use model::Refusal;
use model::words::{FIRST_NUMBER, FIRST_REGISTER, IAR, KIND};
use numbers::reading::{NumberError, read_digits, read_digits_from, read_number};
use text::bytes::upper;

// The special registers, in the order of their numbers from that of IAR on.
const SPECIALS: [&[u8]; 3] = [b"IAR", b"IRCR", b"SHR"];

// The number of the special register that the word names. As `find_long`: what both share is `find_word`, and each has its table.
fn special(w: &[u8]) -> Option<u32>
    ensures { Finds result (special_of w.now) }
{
    find_word(w, &SPECIALS, IAR)
}

// The word of this kind for the index that the digits say, of those below the count.
fn indexed(kind: Kind, count: u32, digits: Option<u64>) -> Result<u32, Refusal>
    requires { count ≤ max_cells }
    ensures { checked_of (λ x. x) result ≡ indexed_of (number_of_kind kind) count digits }
{
    let v = digits.ok_or(Refusal::ArgumentForm)?;
    if v < u64::from(count) {
        Ok(u32::from(kind) * KIND + v as u32)
    } else {
        Err(Refusal::ArgumentRange)
    }
}

// R with digits, from behind the R.
fn register_word(digits: &[u8], form: u32, limits: Limits) -> Result<u32, Refusal>
    ensures { checked_of (λ x. x) result ≡ checked_argument limits.parameters form (mapped register (natural digits.now)) }
{
    if !allows_register(form) {
        return Err(Refusal::ArgumentForm);
    }
    indexed(Kind::Register, limits.parameters.n, read_digits(digits))
}

// DM with digits, of which the D is known.
fn direct_word(w: &[u8], form: u32, limits: Limits) -> Result<u32, Refusal>
    ensures { checked_of (λ x. x) result ≡ checked_argument limits.parameters form (after_d (drop 1 w.now)) }
{
    if w.len() < 2 || upper(w[1]) != b'M' || !allows_direct(form) {
        return Err(Refusal::ArgumentForm);
    }
    indexed(Kind::Direct, limits.parameters.b, read_digits_from(w, 2))
}

// The word of a number.
fn literal_word(z: i32) -> u32
    requires { mag z < 2 ^ 29 }
    ensures { result ≡ word_of number_kind (number_bits z) }
{
    FIRST_NUMBER + z.cast_unsigned() % KIND
}

// A number.
fn number_word(w: &[u8], form: u32, limits: Limits) -> Result<u32, Refusal>
    ensures { checked_of (λ x. x) result ≡ checked_argument limits.parameters form (mapped literal (number w.now)) }
{
    if !allows_number(form) {
        return Err(Refusal::ArgumentForm);
    }
    match read_number(w, limits.m) {
        Ok(z) => Ok(literal_word(z)),
        Err(NumberError::NotANumber) => Err(Refusal::ArgumentForm),
        Err(NumberError::Outside) => Err(Refusal::ArgumentRange),
    }
}

// The argument at a place of this form.
pub fn argument_word(w: &[u8], form: u32, limits: Limits) -> Result<u32, Refusal>
    ensures { checked_of (λ x. x) result ≡ checked_argument limits.parameters form (argument w.now) }
{
    if w.is_empty() {
        return Err(Refusal::ArgumentForm);
    }
    match upper(w[0]) {
        b'R' => register_word(&w[1..], form, limits),
        b'D' => direct_word(w, form, limits),
        _ => match special(w) {
            None => number_word(w, form, limits),
            Some(r) if allows_special(form) => Ok(FIRST_REGISTER + r),
            Some(_) => Err(Refusal::ArgumentForm),
        },
    }
}
