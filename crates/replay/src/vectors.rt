// Vectors: for a K and two values, a line with what every operation makes of them.
ghost use Rattle.std.specs.Prelude.{◌≤◌, length};
ghost use Rattle.bounds.specs.Bounds.{IsLimit, Within};

use crate::printer::Printer;
use crate::reader::Reader;
use arithmetic::{Division, ReturnCode};
use bounds::limits::limit_of;
use bounds::ranges::in_range;
use numbers::reading::{NumberError, read_number};

// The return code, then the value; 0 for the one that there is not.
fn put_computed(to: &mut Printer, computed: Result<i32, ReturnCode>) {
    to.put(computed.err().map_or(0, u32::from));
    to.put_value(computed.unwrap_or(0));
}

// The return code, the quotient and the remainder; 0 for what there is not.
fn put_division(to: &mut Printer, division: Result<Division, ReturnCode>) {
    let (code, quotient, remainder) = match division {
        Ok(d) => (0, d.quotient, d.remainder),
        Err(code) => (u32::from(code), 0, 0),
    };
    to.put(code);
    to.put_value(quotient);
    to.put_value(remainder);
}

fn put_arithmetic(to: &mut Printer, m: u32, x: i32, y: i32)
    requires limit { IsLimit m }
    requires within { Within m x }
{
    for computed in [
        arithmetic::neg(m, x),
        arithmetic::abs(m, x),
        arithmetic::add(m, x, y),
        arithmetic::sub(m, x, y),
        arithmetic::mul(m, x, y),
        arithmetic::div(m, x, y),
        arithmetic::modulo(x, y),
    ] {
        put_computed(to, computed);
    }
    put_division(to, arithmetic::div_rem(m, x, y));
}

fn put_comparisons(to: &mut Printer, x: i32, y: i32) {
    for value in [
        logic::booleans::cmpeq(x, y),
        logic::booleans::cmpneq(x, y),
        logic::booleans::cmplt(x, y),
        logic::booleans::cmpgt(x, y),
        logic::booleans::cmple(x, y),
        logic::booleans::cmpge(x, y),
    ] {
        to.put_value(value);
    }
}

fn put_booleans(to: &mut Printer, x: i32, y: i32) {
    for computed in [
        logic::booleans::not(x),
        logic::booleans::and(x, y),
        logic::booleans::or(x, y),
        logic::booleans::xor(x, y),
        logic::booleans::nand(x, y),
        logic::booleans::nor(x, y),
    ] {
        put_computed(to, computed);
    }
}

fn put_bits(to: &mut Printer, m: u32, x: i32, y: i32)
    requires limit { IsLimit m }
    requires within { Within m x × Within m y }
{
    for value in [
        bitwise::bits::rnot(x),
        bitwise::bits::rand(m, x, y),
        bitwise::bits::ror(m, x, y),
        bitwise::bits::rxor(m, x, y),
        bitwise::bits::rnand(m, x, y),
        bitwise::bits::rnor(m, x, y),
        bitwise::bits::rsl(m, x),
        bitwise::bits::rsr(m, x),
        bitwise::bits::asr(x),
    ] {
        to.put_value(value);
    }
}

fn put_all(to: &mut Printer, m: u32, x: i32, y: i32)
    requires limit { IsLimit m }
    requires within { Within m x × Within m y }
{
    put_arithmetic(to, m, x, y);
    put_comparisons(to, x, y);
    put_booleans(to, x, y);
    put_bits(to, m, x, y);
}

// The results, if both values are in the range, and LF.
fn put_line(to: &mut Printer, m: u32, x: i32, y: i32)
    requires { IsLimit m }
{
    if in_range(m, x) && in_range(m, y) {
        put_all(to, m, x, y);
    }
    to.put_end();
}

// What is no number is 0, and what is outside the range 1.
fn value_of(read: Result<i32, NumberError>) -> i32 {
    match read {
        Ok(value) => value,
        Err(NumberError::NotANumber) => 0,
        Err(NumberError::Outside) => 1,
    }
}

// The next value.
fn read_operand(reader: &mut Reader, m: u32) -> i32
    requires { IsLimit m }
    ensures { length reader.new.rest.now ≤ length reader.old.rest.now }
{
    match reader.word() {
        Some(word) => value_of(read_number(word, m)),
        None => 0,
    }
}

// K of 8..30; another number counts as 8.
fn bits_of(v: u64) -> u32
    ensures { (8 ≤ result) × (result ≤ 30) }
{
    if matches!(v, 8..=30) { v as u32 } else { 8 }
}

// The next vector.
pub fn run_vector(to: &mut Printer, reader: &mut Reader)
    ensures { length reader.new.rest.now ≤ length reader.old.rest.now }
{
    let m = limit_of(bits_of(reader.number()));
    let x = read_operand(reader, m);
    let y = read_operand(reader, m);
    put_line(to, m, x, y);
}
