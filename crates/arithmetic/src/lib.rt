// NEG, ABS, ADD, SUB, MUL, DIV, MOD, INC, DEC and DIVR. NEG and DIV work in 32 bits, the others and every range test in 64; DIVR is DIV and MOD.
// m is document 01's M, a number with the clause IsLimit. No type of it: `Limits` asks for parameters that fit, which is more, and of one of M alone each
// `ensures` and definition would have to take the number out again. Nor of Within: values are read from lent slices as they stand, and such a type would
// have to hold M beside each. No one function over a closure for ADD, SUB and MUL: `checked` is what they share, and what is left of each is its operator.
#![tactic(auto)]

ghost use Rattle.std.specs.Prelude.{◌≡◌, ◌≢◌, ◌≤◌, Err, IfOk, IsOkUnless, pos, neg_ℤ, nat_abs, ◌+ℤ◌, ◌-ℤ◌, ◌*ℤ◌};
ghost use Rattle.std.specs.Int.Signed.{mag};
ghost use Rattle.model.specs.Arithmetic.{divide, remainder};
ghost use Rattle.bounds.specs.Bounds.{IsLimit, Within};
ghost use Rattle.arithmetic.specs.Answers.{code_number_of, answer_of, quotient_of, IsChecked, HasRemainder};

use bounds::ranges::in_range_wide;

// Why an operation has no value.
#[derive(Clone, Copy, Debug, PartialEq, Eq)]
pub enum ReturnCode {
    OutOfRange,
    DivisorZero,
    NotBoolean,
}

// What IRCR says of it.
impl From<ReturnCode> for u32 {
    ghost from_gives = { λ c n. n ≡ code_number_of c };

    fn from(code: ReturnCode) -> u32 {
        match code {
            ReturnCode::OutOfRange | ReturnCode::NotBoolean => 1,
            ReturnCode::DivisorZero => 2,
        }
    }
}

// The exact result z, or code 1.
#[tactic(auto, unfolding(model::specs::Arithmetic::checked))]
fn checked(m: u32, z: i64) -> Result<i32, ReturnCode>
    requires { IsLimit m }
    ensures { IsChecked m z result }
{
    if in_range_wide(m, z) {
        return Ok(z as i32);
    }
    Err(ReturnCode::OutOfRange)
}

pub fn neg(m: u32, x: i32) -> Result<i32, ReturnCode>
    requires limit { IsLimit m }
    requires within { Within m x }
    ensures { IsChecked m (neg_ℤ x) result }
{
    checked(m, i64::from(-x))
}

pub fn abs(m: u32, x: i32) -> Result<i32, ReturnCode>
    requires { IsLimit m }
    ensures { IsChecked m (pos (nat_abs x)) result }
{
    checked(m, i64::from(x).abs())
}

// ADD and INC.
pub fn add(m: u32, x: i32, y: i32) -> Result<i32, ReturnCode>
    requires { IsLimit m }
    ensures { IsChecked m (x +ℤ y) result }
{
    checked(m, i64::from(x) + i64::from(y))
}

// SUB and DEC.
pub fn sub(m: u32, x: i32, y: i32) -> Result<i32, ReturnCode>
    requires { IsLimit m }
    ensures { IsChecked m (x -ℤ y) result }
{
    checked(m, i64::from(x) - i64::from(y))
}

pub fn mul(m: u32, x: i32, y: i32) -> Result<i32, ReturnCode>
    requires { IsLimit m }
    ensures { IsChecked m (x *ℤ y) result }
{
    checked(m, i64::from(x) * i64::from(y))
}

// Divisor 0 before anything else. Only -M DIV -1 is then outside the range.
#[tactic(auto, using(bounds::proofs::Integers::is_zero), unfolding(model::specs::Arithmetic::divide))]
pub fn div(m: u32, x: i32, y: i32) -> Result<i32, ReturnCode>
    requires limit { IsLimit m }
    requires within { Within m x }
    ensures value { answer_of result ≡ divide m x y }
    ensures range { IfOk result (Within m) }
    ensures reason { result ≢ Err ReturnCode.NotBoolean }
{
    if y == 0 {
        return Err(ReturnCode::DivisorZero);
    }
    checked(m, i64::from(x / y))
}

// MOD. The remainder is no larger than x, so that it needs no test.
#[tactic(auto, using(bounds::proofs::Integers::is_zero), unfolding(model::specs::Arithmetic::remainder))]
pub fn modulo(x: i32, y: i32) -> Result<i32, ReturnCode>
    ensures value { answer_of result ≡ remainder x y }
    ensures range { IfOk result (λ z. mag z ≤ mag x) }
    ensures reason { IsOkUnless result ReturnCode.DivisorZero }
{
    if y == 0 {
        return Err(ReturnCode::DivisorZero);
    }
    Ok((i64::from(x) % i64::from(y)) as i32)
}

// The two values of a DIVR.
#[derive(Clone, Copy, Debug, PartialEq, Eq)]
pub struct Division {
    pub quotient: i32,
    pub remainder: i32,
}

// DIVR: the remainder, which fails where the divisor is 0, and the quotient as DIV has it.
pub fn div_rem(m: u32, x: i32, y: i32) -> Result<Division, ReturnCode>
    requires limit { IsLimit m }
    requires within { Within m x }
    ensures quotient { quotient_of result ≡ divide m x y }
    ensures remainder { IfOk result (HasRemainder x y) }
    ensures reason { result ≢ Err ReturnCode.NotBoolean }
{
    let remainder = modulo(x, y)?;
    let quotient = div(m, x, y)?;
    Ok(Division {
        quotient,
        remainder,
    })
}
