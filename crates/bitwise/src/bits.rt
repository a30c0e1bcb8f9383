// RNOT to ASR: operations on the K bits of a value. RSL shifts in 64 bits, ASR in 32.
// No one function over a closure for RAND, ROR and RXOR: each is one line over `signed` and `bits`, and its proof needs the bound of its own operator.
ghost use Rattle.std.specs.Prelude.{◌≡◌, ℕ, ◌*◌, ◌<◌, ◌+ℤ◌};
ghost use Rattle.std.specs.Int.Bits.{bit_and, bit_or, bit_xor};
ghost use Rattle.model.specs.Arithmetic.{bits_of, signed_of, inverted, bitwise, shift_left, shift_right, shift_right_signed};
ghost use Rattle.bounds.specs.Bounds.{IsLimit, Within};

// The K bits of a value.
#[tactic(auto, unfolding(model::specs::Arithmetic::bits_of))]
fn bits(m: u32, x: i32) -> u32
    requires limit { IsLimit m }
    requires within { Within m x }
    ensures value { result ≡ bits_of m x }
    ensures range { result < 2 * m }
{
    if x < 0 {
        2 * m - x.unsigned_abs()
    } else {
        x.unsigned_abs()
    }
}

// K bits read back as signed.
#[tactic(auto, unfolding(model::specs::Arithmetic::signed_of))]
fn signed(m: u32, u: u32) -> i32
    requires limit { IsLimit m }
    requires u_bound { u < 2 * m }
    ensures value { result ≡ signed_of m u }
    ensures range { Within m result }
{
    if u < m {
        u as i32
    } else {
        -((2 * m - u) as i32)
    }
}

// Whatever M, inverting its K bits is inverting all 32.
pub fn rnot(x: i32) -> i32
    ensures by_index { (m : ℕ) → Within m x → result ≡ signed_of m (inverted m (bits_of m x)) }
    ensures range { (m : ℕ) → Within m x → Within m result }
{
    !x
}

pub fn rand(m: u32, x: i32, y: i32) -> i32
    requires limit { IsLimit m }
    requires within { Within m x × Within m y }
    ensures value { result ≡ bitwise bit_and m x y }
    ensures range { Within m result }
{
    signed(m, bits(m, x) & bits(m, y))
}

pub fn ror(m: u32, x: i32, y: i32) -> i32
    requires limit { IsLimit m }
    requires within { Within m x × Within m y }
    ensures value { result ≡ bitwise bit_or m x y }
    ensures range { Within m result }
{
    signed(m, bits(m, x) | bits(m, y))
}

pub fn rxor(m: u32, x: i32, y: i32) -> i32
    requires limit { IsLimit m }
    requires within { Within m x × Within m y }
    ensures value { result ≡ bitwise bit_xor m x y }
    ensures range { Within m result }
{
    signed(m, bits(m, x) ^ bits(m, y))
}

pub fn rnand(m: u32, x: i32, y: i32) -> i32
    requires limit { IsLimit m }
    requires within { Within m x × Within m y }
    ensures value { result ≡ bitwise (λ u v. inverted m (bit_and u v)) m x y }
    ensures range { Within m result }
{
    rnot(rand(m, x, y))
}

pub fn rnor(m: u32, x: i32, y: i32) -> i32
    requires limit { IsLimit m }
    requires within { Within m x × Within m y }
    ensures value { result ≡ bitwise (λ u v. inverted m (bit_or u v)) m x y }
    ensures range { Within m result }
{
    rnot(ror(m, x, y))
}

// Twice a value.
fn double(x: i32) -> i64
    ensures { result ≡ x +ℤ x }
{
    i64::from(x) << 1
}

// RSL and ASL: twice the value, brought back by 2^K where that is outside the range.
pub fn rsl(m: u32, x: i32) -> i32
    requires limit { IsLimit m }
    requires within { Within m x }
    ensures value { result ≡ shift_left m x }
    ensures range { Within m result }
{
    let twice = double(x);
    let top = i64::from(m);
    let full = i64::from(2 * m);
    if twice < -top {
        return (twice + full) as i32;
    }
    if top <= twice {
        return (twice - full) as i32;
    }
    twice as i32
}

#[tactic(auto, unfolding(model::specs::Arithmetic::shift_right))]
pub fn rsr(m: u32, x: i32) -> i32
    requires limit { IsLimit m }
    requires within { Within m x }
    ensures value { result ≡ shift_right m x }
    ensures range { Within m result }
{
    signed(m, bits(m, x) / 2)
}

// Whatever M, bringing in the sign bit halves and rounds down.
pub fn asr(x: i32) -> i32
    ensures by_index { (m : ℕ) → Within m x → result ≡ shift_right_signed m x }
    ensures range { (m : ℕ) → Within m x → Within m result }
{
    x >> 1
}
