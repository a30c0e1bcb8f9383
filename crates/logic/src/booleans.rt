// The Booleans: the comparisons, NOT, AND, OR, XOR, NAND and NOR. SETT writes `boolean(true)`, SETF `boolean(false)`.
ghost use Rattle.std.specs.Prelude.{◌≡◌, not, ◌&&◌, ◌||◌, cond, IsOkUnless};
ghost use Rattle.std.specs.Bool.{xor};
ghost use Rattle.std.specs.Int.Signed.{lt_z, le_z};
ghost use Rattle.model.specs.Parameters.{eq_z, is_true, is_boolean, boolean_of};
ghost use Rattle.model.specs.Arithmetic.{value, code, negation, logic};
ghost use Rattle.arithmetic.specs.Answers.{answer_of};

use arithmetic::ReturnCode;

// A value is truth.
pub fn is_true(x: i32) -> bool
    ensures { result ≡ is_true x }
{
    x == -1
}

// A value is truth or falsehood.
pub fn is_boolean(x: i32) -> bool
    ensures { result ≡ is_boolean x }
{
    matches!(x, -1 | 0)
}

// Truth is -1, falsehood 0.
pub fn boolean(b: bool) -> i32
    ensures { result ≡ boolean_of b }
{
    if b { -1 } else { 0 }
}

// The comparisons share `boolean`. No one function over a closure for them: what is left of each is its operator.
pub fn cmpeq(x: i32, y: i32) -> i32
    ensures { result ≡ boolean_of (eq_z x y) }
{
    boolean(x == y)
}

pub fn cmpneq(x: i32, y: i32) -> i32
    ensures { result ≡ boolean_of (not (eq_z x y)) }
{
    boolean(x != y)
}

pub fn cmplt(x: i32, y: i32) -> i32
    ensures { result ≡ boolean_of (lt_z x y) }
{
    boolean(x < y)
}

pub fn cmpgt(x: i32, y: i32) -> i32
    ensures { result ≡ boolean_of (lt_z y x) }
{
    boolean(y < x)
}

pub fn cmple(x: i32, y: i32) -> i32
    ensures { result ≡ boolean_of (le_z x y) }
{
    boolean(x <= y)
}

pub fn cmpge(x: i32, y: i32) -> i32
    ensures { result ≡ boolean_of (le_z y x) }
{
    boolean(y <= x)
}

#[tactic(auto, unfolding(model::specs::Arithmetic::negation))]
pub fn not(x: i32) -> Result<i32, ReturnCode>
    ensures value { answer_of result ≡ negation x }
    ensures reason { IsOkUnless result ReturnCode.NotBoolean }
{
    if is_boolean(x) {
        return Ok(boolean(!is_true(x)));
    }
    Err(ReturnCode::NotBoolean)
}

// The result b of two values, or code 1 if one of them is not Boolean. It takes no closure for the operator: it would be handed on in place of what it
// answers, and the clauses would speak of the answers of a closure.
fn combined(x: i32, y: i32, b: bool) -> Result<i32, ReturnCode>
    ensures value { answer_of result ≡ cond (is_boolean x && is_boolean y) (value (boolean_of b)) (code 1) }
    ensures reason { IsOkUnless result ReturnCode.NotBoolean }
{
    if is_boolean(x) && is_boolean(y) {
        return Ok(boolean(b));
    }
    Err(ReturnCode::NotBoolean)
}

pub fn and(x: i32, y: i32) -> Result<i32, ReturnCode>
    ensures value { answer_of result ≡ logic ◌&&◌ x y }
    ensures reason { IsOkUnless result ReturnCode.NotBoolean }
{
    combined(x, y, is_true(x) & is_true(y))
}

pub fn or(x: i32, y: i32) -> Result<i32, ReturnCode>
    ensures value { answer_of result ≡ logic ◌||◌ x y }
    ensures reason { IsOkUnless result ReturnCode.NotBoolean }
{
    combined(x, y, is_true(x) | is_true(y))
}

pub fn xor(x: i32, y: i32) -> Result<i32, ReturnCode>
    ensures value { answer_of result ≡ logic xor x y }
    ensures reason { IsOkUnless result ReturnCode.NotBoolean }
{
    combined(x, y, is_true(x) ^ is_true(y))
}

pub fn nand(x: i32, y: i32) -> Result<i32, ReturnCode>
    ensures value { answer_of result ≡ logic (λ a b. not (a && b)) x y }
    ensures reason { IsOkUnless result ReturnCode.NotBoolean }
{
    combined(x, y, !(is_true(x) & is_true(y)))
}

pub fn nor(x: i32, y: i32) -> Result<i32, ReturnCode>
    ensures value { answer_of result ≡ logic (λ a b. not (a || b)) x y }
    ensures reason { IsOkUnless result ReturnCode.NotBoolean }
{
    combined(x, y, !(is_true(x) | is_true(y)))
}
