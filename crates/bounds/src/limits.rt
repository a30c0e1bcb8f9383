// The range limits of document 01, and the checks of the parameters.
ghost use Rattle.std.specs.Prelude.{◌≡◌, ◌&&◌, ◌-◌, ◌≤◌, leb};
ghost use Rattle.model.specs.Parameters.{limit, between, refusal_of, parameter_checks, Fit};
ghost use Rattle.model.specs.Replies.{refusal_number};
ghost use Rattle.bounds.specs.Bounds.{IsLimit};

use model::{Parameters, Record, Refusal};

// M of a K within its limits: half of 2^K. Tried: 1 << (k - 1). LLVM then made a larger `tak_grant` of it, by more than the table had taken.
pub fn limit_of(k: u32) -> u32
    requires { (8 ≤ k) × (k ≤ 30) }
    ensures value { result ≡ limit k }
    ensures limit { IsLimit result }
{
    (1 << k) / 2
}

// x is low..high.
fn within(low: u32, high: u32, x: u32) -> bool
    ensures { result ≡ between low high x }
{
    (low..=high).contains(&x)
}

// A count of cells: 1..high, and at most M - 1.
fn countable(high: u32, m: u32, x: u32) -> bool
    requires { 1 ≤ m }
    ensures { result ≡ (between 1 high x && leb x (m - 1)) }
{
    within(1, high, x) && x <= m - 1
}

// Whether the parameters fit: refusals 1 to 5, in that order.
pub fn check_parameters(p: Parameters) -> Result<(), Refusal>
    ensures { refusal_number result ≡ refusal_of (parameter_checks p) }
{
    if !within(Record::MIN_BITS, Record::MAX_BITS, p.k) {
        return Err(Refusal::ParameterK);
    }
    if !within(1, Record::MAX_REGISTERS, p.n) {
        return Err(Refusal::ParameterN);
    }
    let m = limit_of(p.k);
    if !countable(Record::MAX_CELLS, m, p.s) {
        return Err(Refusal::ParameterS);
    }
    if p.s < p.b {
        return Err(Refusal::ParameterB);
    }
    if !countable(Record::MAX_INSTRUCTIONS, m, p.t) {
        return Err(Refusal::ParameterT);
    }
    Ok(())
}

// Parameters that fit, and document 01's M for them.
#[derive(Clone, Copy)]
pub struct Limits {
    pub parameters: Parameters,
    pub m: u32,
    ghost fit: { Fit parameters },
    ghost m_value: { m ≡ limit parameters.k },
}

impl Limits {
    // Those of the parameters.
    pub fn new(parameters: Parameters) -> Self
        requires { Fit parameters }
        ensures { result.parameters ≡ parameters }
    {
        Limits {
            parameters,
            m: limit_of(parameters.k),
        }
    }
}
