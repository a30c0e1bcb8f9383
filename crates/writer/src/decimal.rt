// The decimal writer.
ghost use Rattle.std.specs.Prelude.{◌≡◌};
ghost use Rattle.model.specs.Calls.{spelled};
ghost use Rattle.writer.specs.Decimal.{written};

use crate::natural::write_natural;
use model::Refusal;

// The most bytes that a value takes: a minus and ten digits.
const LONGEST: usize = 11;

// Writes the value at the start of `out`; the count of bytes. It is refused where the longest would not fit.
#[tactic(auto, using(crate::proofs::Spelling::spelled_short, crate::proofs::Spelling::spelled_digits))]
pub fn write_decimal(value: i32, out: &mut [u8]) -> Result<usize, Refusal>
    ensures { written result out.new ≡ spelled value out.old }
{
    if out.len() < LONGEST {
        return Err(Refusal::DecimalLength);
    }
    // A minus, over which the digits go where there is none.
    out[0] = b'-';
    let sign = usize::from(value < 0);
    let n = u64::from(value.unsigned_abs());
    Ok(sign + write_natural(n, &mut out[sign..]))
}
