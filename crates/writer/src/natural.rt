// Natural numbers of 64 bits in decimal.
ghost use Rattle.std.specs.Prelude.{◌≡◌, ◌++◌, ◌≤◌, pos, length, drop};
ghost use Rattle.model.specs.Numbers.{decimal};

// The count of n's digits. No `ilog10`: with its table and bit scan the writer took a tenth longer than with the chain of comparisons that this becomes.
#[tactic(auto, using(crate::proofs::Spelling::digits_counted, crate::proofs::Spelling::next_power, crate::proofs::Spelling::power_fits))]
fn digit_count(n: u64) -> usize
    ensures { result ≡ length (decimal (pos n)) }
{
    let mut power: u64 = 1;
    for count in 1..20 {
        power *= 10;
        if n < power {
            return count;
        }
    }
    20
}

// Writes n over a slice of as many bytes as it has digits, from the last to the first, so that none is moved.
#[tactic(auto, using(crate::proofs::Spelling::write_digit, crate::proofs::Spelling::all_written, crate::proofs::Spelling::decimal_digits))]
fn write_digits(n: u64, out: &mut [u8])
    requires { length out.old ≡ length (decimal (pos n)) }
    ensures { out.new ≡ decimal (pos n) }
{
    let mut left = n;
    // By place, and no `iter_mut().rev()`: of a slice behind an adapter of `iter_mut` only the length is known.
    for at in (0..out.len()).rev() {
        out[at] = b'0' + (left % 10) as u8;
        left /= 10;
    }
}

// Writes n at the start of `out`; the count of digits.
pub fn write_natural(n: u64, out: &mut [u8]) -> usize
    requires { length (decimal (pos n)) ≤ length out.old }
    ensures { (result ≡ length (decimal (pos n))) × (out.new ≡ decimal (pos n) ++ drop result out.old) }
{
    let count = digit_count(n);
    write_digits(n, &mut out[..count]);
    count
}
