// The checks of the calls start and grant.
ghost use Rattle.std.specs.Prelude.{◌≡◌, ◌&&◌, List, [], ℕ, ◌≤◌, ℤ};
ghost use Rattle.model.specs.Parameters.{refusal_of, Fit, max_granted};
ghost use Rattle.model.specs.Calls.{as_held, as_call, shape_checks, memory_fits, start_checks, all_in_range, record_fits, grant_refusal, account_of};
ghost use Rattle.model.specs.Replies.{refusal_number};
ghost use Rattle.bounds.specs.Bounds.{IsLimit};
ghost use Rattle.model.specs.Step.{as_memory, environment_of};
ghost use Rattle.machine.specs.Checks.{head_fits, deepest_fits, core_fits, account_fits, reached_fits, fields_fit, cycles_fit};

use bounds::limits::{check_parameters, limit_of};
use bounds::ranges::in_range;
use image::check::image_fits;
use model::{Parameters, Record, Refusal};

// 1 to 6: the parameters, and the length of the image slice.
fn check_shape(p: Parameters, image: &[u32]) -> Result<(), Refusal>
    ensures { refusal_number result ≡ refusal_of (shape_checks p image.now) }
{
    check_parameters(p)?;
    if image.len() != 4 * (p.t as usize) {
        return Err(Refusal::ImageLength);
    }
    Ok(())
}

// Not 9: the lengths of registers and data cells are the parameters'.
fn memory_fits(p: Parameters, registers: &[i32], cells: &[i32]) -> bool
    ensures { result ≡ memory_fits p (as_memory registers.now cells.now) }
{
    registers.len() == p.n as usize && cells.len() == p.s as usize
}

// Start's checks: 1 to 6, 9 and 10, in that order.
pub fn check_start(
    p: Parameters,
    image: &[u32],
    registers: &[i32],
    cells: &[i32],
) -> Result<(), Refusal>
    ensures { refusal_number result ≡ refusal_of (start_checks (environment_of p image.now []) (as_memory registers.now cells.now)) }
{
    check_shape(p, image)?;
    if !memory_fits(p, registers, cells) {
        return Err(Refusal::MemoryLength);
    }
    if !image_fits(p, image) {
        return Err(Refusal::Image);
    }
    Ok(())
}

// Each value is in -M..M-1. No test ends the fold, so that several are made at once.
fn values_fit(m: u32, values: &[i32]) -> bool
    requires { IsLimit m }
    ensures { result ≡ all_in_range m values.now }
{
    values
        .iter()
        .fold(true, |fit, &value| fit & in_range(m, value))
}

// SHR is B-1..S-1, tested in 64 bits.
fn head_fits(b: u32, s: u32, shr: i64) -> bool
    ensures { result ≡ head_fits b s shr }
{
    (i64::from(b) - 1..i64::from(s)).contains(&shr)
}

// IAR is 0..T, IRCR 0..3, and SHR in its bounds.
fn core_fits(rec: Record) -> bool
    ensures { result ≡ core_fits rec }
{
    rec.iar <= rec.parameters.t
        && rec.ircr <= 3
        && head_fits(rec.parameters.b, rec.parameters.s, rec.shr)
}

// The cycles spent are at most those granted, and these at most 10^15.
fn account_fits(rec: Record) -> bool
    ensures { result ≡ account_fits rec }
{
    rec.spent <= rec.granted && rec.granted <= Record::MAX_GRANTED
}

// The deepest SHR is SHR..S-1, tested in 64 bits.
fn deepest_fits(s: u32, shr: i64, deepest: i64) -> bool
    ensures { result ≡ deepest_fits s shr deepest }
{
    (shr..i64::from(s)).contains(&deepest)
}

// The place is in the input or behind it, and the deepest SHR in its bounds.
fn reached_fits(rec: Record, input: usize) -> bool
    ensures { result ≡ reached_fits rec input }
{
    rec.place <= input && deepest_fits(rec.parameters.s, rec.shr, rec.deepest)
}

// The numbers of a record, with an input of this length.
fn fields_fit(rec: Record, input: usize) -> bool
    ensures { result ≡ fields_fit rec input }
{
    core_fits(rec) && account_fits(rec) && reached_fits(rec, input)
}

// Registers and data cells are in -M..M-1.
fn memory_in_range(m: u32, registers: &[i32], cells: &[i32]) -> bool
    requires { IsLimit m }
    ensures { result ≡ (all_in_range m registers.now && all_in_range m cells.now) }
{
    values_fit(m, registers) && values_fit(m, cells)
}

// The record and the memory fit (not 15), whatever the image is.
fn record_fits(rec: Record, input: &[u8], registers: &[i32], cells: &[i32]) -> bool
    requires { Fit rec.parameters }
    ensures { (image : List ℕ) → result ≡ record_fits (environment_of rec.parameters image input.now) (account_of (as_held rec registers.now cells.now)) }
{
    let m = limit_of(rec.parameters.k);
    fields_fit(rec, input.len()) && memory_in_range(m, registers, cells)
}

// Not 17. The cycles are tested first, so that the sum cannot wrap.
fn cycles_fit(granted: u64, cycles: u64) -> bool
    requires { granted ≤ max_granted }
    ensures { result ≡ cycles_fit granted cycles }
{
    cycles <= Record::MAX_GRANT && granted + cycles <= Record::MAX_GRANTED
}

// Grant's checks: start's, then 15, 16 and 17, whatever the output slice is.
pub fn check_grant(
    rec: Record,
    image: &[u32],
    input: &[u8],
    cycles: u64,
    registers: &[i32],
    cells: &[i32],
) -> Result<(), Refusal>
    ensures { (slice : List ℤ) → refusal_number result ≡ grant_refusal (environment_of rec.parameters image.now input.now)
        (account_of (as_held rec registers.now cells.now)) (as_call cycles slice) }
{
    check_start(rec.parameters, image, registers, cells)?;
    if !record_fits(rec, input, registers, cells) {
        return Err(Refusal::Record);
    }
    if Record::MAX_INPUT < input.len() {
        return Err(Refusal::InputLength);
    }
    if !cycles_fit(rec.granted, cycles) {
        return Err(Refusal::Cycles);
    }
    Ok(())
}
