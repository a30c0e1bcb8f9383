// The machine for callers from C, as include/tak.h declares it: numbers and lent slices. The crate tak_c exports these calls. No call has a `requires`:
// what does not fit is refused. The header's record slice is `fields` here, since contracts have another use for the word `record`.
#![tactic(auto)]

pub mod records;

ghost use Rattle.std.specs.Prelude.{◌≡◌, []};
ghost use Rattle.model.specs.Calls.{as_call};
ghost use Rattle.model.specs.Replies.{load_answer};
ghost use Rattle.model.specs.Step.{environment_of};
ghost use Rattle.model.specs.Load.{load_numbers};
ghost use Rattle.tak.specs.Calls.{as_slices, parameters_of, ending_number, tak_load, tak_start, tak_grant, tak_decimal};
ghost use Rattle.tak.specs.Records.{record_from};

use crate::records::{RECORD_LENGTH, put_record, record_from};
use loader::load;
use machine::{grant, start};
use model::{Ending, LoadError, Parameters};
use writer::decimal::write_decimal;

// A record slice of another length, TAK_REFUSED_RECORD_LENGTH: the one number of a refusal that document 01 does not have.
const REFUSED_RECORD_LENGTH: u32 = 100;

// The numbers that load reports. No Result: C has no enums with values.
#[derive(Clone, Copy)]
struct LoadNumbers {
    refusal: u32,
    lines: u64,
    line: u64,
}

// The numbers that grant reports. No Result: C has no enums with values.
#[derive(Clone, Copy)]
struct GrantNumbers {
    refusal: u32,
    ending: u32,
    values: u64,
    spent: u64,
}

#[tactic(auto, unfolding(model::specs::Load::load_numbers))]
fn load_numbers(answer: Result<usize, LoadError>) -> LoadNumbers
    ensures { load_numbers (load_answer answer) ≡ record { refusal = result.refusal; lines = result.lines; line = result.line } }
{
    match answer {
        Ok(n) => LoadNumbers {
            refusal: 0,
            lines: n as u64,
            line: 0,
        },
        Err(error) => LoadNumbers {
            refusal: u32::from(error.refusal),
            lines: 0,
            line: error.line as u64,
        },
    }
}

// TAK_FAILED, TAK_ENDED, TAK_PAUSED or TAK_OUTPUT_FULL. No From: neither type is this crate's, and the numbers are the header's.
fn ending_number(e: Ending) -> u32
    ensures { result ≡ ending_number e }
{
    match e {
        Ending::Failed => 1,
        Ending::Ended => 2,
        Ending::Paused => 3,
        Ending::OutputFull => 4,
    }
}

// Loads a text into an image: the refusal or 0, the count of lines, the index of the faulty line.
#[tactic(auto, unfolding(crate::specs::Calls::tak_load))]
pub fn tak_load(
    k: u32,
    n: u32,
    s: u32,
    b: u32,
    t: u32,
    text: &[u8],
    image: &mut [u32],
    lines: &mut u64,
    line: &mut u64,
) -> u32
    ensures { tak_load (parameters_of k n s b t) text.now image.old
        ≡ record { number = result; lines = lines.new; line = line.new; image = image.new } }
{
    let p = Parameters { k, n, s, b, t };
    let reported = load_numbers(load(p, text, image));
    *lines = reported.lines;
    *line = reported.line;
    reported.refusal
}

// Starts the machine: the refusal or 0, and the fresh record.
#[tactic(auto, using(crate::proofs::Narrow::start_narrow), unfolding(crate::specs::Calls::tak_start))]
pub fn tak_start(
    k: u32,
    n: u32,
    s: u32,
    b: u32,
    t: u32,
    image: &[u32],
    registers: &mut [i32],
    cells: &mut [i32],
    fields: &mut [i64],
) -> u32
    ensures { tak_start (environment_of (parameters_of k n s b t) image.now [])
        (as_slices fields.old registers.old cells.old)
        ≡ record { number = result; slices = as_slices fields.new registers.new cells.new } }
{
    if fields.len() != RECORD_LENGTH {
        return REFUSED_RECORD_LENGTH;
    }
    let p = Parameters { k, n, s, b, t };
    match start(p, image, registers, cells) {
        Ok(rec) => {
            put_record(rec, fields);
            0
        }
        Err(refusal) => u32::from(refusal),
    }
}

// A refused grant reports its number alone.
fn refused_grant(refusal: u32) -> GrantNumbers
    ensures { result ≡ record { refusal = refusal; ending = 0; values = 0; spent = 0 } }
{
    GrantNumbers {
        refusal,
        ending: 0,
        values: 0,
        spent: 0,
    }
}

// Grants cycles to the machine of a record slice.
#[tactic(auto, unfolding(crate::specs::Calls::tak_grant))]
fn grant_to(
    fields: &mut [i64],
    cycles: u64,
    image: &[u32],
    input: &[u8],
    registers: &mut [i32],
    cells: &mut [i32],
    output: &mut [i32],
) -> GrantNumbers
    ensures { tak_grant (environment_of (record_from fields.old).parameters image.now input.now)
        (as_slices fields.old registers.old cells.old) (as_call cycles output.old)
        ≡ record {
          number = result.refusal;
          ending = result.ending;
          values = result.values;
          spent = result.spent;
          slices = as_slices fields.new registers.new cells.new;
          output = output.new;
        } }
{
    if fields.len() != RECORD_LENGTH {
        return refused_grant(REFUSED_RECORD_LENGTH);
    }
    let rec = record_from(fields);
    match grant(rec, cycles, image, input, registers, cells, output) {
        Ok(accepted) => {
            put_record(accepted.rec, fields);
            GrantNumbers {
                refusal: 0,
                ending: ending_number(accepted.ending),
                values: accepted.values as u64,
                spent: accepted.cycles,
            }
        }
        Err(refusal) => refused_grant(u32::from(refusal)),
    }
}

// Grants cycles: the refusal or 0, how it ended, the count of values in the output slice, the cycles spent in this call.
pub fn tak_grant(
    fields: &mut [i64],
    cycles: u64,
    image: &[u32],
    input: &[u8],
    registers: &mut [i32],
    cells: &mut [i32],
    output: &mut [i32],
    ending: &mut u32,
    values: &mut u64,
    spent: &mut u64,
) -> u32
    ensures { tak_grant (environment_of (record_from fields.old).parameters image.now input.now)
        (as_slices fields.old registers.old cells.old) (as_call cycles output.old)
        ≡ record {
          number = result;
          ending = ending.new;
          values = values.new;
          spent = spent.new;
          slices = as_slices fields.new registers.new cells.new;
          output = output.new;
        } }
{
    let reported = grant_to(fields, cycles, image, input, registers, cells, output);
    *ending = reported.ending;
    *values = reported.values;
    *spent = reported.spent;
    reported.refusal
}

// Writes a value in decimal: the refusal or 0, and the count of bytes.
#[tactic(auto, unfolding(crate::specs::Calls::tak_decimal))]
pub fn tak_decimal(value: i32, bytes: &mut [u8], count: &mut u64) -> u32
    ensures { tak_decimal value bytes.old ≡ record { number = result; count = count.new; bytes = bytes.new } }
{
    match write_decimal(value, bytes) {
        Ok(written) => {
            *count = written as u64;
            0
        }
        Err(refusal) => {
            *count = 0;
            u32::from(refusal)
        }
    }
}
