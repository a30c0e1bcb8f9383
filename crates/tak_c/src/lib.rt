// The calls that include/tak.h declares, for the static library libtak.a: each is one call of the crate tak, and states its clauses again. A static
// library is no library for other crates, so the calls themselves stand in tak.
#![tactic(auto)]

ghost use Rattle.std.specs.Prelude.{◌≡◌, []};
ghost use Rattle.model.specs.Calls.{as_call};
ghost use Rattle.model.specs.Step.{environment_of};
ghost use Rattle.tak.specs.Calls.{as_slices, parameters_of, tak_load, tak_start, tak_grant, tak_decimal};
ghost use Rattle.tak.specs.Records.{record_from};

// Loads a text into an image: the refusal or 0, the count of lines, the index of the faulty line.
#[unsafe(no_mangle)]
pub extern "C" fn tak_load(
    k: u32,
    n: u32,
    s: u32,
    b: u32,
    t: u32,
    text: &[u8],
    image: &mut [u32],
    lines: &mut u64,
    line: &mut u64,
) -> u32
    ensures { tak_load (parameters_of k n s b t) text.now image.old
        ≡ record { number = result; lines = lines.new; line = line.new; image = image.new } }
{
    tak::tak_load(k, n, s, b, t, text, image, lines, line)
}

// Starts the machine: the refusal or 0, and the fresh record.
#[unsafe(no_mangle)]
pub extern "C" fn tak_start(
    k: u32,
    n: u32,
    s: u32,
    b: u32,
    t: u32,
    image: &[u32],
    registers: &mut [i32],
    cells: &mut [i32],
    fields: &mut [i64],
) -> u32
    ensures { tak_start (environment_of (parameters_of k n s b t) image.now [])
        (as_slices fields.old registers.old cells.old)
        ≡ record { number = result; slices = as_slices fields.new registers.new cells.new } }
{
    tak::tak_start(k, n, s, b, t, image, registers, cells, fields)
}

// Grants cycles: the refusal or 0, how it ended, the count of values in the output slice, the cycles spent in this call.
#[unsafe(no_mangle)]
pub extern "C" fn tak_grant(
    fields: &mut [i64],
    cycles: u64,
    image: &[u32],
    input: &[u8],
    registers: &mut [i32],
    cells: &mut [i32],
    output: &mut [i32],
    ending: &mut u32,
    values: &mut u64,
    spent: &mut u64,
) -> u32
    ensures { tak_grant (environment_of (record_from fields.old).parameters image.now input.now)
        (as_slices fields.old registers.old cells.old) (as_call cycles output.old)
        ≡ record {
          number = result;
          ending = ending.new;
          values = values.new;
          spent = spent.new;
          slices = as_slices fields.new registers.new cells.new;
          output = output.new;
        } }
{
    tak::tak_grant(
        fields, cycles, image, input, registers, cells, output, ending, values, spent,
    )
}

// Writes a value in decimal: the refusal or 0, and the count of bytes.
#[unsafe(no_mangle)]
pub extern "C" fn tak_decimal(value: i32, bytes: &mut [u8], count: &mut u64) -> u32
    ensures { tak_decimal value bytes.old ≡ record { number = result; count = count.new; bytes = bytes.new } }
{
    tak::tak_decimal(value, bytes, count)
}
