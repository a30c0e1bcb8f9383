// takrun: runs the program of the current folder. It reads `tak.par`, `tak.tcl` and `tak.in`; a file that is missing or cannot be read counts as empty.
#![tactic(auto)]

ghost use Rattle.std.specs.Prelude.{◌≡◌, ◌↔◌, ◌*◌, ◌≤◌, ◌<◌, length, IfOk, IfErr, IsErr, Ok, Err, IfSome, MatchOption, Some, None};
ghost use Rattle.std.specs.IoError.{error_kind};
ghost use Rattle.model.specs.Program.{slice_values};
ghost use Rattle.model.specs.Parameters.{max_registers, max_cells, max_instructions};
ghost use Rattle.model.specs.Calls.{as_held, as_call};
ghost use Rattle.model.specs.Step.{as_memory, environment_of};
ghost use Rattle.session.specs.Sessions.{Sizes, size_of, lines_bytes, ReportIs};

use model::{Parameters, Record};
use session::{Report, open, run_grant};
use settings::{CallError, Failed, Intake, Scan, Transfer, contents, settings_of, take_piece};
use std::io::{ErrorKind, Read, Write};
use std::rt::Files;
use std::{fs, io};

// The greatest image, registers and data; the values of one grant, and the bytes of their lines with a last one.
const MAX_WORDS: usize = 4 * Record::MAX_INSTRUCTIONS as usize;

const MAX_REGISTERS: usize = Record::MAX_REGISTERS as usize;

const MAX_CELLS: usize = Record::MAX_CELLS as usize;

const MAX_VALUES: usize = 4096;

const MAX_LINES: usize = 12 * MAX_VALUES + 80;

// One byte more than a text or an input may have. One buffer serves all three files, one after the other.
const MAX_BYTES: usize = Record::MAX_TEXT + 1;

// What a call of read or write moved, or why it moved nothing.
fn moved(answer: io::Result<usize>) -> Result<usize, CallError>
    ensures ok { IfOk answer (λ n. result ≡ Ok n) }
    ensures err { IfErr answer (λ e. IsErr result × (result ≡ Err CallError.Interrupted ↔ error_kind e ≡ ErrorKind.Interrupted)) }
{
    match answer {
        Ok(n) => Ok(n),
        Err(e) if e.kind() == ErrorKind::Interrupted => Err(CallError::Interrupted),
        Err(_) => Err(CallError::Other),
    }
}

// The scan of `tak.par`, read piece by piece into the buffer.
fn read_pieces<R: Read>(file: &mut R, bytes: &mut [u8]) -> Option<Scan>
    requires { 0 < length bytes.old }
{
    let mut intake = Intake::untaken();
    while 0 < intake.calls {
        let answer = moved(file.read(bytes));
        let read = Transfer::begun(bytes.len()).after_call(answer);
        intake = take_piece(intake, read, bytes);
    }
    intake.scan
}

fn read_parameters<R: Files>(rt: &R, bytes: &mut [u8]) -> Parameters
    requires { 0 < length bytes.old }
{
    match fs::open(rt, "tak.par") {
        Ok(mut file) => settings_of(read_pieces(&mut file, bytes)),
        Err(_) => settings_of(Some(Scan::unread())),
    }
}

// Reads until the buffer is full or the file ends. Not one loop with `print` over a closure that is given the place: it may be called at any, and so
// would have to give up behind the buffer's end, where here the place is proved to be in it.
fn read_all<R: Read>(file: &mut R, bytes: &mut [u8]) -> Result<Transfer, Failed>
    ensures { IfOk result (λ t. t.count ≤ length bytes.old) }
{
    let mut t = Transfer::begun(bytes.len());
    while 0 < t.calls {
        let from = t.count;
        let answer = moved(file.read(&mut bytes[from..]));
        t = t.after_call(answer)?;
    }
    Ok(t)
}

fn read_file<R: Files>(rt: &R, path: &str, bytes: &mut [u8]) -> usize
    ensures { result ≤ length bytes.old }
{
    match fs::open(rt, path) {
        Ok(mut file) => contents(read_all(&mut file, bytes)),
        Err(_) => 0,
    }
}

// Writes all of the bytes, or says behind how many it could not.
fn print<W: Write>(out: &mut W, bytes: &[u8]) -> Result<(), Failed> {
    let mut t = Transfer::begun(bytes.len());
    while 0 < t.calls {
        let answer = moved(out.write(&bytes[t.count..]));
        t = t.after_call(answer)?;
    }
    if t.count < bytes.len() {
        return Err(Failed { count: t.count });
    }
    Ok(())
}

// The grant that follows, if one does, and its lines. Slices and not a Program: ReportIs speaks of each lent slice.
fn next_grant(
    report: Report,
    image: &[u32],
    input: &[u8],
    registers: &mut [i32],
    cells: &mut [i32],
    values: &mut [i32; MAX_VALUES],
    lines: &mut [u8; MAX_LINES],
) -> Option<Report>
    ensures report_is { MatchOption result (report.next ≡ None) (λ r. (cycles : _) × (report.next ≡ Some cycles) × ReportIs (environment_of report.rec.parameters image.now input.now)
        (as_held report.rec registers.old cells.old) (as_call cycles values.old) lines.old
        r (as_memory registers.new cells.new) values.new lines.new) }
    ensures within { IfSome result (λ r. r.count ≤ length lines.new) }
{
    let cycles = report.next?;
    let rec = report.rec;
    Some(run_grant(rec, cycles, image, input, registers, cells, values, lines))
}

// The length of a slice of that many; load refuses what is over the limit before it looks at a slice. No `min`: such a slice is empty.
fn size_of(n: u32, most: usize) -> usize
    ensures value { result ≡ size_of n most }
    ensures within { result ≤ most }
{
    let n = n as usize;
    if n <= most { n } else { 0 }
}

// Grants as long as more follow. After a write that failed nothing more is written: the last line is missing, so that the loss can be seen.
fn run_grants<W: Write>(
    out: &mut W,
    first: Report,
    image: &[u32],
    input: &[u8],
    registers: &mut [i32],
    cells: &mut [i32],
    values: &mut [i32; MAX_VALUES],
    lines: &mut [u8; MAX_LINES],
) -> Result<(), Failed> {
    let mut report = first;
    while let Some(next) = next_grant(report, image, input, registers, cells, values, lines) {
        report = next;
        print(out, &lines[..report.count])?;
    }
    Ok(())
}

// The text, loaded and started.
fn load_text<R: Files>(
    rt: &R,
    p: Parameters,
    bytes: &mut [u8],
    image: &mut [u32],
    registers: &mut [i32],
    cells: &mut [i32],
    lines: &mut [u8],
) -> Report
    requires sizes { Sizes p image.old (as_memory registers.old cells.old) }
    requires in_bounds { 80 ≤ length lines.old }
    ensures { result.count ≤ length lines.new }
{
    let count = read_file(rt, "tak.tcl", bytes);
    open(p, &bytes[..count], image, registers, cells, lines)
}

// The input takes the text's place in the buffer.
fn run_input<R: Files, W: Write>(
    rt: &R,
    out: &mut W,
    first: Report,
    bytes: &mut [u8],
    image: &[u32],
    registers: &mut [i32],
    cells: &mut [i32],
    values: &mut [i32; MAX_VALUES],
    lines: &mut [u8; MAX_LINES],
) -> Result<(), Failed> {
    let count = read_file(rt, "tak.in", bytes);
    run_grants(
        out,
        first,
        image,
        &bytes[..count],
        registers,
        cells,
        values,
        lines,
    )
}

fn run<R: Files, W: Write>(
    rt: &R,
    out: &mut W,
    p: Parameters,
    bytes: &mut [u8],
    image: &mut [u32],
    registers: &mut [i32],
    cells: &mut [i32],
    values: &mut [i32; MAX_VALUES],
    lines: &mut [u8; MAX_LINES],
) -> Result<(), Failed>
    requires sizes { Sizes p image.old (as_memory registers.old cells.old) }
{
    let report = load_text(rt, p, bytes, image, registers, cells, lines);
    print(out, &lines[..report.count])?;
    if report.next.is_none() {
        return Ok(());
    }
    run_input(
        rt, out, report, bytes, image, registers, cells, values, lines,
    )
}

// The slices of the parameters' lengths. Arrays: fixed memory, no heap. They are lent one by one, here and above: a struct of the arrays was tried, and with
// it main took 281,992 bytes of stack, more than the 256 KiB there are. One of slices would be taken apart for each call of session, which is lent them apart.
fn run_slices<R: Files, W: Write>(
    rt: &R,
    out: &mut W,
    p: Parameters,
    bytes: &mut [u8],
    image: &mut [u32; MAX_WORDS],
    registers: &mut [i32; MAX_REGISTERS],
    cells: &mut [i32; MAX_CELLS],
    values: &mut [i32; MAX_VALUES],
    lines: &mut [u8; MAX_LINES],
) -> Result<(), Failed> {
    let words = 4 * size_of(p.t, MAX_WORDS / 4);
    let n = size_of(p.n, MAX_REGISTERS);
    let s = size_of(p.s, MAX_CELLS);
    run(
        rt,
        out,
        p,
        bytes,
        &mut image[..words],
        &mut registers[..n],
        &mut cells[..s],
        values,
        lines,
    )
}

fn main(rt: HostRuntime) {
    let mut bytes = [0u8; MAX_BYTES];
    let p = read_parameters(&rt, &mut bytes);
    let mut image = [0u32; MAX_WORDS];
    let mut registers = [0i32; MAX_REGISTERS];
    let mut cells = [0i32; MAX_CELLS];
    let mut values = [0i32; MAX_VALUES];
    let mut lines = [0u8; MAX_LINES];
    // A write that failed shows by the line that is missing.
    let _ = run_slices(
        &rt,
        &mut rt.stdout(),
        p,
        &mut bytes,
        &mut image,
        &mut registers,
        &mut cells,
        &mut values,
        &mut lines,
    );
}
