// What takrun does with the contents of its files: load and start, then a grant at a time, with the lines that it prints.
#![tactic(auto)]

pub mod printing;

ghost use Rattle.std.specs.Prelude.{None, Some, [], ◌≡◌, ◌+◌, ◌≤◌, length};
ghost use Rattle.model.specs.Calls.{as_held, as_call, zero_record};
ghost use Rattle.model.specs.Step.{as_memory, environment_of};
ghost use Rattle.model.specs.Grants.{Stopped};
ghost use Rattle.model.specs.Lines.{refusal_line};
ghost use Rattle.model.specs.Program.{is_full, ending_lines, last_lines, slice_values};
ghost use Rattle.model.specs.Replies.{refusal_number_of, grant_answer};
ghost use Rattle.session.specs.Puts.{longest_line, Put};
ghost use Rattle.session.specs.Sessions.{Sizes, lines_bytes, followed_by, BeginIs, OpenIs, ReportIs};

use crate::printing::{put_ending, put_refusal, put_values};
use loader::load;
use machine::{grant, start};
use model::{AcceptedGrant, Ending, LoadError, Parameters, Record, Refusal};

// After a call: the bytes of its lines, its record, and the cycles of the grant that follows, if one does.
#[derive(Clone, Copy)]
pub struct Report {
    pub count: usize,
    pub rec: Record,
    pub next: Option<u64>,
}

// The line of a refused call, behind which nothing follows. That `lines` has room is asked here and below: it is a lent slice, or one behind the values'
// lines, whose length no type has.
fn refuse(refusal: Refusal, line: usize, rec: Record, lines: &mut [u8]) -> Report
    requires { longest_line ≤ length lines.old }
    ensures put { Put lines.old (refusal_line (refusal_number_of refusal) line) lines.new result.count }
    ensures last { (result.next ≡ None) × (result.rec ≡ rec) }
{
    Report {
        count: put_refusal(u32::from(refusal), line, lines),
        rec,
        next: None,
    }
}

// The record of zeros, of a refused start.
fn zero_record() -> Record
    ensures { result ≡ zero_record }
{
    Record::default()
}

// The cycles of the first grant; one behind a full output has 0.
const FIRST_GRANT: u64 = 1_000_000_000;

// Start; then the first grant follows.
fn begin(
    p: Parameters,
    image: &[u32],
    registers: &mut [i32],
    cells: &mut [i32],
    lines: &mut [u8],
) -> Report
    requires { longest_line ≤ length lines.old }
    ensures begin_is { BeginIs (environment_of p image.now []) (as_memory registers.old cells.old) lines.old
        result (as_memory registers.new cells.new) lines.new }
    ensures within { result.count ≤ length lines.new }
{
    match start(p, image, registers, cells) {
        Ok(rec) => Report {
            count: 0,
            rec,
            next: Some(FIRST_GRANT),
        },
        Err(refusal) => refuse(refusal, 0, zero_record(), lines),
    }
}

// Load, then start.
pub fn open(
    p: Parameters,
    text: &[u8],
    image: &mut [u32],
    registers: &mut [i32],
    cells: &mut [i32],
    lines: &mut [u8],
) -> Report
    requires sizes { Sizes p image.old (as_memory registers.old cells.old) }
    requires in_bounds { longest_line ≤ length lines.old }
    ensures open_is { OpenIs p text.now image.old (as_memory registers.old cells.old) lines.old
        result image.new (as_memory registers.new cells.new) lines.new }
    ensures within { result.count ≤ length lines.new }
{
    match load(p, text, image) {
        Ok(_) => begin(p, image, registers, cells, lines),
        Err(LoadError { refusal, line }) => refuse(refusal, line, Record::fresh(p), lines),
    }
}

// The count of the values that a grant wrote: none if it is refused.
fn values_written(reply: Result<AcceptedGrant, Refusal>) -> usize
    ensures { (given : Record) → result ≡ (grant_answer given reply).values }
{
    reply.map_or(0, |accepted| accepted.values)
}

// The last line, unless the output was full. What follows a full output is a grant of 0.
fn finish_accepted(reply: AcceptedGrant, lines: &mut [u8]) -> Report
    requires { longest_line ≤ length lines.old }
    ensures put { Put lines.old (ending_lines reply.ending reply.rec) lines.new result.count }
    ensures next_value { (result.next ≡ followed_by (is_full (Stopped reply.ending)) 0) × (result.rec ≡ reply.rec) }
{
    let rec = reply.rec;
    let ending = reply.ending;
    if let Ending::OutputFull = ending {
        return Report {
            count: 0,
            rec,
            next: Some(0),
        };
    }
    Report {
        count: put_ending(ending, rec.ircr, rec.iar, rec.spent, lines),
        rec,
        next: None,
    }
}

// The last line of a grant to the record `given`.
fn finish(given: Record, reply: Result<AcceptedGrant, Refusal>, lines: &mut [u8]) -> Report
    requires { longest_line ≤ length lines.old }
    ensures put { let g = grant_answer given reply in Put lines.old (last_lines g.outcome g.rec) lines.new result.count }
    ensures next_value { let g = grant_answer given reply in (result.next ≡ followed_by (is_full g.outcome) 0) × (result.rec ≡ g.rec) }
{
    match reply {
        Ok(accepted) => finish_accepted(accepted, lines),
        Err(refusal) => refuse(refusal, 0, given, lines),
    }
}

// A grant, and its lines.
pub fn run_grant(
    rec: Record,
    cycles: u64,
    image: &[u32],
    input: &[u8],
    registers: &mut [i32],
    cells: &mut [i32],
    values: &mut [i32],
    lines: &mut [u8],
) -> Report
    requires { (length values.old ≡ slice_values) × (lines_bytes ≤ length lines.old) }
    ensures report_is { ReportIs (environment_of rec.parameters image.now input.now)
        (as_held rec registers.old cells.old) (as_call cycles values.old) lines.old
        result (as_memory registers.new cells.new) values.new lines.new }
    ensures within { result.count ≤ length lines.new }
{
    let reply = grant(rec, cycles, image, input, registers, cells, values);
    let count = values_written(reply);
    let at = put_values(&values[..count], lines);
    let last = finish(rec, reply, &mut lines[at..]);
    Report {
        count: at + last.count,
        ..last
    }
}
