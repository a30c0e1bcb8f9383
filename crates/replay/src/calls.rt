// Lists of calls. A call is three numbers, kind, index and value: 0 start; 1 grant of `value` cycles with room for `index` values; 2 to 5 put the
// value into a field of the record, a register, a data cell, a word of the image; 6 prints the image.
ghost use Rattle.std.specs.Prelude.{◌≤◌, length, ⊤};

use crate::images::put_image;
use crate::printer::Printer;
use crate::reader::{Reader, at_most, low};
use machine::{grant, start};
use model::{AcceptedGrant, Ending, LoadError, Parameters, Record, Refusal};

// What a call does.
#[derive(Clone, Copy)]
enum CallKind {
    Start,
    Grant,
    SetField,
    SetRegister,
    SetCell,
    SetWord,
    PutImage,
}

// One that is none of 0 to 6 counts as 5.
impl From<u64> for CallKind {
    ghost from_gives = { λ _ _. ⊤ };

    fn from(number: u64) -> CallKind {
        match number {
            0 => CallKind::Start,
            1 => CallKind::Grant,
            2 => CallKind::SetField,
            3 => CallKind::SetRegister,
            4 => CallKind::SetCell,
            6 => CallKind::PutImage,
            _ => CallKind::SetWord,
        }
    }
}

#[derive(Clone, Copy)]
struct Call {
    kind: CallKind,
    index: u64,
    value: u64,
}

// The next call.
fn read_call(reader: &mut Reader) -> Call
    ensures { length reader.new.rest.now ≤ length reader.old.rest.now }
{
    let kind = CallKind::from(reader.number());
    let index = reader.number();
    let value = reader.number();
    Call { kind, index, value }
}

// The paper's numbers of load's answer: refusal, count of lines, index of the faulty line.
pub fn put_loaded(to: &mut Printer, loaded: Result<usize, LoadError>) {
    match loaded {
        Ok(lines) => {
            to.put(0);
            to.put(lines);
            to.put(0);
        }
        Err(e) => {
            to.put(u32::from(e.refusal));
            to.put(0);
            to.put(e.line);
        }
    }
    to.put_end();
}

fn put_record(to: &mut Printer, rec: Record) {
    let Parameters { k, n, s, b, t } = rec.parameters;
    for parameter in [k, n, s, b, t] {
        to.put(parameter);
    }
    to.put(rec.iar);
    to.put(rec.ircr);
    to.put(rec.shr);
    to.put(rec.place);
    to.put(rec.granted);
    to.put(rec.spent);
    to.put(rec.deepest);
}

// 1 failed, 2 ended, 3 paused, 4 output full, as the stored outputs have it; tak's numbers are the header's. No `From`: neither type is this crate's.
fn ending_number(e: Ending) -> u64 {
    match e {
        Ending::Failed => 1,
        Ending::Ended => 2,
        Ending::Paused => 3,
        Ending::OutputFull => 4,
    }
}

// The paper's numbers of a grant's answer: the refusal and the ending, 0 for the one that there is not; the record; the values and the cycles.
fn put_granted(to: &mut Printer, given: Record, granted: Result<AcceptedGrant, Refusal>) {
    match granted {
        Ok(grant) => {
            to.put(0);
            to.put(ending_number(grant.ending));
            put_record(to, grant.rec);
            to.put(grant.values);
            to.put(grant.cycles);
        }
        Err(refusal) => {
            to.put(u32::from(refusal));
            to.put(0);
            put_record(to, given);
            to.put(0);
            to.put(0);
        }
    }
    to.put_end();
}

// Puts a value at a place, if there is that place.
fn set<T: Copy>(values: &mut [T], place: u64, value: T) {
    let place = usize::try_from(place).ok();
    if let Some(old) = place.and_then(|at| values.get_mut(at)) {
        *old = value;
    }
}

// The parameters, the record and the buffers that the calls are made with.
#[derive(Drop)]
pub struct Machine<'a> {
    pub parameters: Parameters,
    pub rec: Record,
    pub image: Vec<u32>,
    pub input: &'a [u8],
    pub registers: Vec<i32>,
    pub cells: Vec<i32>,
}

impl<'a> Machine<'a> {
    fn put_memory(&self, to: &mut Printer) {
        to.put_values(&self.registers);
        to.put_values(&self.cells);
    }

    // What start gives: a refused one a record of zeros.
    fn start(&mut self, to: &mut Printer) {
        let parameters = self.parameters;
        let started = start(
            parameters,
            &self.image,
            &mut self.registers,
            &mut self.cells,
        );
        self.rec = started.unwrap_or_default();
        to.put(started.err().map_or(0, u32::from));
        put_record(to, self.rec);
        to.put_end();
        self.put_memory(to);
    }

    // What a grant gives with an output slice of at most 64 values, each 77 before the call.
    fn grant(&mut self, to: &mut Printer, cycles: u64, room: usize)
        requires { room ≤ 64 }
    {
        let mut values = [77i32; 64];
        let out = &mut values[..room];
        let rec = self.rec;
        let input = self.input;
        let granted = grant(
            rec,
            cycles,
            &self.image,
            input,
            &mut self.registers,
            &mut self.cells,
            out,
        );
        put_granted(to, rec, granted);
        self.rec = granted.map_or(rec, |grant| grant.rec);
        self.put_memory(to);
        to.put_values(out);
    }

    // Changes a field of the record: the five parameters, then IAR, IRCR, SHR, the place, granted, spent, the greatest SHR. The stored cases have these
    // numbers.
    fn set_field(&mut self, index: u64, v: u64) {
        let rec = &mut self.rec;
        match index {
            0 => rec.parameters.k = low(v),
            1 => rec.parameters.n = low(v),
            2 => rec.parameters.s = low(v),
            3 => rec.parameters.b = low(v),
            4 => rec.parameters.t = low(v),
            5 => rec.iar = low(v),
            6 => rec.ircr = low(v),
            7 => rec.shr = v.cast_signed(),
            8 => rec.place = v as usize,
            9 => rec.granted = v,
            10 => rec.spent = v,
            _ => rec.deepest = v.cast_signed(),
        }
    }

    // Makes a call, or a change.
    fn run_call(&mut self, to: &mut Printer, call: Call) {
        let Call { kind, index, value } = call;
        match kind {
            CallKind::Start => self.start(to),
            CallKind::Grant => self.grant(to, value, at_most(index, 64)),
            CallKind::SetField => self.set_field(index, value),
            CallKind::SetRegister => set(&mut self.registers, index, low(value).cast_signed()),
            CallKind::SetCell => set(&mut self.cells, index, low(value).cast_signed()),
            CallKind::SetWord => set(&mut self.image, index, low(value)),
            CallKind::PutImage => put_image(to, self.parameters, &self.image),
        }
    }

    // The next calls, so many.
    pub fn run_calls(&mut self, to: &mut Printer, reader: &mut Reader, count: u32)
        ensures { length reader.new.rest.now ≤ length reader.old.rest.now }
    {
        for _ in 0..count {
            let call = read_call(reader);
            self.run_call(to, call);
        }
    }
}
