// Runs the proved library on the cases of its input and prints every reply and buffer. A case begins with a word. Behind `vector` stand K and two
// values. Behind `calls` stand twelve numbers: K N S B T, the lengths of the image, register and data slices, the bytes of a text, of an input and of
// what the input has beyond them, and the count of calls; then LF, the text, the input and the calls. What the input has beyond its own bytes is what
// follows them in the buffer.
#![tactic(auto)]

ghost use Rattle.std.specs.Prelude.{◌≡◌, ◌^◌, ◌<◌, ◌≤◌, length};

use crate::calls::{Machine, put_loaded};
use crate::printer::Printer;
use crate::reader::{Reader, at_most};
use crate::vectors::run_vector;
use loader::load;
use model::{Parameters, Record};
use std::alloc::Global;
use std::io;
use std::io::Read;

mod calls;
mod images;
mod printer;
mod reader;
mod vectors;

// Its numbers: the parameters, the lengths of the slices, the bytes of the text, the input's own and those beyond, and the count of calls. The image
// has at most 256 words; there are at most 32 registers and 64 data cells, and no more bytes of input than the buffer has.
#[derive(Clone, Copy)]
struct Header {
    parameters: Parameters,
    words: usize,
    registers: usize,
    cells: usize,
    text: usize,
    own: usize,
    beyond: usize,
    calls: u32,
    ghost words_bound: { (words ≤ 256) × (registers ≤ 32) × (cells ≤ 64) },
    ghost bytes_bound: { (text < 2 ^ 32) × (own ≤ 131072) × (beyond ≤ 131072) },
}

fn read_header(reader: &mut Reader) -> Header
    ensures { length reader.new.rest.now ≤ length reader.old.rest.now }
{
    let [
        k,
        n,
        s,
        b,
        t,
        words,
        registers,
        cells,
        text,
        own,
        beyond,
        calls,
    ] = reader.fields();
    Header {
        parameters: Parameters { k, n, s, b, t },
        words: at_most(u64::from(words), 256),
        registers: at_most(u64::from(registers), 32),
        cells: at_most(u64::from(cells), 64),
        text: text as usize,
        own: at_most(u64::from(own), 131072),
        beyond: at_most(u64::from(beyond), 131072),
        calls,
    }
}

// The next case of calls. Where the input is short of text or of input, it is read to its end.
fn run_calls_case(alloc: Global, to: &mut Printer, reader: &mut Reader) -> io::Result<()>
    ensures { length reader.new.rest.now ≤ length reader.old.rest.now }
{
    let header = read_header(reader);
    let Some(text) = reader.bytes(1 + header.text, 0) else {
        return Ok(());
    };
    let Some(input) = reader.bytes(header.own, header.beyond) else {
        return Ok(());
    };
    let mut machine = Machine {
        parameters: header.parameters,
        rec: Record::fresh(header.parameters),
        image: vec![in alloc; 7; header.words]?,
        input,
        registers: vec![in alloc; 77; header.registers]?,
        cells: vec![in alloc; 77; header.cells]?,
    };
    put_loaded(to, load(header.parameters, &text[1..], &mut machine.image));
    machine.run_calls(to, reader, header.calls);
    Ok(())
}

fn run(alloc: Global, to: &mut Printer, input: &[u8]) -> io::Result<()> {
    let mut reader = Reader::new(input);
    while let Some(word) = reader.word() {
        if word[0] == b'v' {
            run_vector(to, &mut reader);
        } else {
            run_calls_case(alloc, to, &mut reader)?;
        }
    }
    Ok(())
}

// Blanks, behind which the input of a case may end: it may have more than 65,536 bytes.
fn blanks() -> [u8; 131072]
    ensures { 131072 ≡ length result }
{
    [b' '; 131072]
}

fn main(rt: HostRuntime) -> io::Result<()> {
    let mut input = blanks();
    io::copy(&mut rt.stdin().take(131072), &mut &mut input[..])?;
    let mut out = Printer::new(rt.alloc(), rt.stdout())?;
    run(rt.alloc(), &mut out, &input)?;
    out.finish()
}
