// The printer: numbers with a blank behind each, and LF.
use std::alloc::Global;
use std::fmt::Display;
use std::io;
use std::io::{BufWriter, Stdout, Write};
use writer::decimal::write_decimal;

// The output. Behind a write that failed nothing more is written, and `finish` says so.
#[derive(Drop)]
pub struct Printer {
    out: BufWriter<Stdout>,
    written: io::Result<()>,
}

impl Printer {
    pub fn new(alloc: Global, stdout: Stdout) -> io::Result<Printer> {
        let out = BufWriter::new(alloc, stdout)?;
        Ok(Printer {
            out,
            written: Ok(()),
        })
    }

    // Whether all was written.
    pub fn finish(self) -> io::Result<()> {
        let Printer { mut out, written } = self;
        written?;
        out.flush()
    }

    // Bytes as they are.
    pub fn put_text(&mut self, text: &[u8]) {
        if self.written.is_ok() {
            self.written = self.out.write_all(text);
        }
    }

    // A number.
    pub fn put<T: Display + Copy>(&mut self, number: T) {
        if self.written.is_ok() {
            self.written = write!(self.out, "{number} ");
        }
    }

    // LF.
    pub fn put_end(&mut self) {
        self.put_text(b"\n");
    }

    // A value, as the decimal writer spells it, and the blank behind it.
    pub fn put_value(&mut self, value: i32) {
        let mut text = [b' '; 12];
        let count = write_decimal(value, &mut text).unwrap_or(0);
        if let Some(spelled) = text.get(..=count) {
            self.put_text(spelled);
        }
    }

    // Values on a line.
    pub fn put_values(&mut self, values: &[i32]) {
        for &value in values {
            self.put_value(value);
        }
        self.put_end();
    }
}
