// The loader: a TCL text into an image.
#![tactic(auto)]

pub mod arguments;
pub mod line;
pub mod names;
pub mod tables;

ghost use Rattle.std.specs.Prelude.{◌≡◌, cond, ◌*◌, leb, length};
ghost use Rattle.model.specs.Words.{cell_words};
ghost use Rattle.image.specs.Decode.{cell_from};
ghost use Rattle.model.specs.Load.{Refused, lines, text_reply, load_reply, image_after, load_numbers, numbers_of_load};
ghost use Rattle.model.specs.Parameters.{Fit};
ghost use Rattle.model.specs.Replies.{refusal_number_of, load_answer};
ghost use Rattle.loader.specs.Passes.{Ready, Filled};

use crate::line::parse_line;
use crate::tables::Tables;
use bounds::limits::{Limits, check_parameters};
use image::decode::Instruction;
use model::{LoadError, Parameters, Record, Refusal};
use text::lines::{Lines, count_lines};

// The fault of line i of a text; but more than t lines come first.
fn line_error(text: &[u8], i: usize, t: usize, fault: Refusal) -> LoadError
    ensures { Refused (refusal_number_of result.refusal) result.line ≡ cond (leb (length (lines text.now)) t) (Refused (refusal_number_of fault) i) (Refused 8 0) }
{
    if count_lines(text) <= t {
        return LoadError {
            refusal: fault,
            line: i,
        };
    }
    LoadError::from(Refusal::LineCount)
}

// The four words of a cell.
fn write_cell(to: &mut [u32], cell: Instruction)
    requires { length to.old ≡ 4 }
    ensures { to.new ≡ cell_words (cell_from cell) }
{
    to.copy_from_slice(&[cell.number, cell.first, cell.second, cell.third]);
}

// A pass over the lines of a text: the count of its lines, or what it is refused for. Only a pass that writes fills the cells of an empty image.
// `write` is no closure: both passes share this code, which a closure would have made twice.
fn parse_lines(
    text: &[u8],
    limits: Limits,
    tables: &Tables,
    write: bool,
    image: &mut [u32],
) -> Result<usize, LoadError>
    requires { (length image.old ≡ 4 * limits.parameters.t) × Ready write limits.parameters image.old }
    ensures value { load_answer result ≡ text_reply limits.parameters text.now }
    ensures image { Filled write limits.parameters text.now image.old image.new (load_answer result) }
{
    let t = limits.parameters.t as usize;
    // Counted by hand: behind an `enumerate` the count is gone, and `count` would look for the ends of all lines once more.
    let mut i = 0;
    for line in Lines::new(text) {
        if i == t {
            return Err(LoadError::from(Refusal::LineCount));
        }
        match parse_line(line, limits, tables) {
            Err(fault) => return Err(line_error(text, i, t, fault)),
            Ok(cell) => {
                if write {
                    write_cell(&mut image[4 * i..4 * i + 4], cell);
                }
            }
        }
        i += 1;
    }
    Ok(i)
}

// Loads a text that the first checks pass. A first pass sees whether it is refused, and only if it is not the image is written.
fn load_lines(text: &[u8], limits: Limits, image: &mut [u32]) -> Result<usize, LoadError>
    requires { length image.old ≡ 4 * limits.parameters.t }
    ensures value { load_answer result ≡ text_reply limits.parameters text.now }
    ensures image { image.new ≡ image_after limits.parameters text.now image.old (load_answer result) }
{
    let tables = Tables::new();
    parse_lines(text, limits, &tables, false, image)?;
    image.fill(0);
    parse_lines(text, limits, &tables, true, image)
}

// Loads a text.
pub fn load(p: Parameters, text: &[u8], image: &mut [u32]) -> Result<usize, LoadError>
    ensures value { load_answer result ≡ load_reply p text.now image.old }
    ensures numbers { load_numbers (load_answer result) ≡ numbers_of_load p text.now image.old }
    ensures image { image.new ≡ image_after p text.now image.old (load_answer result) }
{
    check_parameters(p)?;
    if image.len() != 4 * p.t as usize {
        return Err(LoadError::from(Refusal::ImageLength));
    }
    if Record::MAX_TEXT < text.len() {
        return Err(LoadError::from(Refusal::TextLength));
    }
    load_lines(text, Limits::new(p), image)
}
