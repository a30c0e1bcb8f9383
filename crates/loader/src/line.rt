// A line of a text: the instruction, the count of its arguments, and each argument.
ghost use Rattle.std.specs.Prelude.{◌≡◌, ℕ, ◌/◌, ◌<◌, List, cond, [], eqb, length};
ghost use Rattle.model.specs.Instructions.{row_of};
ghost use Rattle.model.specs.Load.{line_of, unless_one_target};
ghost use Rattle.model.specs.Replies.{refusal_number_of};
ghost use Rattle.image.specs.Decode.{cell_from};
ghost use Rattle.image.specs.Forms.{packed};
ghost use Rattle.loader.specs.Faults.{checked_of};
ghost use Rattle.loader.specs.Lines.{form_count, unpacked, counted, counted_on};
ghost use Rattle.text.specs.Words.{words_left};

use crate::arguments::argument_word;
use crate::tables::Tables;
use bounds::limits::Limits;
use image::decode::{Instruction, one_target};
use image::forms::NOP;
use model::Refusal;
use text::words::Words;

// The count of the forms.
fn form_count(forms: u32) -> usize
    ensures { result ≡ form_count forms }
{
    match forms {
        0 => 0,
        1..=15 => 1,
        16..=255 => 2,
        _ => 3,
    }
}

// A faulty argument, unless the count of the words behind it is wrong, which comes first.
#[tactic(auto, using(text::proofs::Walks::words_few))]
fn fault_unless_miscounted(words: Words, forms: u32, fault: Refusal) -> Refusal
    ensures { refusal_number_of result ≡ cond (eqb (length (words_left words.entry)) (form_count forms)) (refusal_number_of fault) 12 }
{
    if words.count() == form_count(forms) {
        fault
    } else {
        Refusal::ArgumentCount
    }
}

// The word of the next argument, at the first of these forms; 0 where there is none. The words are counted as they are read, so that they are read once.
fn next_argument(words: &mut Words, forms: u32, limits: Limits) -> Result<u32, Refusal>
    requires { forms < 4096 }
    ensures { (n : ℕ) (xs : List ℕ) → counted limits.parameters n xs (unpacked forms) (words_left words.old) ≡ counted_on limits.parameters n xs (unpacked (forms / 16)) (words_left words.new) result }
{
    if forms == 0 {
        return Ok(0);
    }
    let Some(word) = words.next() else {
        return Err(Refusal::ArgumentCount);
    };
    match argument_word(word, forms % 16, limits) {
        Ok(x) => Ok(x),
        Err(fault) => Err(fault_unless_miscounted(*words, forms / 16, fault)),
    }
}

// An instruction, unless it would write both of its values to one register.
fn unless_one_target(i: Instruction) -> Result<Instruction, Refusal>
    ensures { checked_of cell_from result ≡ unless_one_target (cell_from i) }
{
    if one_target(i) {
        Err(Refusal::SameTarget)
    } else {
        Ok(i)
    }
}

// The arguments of an instruction, each at its form.
fn parse_arguments(
    mut words: Words,
    number: u32,
    forms: u32,
    limits: Limits,
) -> Result<Instruction, Refusal>
    requires { forms ≡ packed (row_of number).forms }
    ensures { checked_of cell_from result ≡ counted limits.parameters number [] (row_of number).forms (words_left words.entry) }
{
    let mut arguments = [0; 3];
    let mut rest = forms;
    for argument in &mut arguments {
        *argument = next_argument(&mut words, rest, limits)?;
        rest /= 16;
    }
    let [first, second, third] = arguments;
    match words.next() {
        None => unless_one_target(Instruction {
            number,
            first,
            second,
            third,
        }),
        Some(_) => Err(Refusal::ArgumentCount),
    }
}

// The line as a cell.
pub fn parse_line(l: &[u8], limits: Limits, tables: &Tables) -> Result<Instruction, Refusal>
    ensures { checked_of cell_from result ≡ line_of limits.parameters l.now }
{
    let mut words = Words::new(l);
    let Some(name) = words.next() else {
        return Ok(Instruction {
            number: NOP,
            ..Instruction::EMPTY
        });
    };
    let number = tables.names.find(name).ok_or(Refusal::Instruction)?;
    parse_arguments(words, number, tables.forms.forms_of(number), limits)
}
