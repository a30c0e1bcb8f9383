// A cell of an image taken apart, and whether a text can yield it.
ghost use Rattle.std.specs.Prelude.{◌≡◌, ◌≤◌, length};
ghost use Rattle.model.specs.Words.{cell_of};
ghost use Rattle.model.specs.Images.{register_fits, word_fits, cell_fits};
ghost use Rattle.model.specs.Load.{one_target};
ghost use Rattle.image.specs.Decode.{instruction_of, cell_from, argument_word_fits, argument_words_fit, decoded_of};

use crate::forms::{
    DIVR, FormTable, INSTRUCTIONS, allows_direct, allows_number, allows_register, allows_special,
};
use crate::kinds::Kind;
use crate::words::{content, kind, number};
use bounds::limits::Limits;
use bounds::ranges::in_range;
use model::words::{IAR, SHR};

// An instruction's number and the words of its arguments; an absent one is 0. The number is no enum, since it is a word of the image, which the
// machine takes apart anew at each step: with an enum made of it there (see `choose` of steps) loops run 2 to 6 % more instructions.
#[derive(Clone, Copy, PartialEq, Eq)]
pub struct Instruction {
    pub number: u32,
    pub first: u32,
    pub second: u32,
    pub third: u32,
}

impl Instruction {
    // The four zeros of an empty cell.
    pub const EMPTY: Instruction = Instruction {
        number: 0,
        first: 0,
        second: 0,
        third: 0,
    };
}

// What a cell is: an instruction, empty, or one that no text yields. All three are answers, so that a Result round an Option would be no plainer.
#[derive(Clone, Copy, PartialEq, Eq)]
pub enum Decoded {
    Runs(Instruction),
    Empty,
    Invalid,
}

// The four words of a cell. No array, since the engine lends a part of the image.
pub fn read_cell(cell: &[u32]) -> Instruction
    requires { length cell.now ≡ 4 }
    ensures { result ≡ instruction_of (cell_of cell.now) }
{
    Instruction {
        number: cell[0],
        first: cell[1],
        second: cell[2],
        third: cell[3],
    }
}

// A register at a place of this form: R0 to R(N-1), or one of the special registers. R0 to R(N-1) first, as most are: with the special ones first the
// check of a full image runs a tenth more instructions.
fn register_fits(limits: Limits, form: u32, index: u32) -> bool
    ensures { result ≡ register_fits limits.parameters form index }
{
    if index < limits.parameters.n {
        allows_register(form)
    } else {
        (IAR..=SHR).contains(&index) && allows_special(form)
    }
}

// A word at a place of this form.
fn word_fits(limits: Limits, form: u32, w: u32) -> bool
    ensures { result ≡ word_fits limits.parameters form w }
{
    match kind(w) {
        Kind::Head => false,
        Kind::Register => register_fits(limits, form, content(w)),
        Kind::Direct => allows_direct(form) && content(w) < limits.parameters.b,
        Kind::Number => allows_number(form) && in_range(limits.m, number(w)),
    }
}

// The same, where a place with form 0 has no argument.
#[tactic(auto, unfolding(crate::specs::Decode::argument_word_fits))]
fn argument_word_fits(limits: Limits, form: u32, w: u32) -> bool
    ensures { result ≡ argument_word_fits limits.parameters form w }
{
    match form {
        0 => w == 0,
        _ => word_fits(limits, form, w),
    }
}

// The three words behind the head, at places of these forms.
#[tactic(auto, unfolding(crate::specs::Decode::argument_words_fit))]
fn arguments_fit(limits: Limits, forms: u32, i: Instruction) -> bool
    ensures { result ≡ argument_words_fit limits.parameters forms i.first i.second i.third }
{
    argument_word_fits(limits, forms % 16, i.first)
        && argument_word_fits(limits, forms / 16 % 16, i.second)
        && argument_word_fits(limits, forms / 256, i.third)
}

// A DIVR that would write both of its values to one register.
pub fn one_target(i: Instruction) -> bool
    ensures { result ≡ one_target (cell_from i) }
{
    i.number == DIVR && i.first == i.third
}

// An instruction's number, arguments as its row has them, and no two targets in one register.
#[tactic(auto, using(crate::proofs::FitLaws::low_head, crate::proofs::FitLaws::high_head))]
fn cell_fits(limits: Limits, forms: &FormTable, i: Instruction) -> bool
    ensures { result ≡ cell_fits limits.parameters (cell_from i) }
{
    match i.number {
        1..=INSTRUCTIONS => arguments_fit(limits, forms.forms_of(i.number), i) && !one_target(i),
        _ => false,
    }
}

// What a cell is.
#[tactic(auto, unfolding(crate::specs::Decode::decoded_of))]
pub fn decode(cell: &[u32; 4], limits: Limits, forms: &FormTable) -> Decoded
    ensures { result ≡ decoded_of limits.parameters (cell_of cell.now) }
{
    let i = read_cell(cell);
    if i == Instruction::EMPTY {
        Decoded::Empty
    } else if cell_fits(limits, forms, i) {
        Decoded::Runs(i)
    } else {
        Decoded::Invalid
    }
}
