// The plan of each instruction.
ghost use Rattle.std.specs.Prelude.{◌≡◌};
ghost use Rattle.model.specs.Instructions.{row_of};
ghost use Rattle.image.specs.Decode.{cell_from};
ghost use Rattle.steps.specs.Choices.{Choosable, plan_of};

use arithmetic::{abs, add, div, div_rem, modulo, mul, neg, sub};
use bitwise::bits::{asr, rand, rnand, rnor, rnot, ror, rsl, rsr, rxor};
use image::decode::Instruction;
use logic::booleans::{
    and, boolean, cmpeq, cmpge, cmpgt, cmple, cmplt, cmpneq, is_true, nand, nor, not, or, xor,
};
use model::Parameters;
use operands::{Core, read};
use plans::{
    Plan, input, jump, jump_boolean, jump_when, keep, pop, push, skip, store, store_answer,
    store_both,
};

// The plan of an instruction whose first two words say x and y. The third is read by the jumps that compare, and by no other. p and m apart and no
// Limits: that has parameters that fit, which a plan does not ask.
// One flat match and no table of functions or closures: each arm takes other operands, and a call through a pointer cannot be taken into the loop.
// Numbers as the image has them. Tried, with this match over an enum that each number is turned into first: loops run 2 to 6 % more instructions, and a
// counting loop took a sixth longer.
#[tactic(auto, unfolding(model::specs::Instructions::row_of, plans::specs::Plans::written_plan, plans::specs::Plans::push_plan, plans::specs::Plans::pop_plan, plans::specs::Plans::jump_plan, plans::specs::Plans::input_plan))]
pub fn choose(
    i: Instruction,
    x: i32,
    y: i32,
    p: Parameters,
    m: u32,
    at: Core,
    registers: &[i32],
    cells: &[i32],
    bytes: &[u8],
) -> Plan
    requires { Choosable i.number p m x y at registers.now cells.now bytes.now }
    ensures { result ≡ plan_of p bytes.now at registers.now cells.now (row_of i.number).operation (cell_from i) x y }
{
    match i.number {
        1 => store(Plan::CLEAR_REGISTERS, 0, at),
        2 => store(Plan::CLEAR_CELLS, 0, at),
        3 => store(Plan::DUMP_REGISTERS, 0, at),
        4 => store(Plan::DUMP_CELLS, 0, at),
        5 => input(i.first, m, at, bytes),
        6 => store(Plan::OUTPUT, x, at),
        7 => store(i.second, x, at),
        8 => store(i.first, y, at),
        9 => push(i.first, x, p.s, at),
        10 => pop(i.first, p.b, at, cells),
        11 => store(i.first, boolean(true), at),
        12 => store(i.first, boolean(false), at),
        13 => store_answer(i.second, not(x), at),
        14 => store_answer(i.third, and(x, y), at),
        15 => store_answer(i.third, or(x, y), at),
        16 => store_answer(i.third, xor(x, y), at),
        17 => store_answer(i.third, nand(x, y), at),
        18 => store_answer(i.third, nor(x, y), at),
        19 => store_answer(i.second, neg(m, x), at),
        20 => store_answer(i.second, abs(m, x), at),
        21 => store_answer(i.third, add(m, x, y), at),
        22 => store_answer(i.third, sub(m, x, y), at),
        23 => store_answer(i.third, mul(m, x, y), at),
        24 => store_answer(i.third, div(m, x, y), at),
        25 => store_answer(i.third, modulo(x, y), at),
        26 => store_answer(i.first, add(m, x, y), at),
        27 => store_answer(i.first, sub(m, x, y), at),
        28 => store(i.third, cmpeq(x, y), at),
        29 => store(i.third, cmpneq(x, y), at),
        30 => store(i.third, cmplt(x, y), at),
        31 => store(i.third, cmpgt(x, y), at),
        32 => store(i.third, cmple(x, y), at),
        33 => store(i.third, cmpge(x, y), at),
        34 => jump(p.t, x, at),
        35 => jump_boolean(y, is_true(y), p.t, x, at),
        36 => jump_boolean(y, !is_true(y), p.t, x, at),
        37 => jump_when(y == read(i.third, at, registers, cells), p.t, x, at),
        38 => jump_when(y != read(i.third, at, registers, cells), p.t, x, at),
        39 => jump_when(y < read(i.third, at, registers, cells), p.t, x, at),
        40 => jump_when(read(i.third, at, registers, cells) < y, p.t, x, at),
        41 => jump_when(y <= read(i.third, at, registers, cells), p.t, x, at),
        42 => jump_when(read(i.third, at, registers, cells) <= y, p.t, x, at),
        43 => skip(p.t, at),
        44 => keep(at),
        45 => store(i.second, rnot(x), at),
        46 => store(i.third, rand(m, x, y), at),
        47 => store(i.third, ror(m, x, y), at),
        48 => store(i.third, rxor(m, x, y), at),
        49 => store(i.third, rnand(m, x, y), at),
        50 => store(i.third, rnor(m, x, y), at),
        51 => store(i.first, rsl(m, x), at),
        52 => store(i.first, rsl(m, x), at),
        53 => store(i.first, rsr(m, x), at),
        54 => store(i.first, asr(x), at),
        55 => store_both(i.third, i.first, div_rem(m, x, y), at),
        _ => keep(at),
    }
}
