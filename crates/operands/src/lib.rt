// Where the machine stands between two steps, and the operands of a step.
#![tactic(auto)]

ghost use Rattle.std.specs.Prelude.{◌≡◌, [], pos, slice_index_or};
ghost use Rattle.model.specs.Step.{register_value, value_of};
ghost use Rattle.operands.specs.Cores.{state_of, Bounded};

use image::words::{content, number};
use model::words::{FIRST_DIRECT, FIRST_NUMBER, FIRST_REGISTER, IAR, IRCR, SHR};

// IAR, IRCR, the input place, and `top`, which is SHR + 1 and so never negative.
#[derive(Clone, Copy)]
pub struct Core {
    pub iar: usize,
    pub ircr: u32,
    pub top: usize,
    pub place: usize,
}

// A register where there are none but the special ones.
#[tactic(auto, unfolding(model::specs::Step::register_value))]
fn special_value(index: u32, at: Core) -> i32
    requires { Bounded at [] }
    ensures { result ≡ register_value (state_of at [] []) index }
{
    match index {
        IAR => at.iar as i32,
        IRCR => at.ircr as i32,
        SHR => (at.top as i32) - 1,
        _ => 0,
    }
}

// A data cell, or 0 behind the last one.
fn cell_value(index: u32, cells: &[i32]) -> i32
    ensures { result ≡ slice_index_or cells.now index (pos 0) }
{
    cells.get(index as usize).copied().unwrap_or(0)
}

// What a word says where there are no registers but the special ones. Numbers come first, which jumps and SET have; the kind is tested by
// its bounds, since a jump by its value is slower.
#[tactic(auto, unfolding(model::specs::Step::value_of, model::specs::Step::register_value))]
fn other_value(w: u32, at: Core, cells: &[i32]) -> i32
    requires { Bounded at [] }
    ensures { result ≡ value_of (state_of at [] cells.now) w }
{
    if FIRST_NUMBER <= w {
        return number(w);
    }
    if FIRST_DIRECT <= w {
        return cell_value(content(w), cells);
    }
    if FIRST_REGISTER <= w {
        return special_value(content(w), at);
    }
    0
}

// What a word of a cell says. One test finds a register by kind and index, which is most often what is read.
#[tactic(auto, unfolding(model::specs::Step::value_of, model::specs::Step::register_value))]
pub fn read(w: u32, at: Core, registers: &[i32], cells: &[i32]) -> i32
    requires { Bounded at registers.now }
    ensures { result ≡ value_of (state_of at registers.now cells.now) w }
{
    let register = w.wrapping_sub(FIRST_REGISTER) as usize;
    match registers.get(register) {
        Some(&value) => value,
        None => other_value(w, at, cells),
    }
}
