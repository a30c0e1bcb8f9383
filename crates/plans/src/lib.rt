// What a step comes to, as numbers alone.
#![tactic(auto)]

ghost use Rattle.std.specs.Prelude.{◌≡◌, ◌+◌, ◌≤◌, pos, length};
ghost use Rattle.arithmetic.specs.Answers.{answer_of, quotient_of, remainder_of};
ghost use Rattle.bounds.specs.Bounds.{IsLimit};
ghost use Rattle.plans.specs.Plans.{kept_plan, failed_plan, written_plan, computed_plan, paired_plan, single, raised, jump_plan, taken_plan, boolean_plan, push_plan, pop_plan, input_plan};
ghost use Rattle.model.specs.Parameters.{max_cells, max_instructions};

use arithmetic::{Division, ReturnCode};
use logic::booleans::is_boolean;
use model::words::{FIRST_DIRECT, FIRST_REGISTER, SHR};
use numbers::reading::{NumberError, read_number};
use operands::Core;
use text::tokens::next_token;

const SHR_WORD: u32 = FIRST_REGISTER + SHR;

// A value, where it goes, a second value for DIVR, and where the machine stands after the step. A failing step has its code in `next.ircr`, and nothing else counts.
// No Result: a choice between two plans made the compiled loop wait for each result (docs/DECISIONS.md, "What a failing plan holds").
// `to` is the word of a register or data cell, or one of the targets below, which are smaller. No enum: an instruction's word goes there as it stands,
// and `effects::write` finds the slice by one subtraction and test, where an enum would have to be made of it and taken apart again.
#[derive(Clone, Copy)]
pub struct Plan {
    pub value: i32,
    pub to: u32,
    pub second_value: i32,
    pub second_to: u32,
    pub next: Core,
}

// Targets beside registers and data cells: none, and the numbers of the instructions that go to all registers, all data cells or the output.
impl Plan {
    pub const NOWHERE: u32 = 0;

    pub const CLEAR_REGISTERS: u32 = 1;

    pub const CLEAR_CELLS: u32 = 2;

    pub const DUMP_REGISTERS: u32 = 3;

    pub const DUMP_CELLS: u32 = 4;

    pub const OUTPUT: u32 = 6;

    // A plan without a second value.
    fn single(to: u32, value: i32, next: Core) -> Self
        ensures { result ≡ single to value next }
    {
        Plan {
            value,
            to,
            second_value: 0,
            second_to: Plan::NOWHERE,
            next,
        }
    }
}

// A value goes somewhere, and IAR is raised. That IAR is T at most is asked here and below. No ghost bounds: a plan's IAR is raised by one, so that a
// bound kept in the type would ask more of each caller than these clauses.
#[tactic(auto, unfolding(crate::specs::Plans::written_plan))]
pub fn store(to: u32, value: i32, at: Core) -> Plan
    requires { at.iar ≤ max_instructions }
    ensures { result ≡ written_plan to value at }
{
    let next = Core {
        iar: at.iar + 1,
        ircr: 0,
        ..at
    };
    Plan::single(to, value, next)
}

// IAR is raised, and no more.
pub fn keep(at: Core) -> Plan
    requires { at.iar ≤ max_instructions }
    ensures { result ≡ kept_plan at }
{
    store(Plan::NOWHERE, 0, at)
}

// IRCR is set, and no more. The code is a number: IRCR is one of the record, and 1 to 3 mean another thing at each instruction.
#[tactic(auto, unfolding(crate::specs::Plans::failed_plan))]
pub fn fail(code: u32, at: Core) -> Plan
    ensures { result ≡ failed_plan code at }
{
    Plan::single(Plan::NOWHERE, 0, Core { ircr: code, ..at })
}

// A value goes somewhere, IAR is raised and the code set, whatever both are. Without a choice here IAR does not wait for the value.
#[tactic(auto, unfolding(crate::specs::Plans::written_plan))]
pub fn store_coded(to: u32, value: i32, code: u32, at: Core) -> Plan
    requires { at.iar ≤ max_instructions }
    ensures { result ≡ single to value (raised code at) }
{
    let mut plan = store(to, value, at);
    plan.next.ircr = code;
    plan
}

// The value of a computation goes somewhere, or its code is set.
#[tactic(auto, unfolding(crate::specs::Plans::written_plan))]
pub fn store_answer(to: u32, answer: Result<i32, ReturnCode>, at: Core) -> Plan
    requires { at.iar ≤ max_instructions }
    ensures { result ≡ computed_plan to (answer_of answer) at }
{
    let (value, code) = match answer {
        Ok(value) => (value, 0),
        Err(code) => (0, u32::from(code)),
    };
    store_coded(to, value, code, at)
}

// The quotient and the remainder of a division go somewhere, or its code is set.
#[tactic(auto, unfolding(crate::specs::Plans::written_plan))]
pub fn store_both(to: u32, second_to: u32, division: Result<Division, ReturnCode>, at: Core) -> Plan
    requires { at.iar ≤ max_instructions }
    ensures { result ≡ paired_plan to second_to (quotient_of division) (remainder_of division) at }
{
    let (quotient, remainder, code) = match division {
        Ok(d) => (d.quotient, d.remainder, 0),
        Err(code) => (0, 0, u32::from(code)),
    };
    let mut plan = store_coded(to, quotient, code, at);
    plan.second_value = remainder;
    plan.second_to = second_to;
    plan
}

// A jump: valid targets are 0..T-1.
#[tactic(auto, unfolding(crate::specs::Plans::jump_plan, crate::specs::Plans::failed_plan))]
pub fn jump(t: u32, target: i32, at: Core) -> Plan
    ensures { result ≡ jump_plan t target at }
{
    match u32::try_from(target) {
        Ok(iar) if iar < t => {
            let next = Core {
                iar: iar as usize,
                ircr: 0,
                ..at
            };
            Plan::single(Plan::NOWHERE, 0, next)
        }
        _ => fail(1, at),
    }
}

// A jump that is taken or not.
pub fn jump_when(taken: bool, t: u32, target: i32, at: Core) -> Plan
    requires { at.iar ≤ max_instructions }
    ensures { result ≡ taken_plan taken t target at }
{
    if taken { jump(t, target, at) } else { keep(at) }
}

// The same, where the value tested has to be Boolean.
pub fn jump_boolean(value: i32, taken: bool, t: u32, target: i32, at: Core) -> Plan
    requires { at.iar ≤ max_instructions }
    ensures { result ≡ boolean_plan value taken t target at }
{
    if is_boolean(value) {
        jump_when(taken, t, target, at)
    } else {
        fail(2, at)
    }
}

// SKIP.
pub fn skip(t: u32, at: Core) -> Plan
    requires { at.iar ≤ max_instructions }
    ensures { result ≡ jump_plan t (pos (at.iar + 2)) at }
{
    jump(t, (at.iar as i32) + 2, at)
}

// PUSH of the word w, which says `value`. The raised SHR is `top`, and that is what SHR says then.
#[tactic(auto, unfolding(crate::specs::Plans::push_plan))]
pub fn push(w: u32, value: i32, s: u32, at: Core) -> Plan
    requires { (at.iar ≤ max_instructions) × (at.top ≤ max_cells) }
    ensures { result ≡ push_plan w value s at }
{
    let top = at.top;
    if top == s as usize {
        return fail(1, at);
    }
    let raised = Core { top: top + 1, ..at };
    let to = FIRST_DIRECT + (top as u32);
    let value = if w == SHR_WORD { top as i32 } else { value };
    store(to, value, raised)
}

// POP to the word w.
#[tactic(auto, unfolding(crate::specs::Plans::pop_plan))]
pub fn pop(w: u32, b: u32, at: Core, cells: &[i32]) -> Plan
    requires { (at.iar ≤ max_instructions) × (b ≤ at.top) × (at.top ≤ length cells.now) }
    ensures { result ≡ pop_plan w b at cells.now }
{
    let top = at.top;
    if top == b as usize {
        return fail(1, at);
    }
    let head = top - 1;
    let lowered = Core { top: head, ..at };
    store(w, cells[head], lowered)
}

// IN to the word w.
pub fn input(w: u32, m: u32, at: Core, bytes: &[u8]) -> Plan
    requires limit { IsLimit m }
    requires iar_le_max_instructions { (at.iar ≤ max_instructions) × (at.place ≤ length bytes.now) }
    ensures { result ≡ input_plan w m at bytes.now }
{
    let Some(token) = next_token(bytes, at.place) else {
        return fail(3, at);
    };
    let end = token.end;
    match read_number(&bytes[token.start..end], m) {
        Ok(value) => store(w, value, Core { place: end, ..at }),
        Err(NumberError::NotANumber) => fail(1, at),
        Err(NumberError::Outside) => fail(2, at),
    }
}
