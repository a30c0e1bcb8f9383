// A plan carried out on the slices that are lent.
#![tactic(auto)]

ghost use Rattle.std.specs.Prelude.{◌≡◌, ◌<◌, ◌≤◌, [], ◌∷◌, length, replicate, pos};
ghost use Rattle.plans.specs.Plans.{value_out, register_written, cell_written, registers_first, cells_first, registers_after, cells_after, Paired, values_of};
ghost use Rattle.effects.specs.Effects.{output_after, Indexed};

use model::words::{FIRST_DIRECT, FIRST_REGISTER};
use plans::Plan;

// The values of a block.
const BLOCK: usize = 512;

// Zero in each place.
pub fn clear(values: &mut [i32])
    ensures { values.new ≡ replicate (length values.old) (pos 0) }
{
    values.fill(0)
}

// The values at the front of the output, at once.
fn copy(values: &[i32], out: &mut [i32])
    requires { length values.now ≤ length out.old }
    ensures { out.new ≡ output_after values.now out.old }
{
    out[..values.len()].copy_from_slice(values)
}

// The values at the front of the output, block by block, so that each copy is one move of a known size: as one copy 4,096 values take a third longer.
// No `chunks_exact_mut`: of the slice behind it only the length is known.
fn dump(values: &[i32], out: &mut [i32])
    requires { length values.now ≤ length out.old }
    ensures { out.new ≡ output_after values.now out.old }
{
    match values.split_first_chunk::<BLOCK>() {
        Some((block, rest)) => {
            copy(block, out);
            dump(rest, &mut out[BLOCK..])
        }
        None => copy(values, out),
    }
}

// One value at the front of the output.
fn output_value(value: i32, out: &mut [i32])
    requires { 1 ≤ length out.old }
    ensures { out.new ≡ output_after (value ∷ []) out.old }
{
    out[0] = value;
}

// A value to the register or data cell that a word names. For a word of another kind the difference, which wraps, is past every length.
// Tried: `get_mut`. Of the slice behind what it lends only the length is known, so that the proof does not close.
fn write(to: u32, value: i32, registers: &mut [i32], cells: &mut [i32])
    requires { Indexed registers.old cells.old }
    ensures registers_after { registers.new ≡ register_written to value registers.old }
    ensures cells_after { cells.new ≡ cell_written to value cells.old }
{
    let register = to.wrapping_sub(FIRST_REGISTER) as usize;
    let cell = to.wrapping_sub(FIRST_DIRECT) as usize;
    if register < registers.len() {
        registers[register] = value;
    } else if cell < cells.len() {
        cells[cell] = value;
    }
}

// CLEAR_REG, CLEAR_DATA_MEM, DUMP_REG, DUMP_DATA_MEM and OUT. Apart from the loop of steps, since their copies would take its registers.
#[inline(never)]
fn apply_other(to: u32, value: i32, registers: &mut [i32], cells: &mut [i32], out: &mut [i32])
    requires to_le_value_out { to ≤ value_out }
    requires cells_in_bounds { length (values_of to value registers.old cells.old) ≤ length out.old }
    ensures registers_after { registers.new ≡ registers_first to value registers.old }
    ensures cells_after { cells.new ≡ cells_first to value cells.old }
    ensures out_after { out.new ≡ output_after (values_of to value registers.old cells.old) out.old }
{
    match to {
        Plan::CLEAR_REGISTERS => clear(registers),
        Plan::CLEAR_CELLS => clear(cells),
        Plan::DUMP_REGISTERS => dump(registers, out),
        Plan::DUMP_CELLS => dump(cells, out),
        Plan::OUTPUT => output_value(value, out),
        _ => {}
    }
}

// A plan carried out: the registers, the data cells, and the values at the front of the output. The test for a second value stands behind the first
// write, so that plans that write no word do not wait for it.
pub fn apply(plan: Plan, registers: &mut [i32], cells: &mut [i32], out: &mut [i32])
    requires indexed { Indexed registers.old cells.old }
    requires cells_in_bounds { length (values_of plan.to plan.value registers.old cells.old) ≤ length out.old }
    requires paired { Paired plan }
    ensures registers_after { registers.new ≡ registers_after plan registers.old }
    ensures cells_after { cells.new ≡ cells_after plan cells.old }
    ensures out_after { out.new ≡ output_after (values_of plan.to plan.value registers.old cells.old) out.old }
{
    let to = plan.to;
    if Plan::OUTPUT < to {
        write(to, plan.value, registers, cells);
        if plan.second_to != Plan::NOWHERE {
            write(plan.second_to, plan.second_value, registers, cells)
        }
    } else if to != Plan::NOWHERE {
        apply_other(to, plan.value, registers, cells, out)
    }
}
