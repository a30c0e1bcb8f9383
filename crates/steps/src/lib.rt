// The step.
#![tactic(auto)]

pub mod planner;

ghost use Rattle.std.specs.Prelude.{[], length};
ghost use Rattle.model.specs.Step.{as_memory, environment_of};
ghost use Rattle.steps.specs.Steppable.{Steppable, StepIs};

use crate::planner::choose;
use bounds::limits::Limits;
use effects::apply;
use image::decode::Instruction;
use operands::{Core, read};

// Registers, data cells and the output are lent here, above and below as the caller lent them, and no struct holds them: they are read and written directly.
// One step: the operands, then the plan, then what it does, unless it fails. `out` is the part of the output slice behind the values already written.
pub fn step(
    i: Instruction,
    limits: Limits,
    at: Core,
    input: &[u8],
    registers: &mut [i32],
    cells: &mut [i32],
    out: &mut [i32],
) -> Core
    requires { Steppable (environment_of limits.parameters [] input.now) i at (as_memory registers.old cells.old) (length out.old) }
    ensures { StepIs (environment_of limits.parameters [] input.now) i at (as_memory registers.old cells.old) out.old
        result (as_memory registers.new cells.new) out.new }
{
    let x = read(i.first, at, registers, cells);
    let y = read(i.second, at, registers, cells);
    let p = limits.parameters;
    let plan = choose(i, x, y, p, limits.m, at, registers, cells, input);
    let code = plan.next.ircr;
    if code != 0 {
        return Core { ircr: code, ..at };
    }
    apply(plan, registers, cells, out);
    plan.next
}
