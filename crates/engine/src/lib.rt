// Looks and steps until one of the endings holds.
#![tactic(auto)]

pub mod looks;
pub mod program;

ghost use Rattle.model.specs.Step.{as_memory};
ghost use Rattle.engine.specs.Programs.{environment_in};
ghost use Rattle.engine.specs.Runs.{Runnable, RunIs};

use crate::looks::look;
use crate::program::Program;
use model::Ending;
use operands::Core;
use steps::step;

// How a run ended, where the machine stands, the greatest `top` since start, which is the deepest SHR + 1, the cycles spent since then, and the count of
// the values written.
#[derive(Clone, Copy)]
pub struct Ran {
    pub ending: Ending,
    pub core: Core,
    pub peak: usize,
    pub spent: u64,
    pub count: usize,
}

// Looks and steps from a core, with `peak` the greatest `top` so far, `before` cycles spent and `granted` granted. Each step is lent the output slice behind
// the values written. The cycles left are kept and not those spent, so that the loop has one number fewer to hold.
pub fn run(
    program: &Program,
    start: Core,
    peak: usize,
    before: u64,
    granted: u64,
    registers: &mut [i32],
    cells: &mut [i32],
    out: &mut [i32],
) -> Ran
    requires { Runnable (environment_in program.now) start peak before granted (as_memory registers.old cells.old) }
    ensures { RunIs (environment_in program.now) start peak before granted
        (as_memory registers.old cells.old) out.old
        result (as_memory registers.new cells.new) out.new }
{
    let mut at = start;
    let mut peak = peak;
    let mut allowance = granted - before;
    let mut count = 0;
    loop {
        match look(
            at,
            program.limits.parameters,
            program.image,
            program.prices,
            allowance,
            out.len() - count,
        ) {
            Err(ending) => return Ran {
                ending,
                core: at,
                peak,
                spent: granted - allowance,
                count,
            },
            Ok(offer) => {
                let rest = &mut out[count..];
                allowance -= offer.cost;
                count += offer.values;
                at = step(
                    offer.instruction,
                    program.limits,
                    at,
                    program.input,
                    registers,
                    cells,
                    rest,
                );
                peak = peak.max(at.top);
            }
        }
    }
}
