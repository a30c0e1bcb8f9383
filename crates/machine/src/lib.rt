// Start and grant.
#![tactic(auto)]

pub mod checks;

ghost use Rattle.std.specs.Prelude.{◌≡◌, true, [], ◌≤◌, pos, ◌-ℤ◌};
ghost use Rattle.std.specs.Int.Signed.{le_z};
ghost use Rattle.model.specs.Calls.{as_held, as_call, as_started, as_granted, account_of, record_of};
ghost use Rattle.model.specs.Replies.{start_answer, grant_answer};
ghost use Rattle.model.specs.Parameters.{max_cells, max_instructions};
ghost use Rattle.model.specs.Step.{Memory, as_memory, environment_of};
ghost use Rattle.operands.specs.Cores.{state_in};
ghost use Rattle.machine.specs.CallContracts.{StartIs, GrantIs};
ghost use Rattle.machine.specs.Cores.{HeadsFit};

use crate::checks::{check_grant, check_start};
use bounds::limits::Limits;
use engine::program::Program;
use engine::run;
use model::{AcceptedGrant, Parameters, Record, Refusal};
use operands::Core;
use prices::Prices;

// Start: the fresh record, with registers and data cells zeroed.
pub fn start(
    p: Parameters,
    image: &[u32],
    registers: &mut [i32],
    cells: &mut [i32],
) -> Result<Record, Refusal>
    ensures { StartIs (environment_of p image.now []) (as_memory registers.old cells.old)
        (as_started (start_answer result) registers.new cells.new) }
{
    check_start(p, image, registers, cells)?;
    registers.fill(0);
    cells.fill(0);
    Ok(Record::fresh(p))
}

// `top` of an SHR that fits: raised by one, so that it is never negative.
fn top_of(p: Parameters, shr: i64) -> usize
    requires { (le_z (pos p.b -ℤ pos 1) shr ≡ true) × (le_z shr (pos p.s -ℤ pos 1) ≡ true) × (p.s ≤ max_cells) }
    ensures { (pos result -ℤ pos 1 ≡ shr) × (result ≤ p.s) }
{
    (shr + 1) as usize
}

// SHR of a `top`.
fn shr_of(top: usize) -> i64
    requires { top ≤ max_cells }
    ensures { result ≡ pos top -ℤ pos 1 }
{
    (top as i64) - 1
}

// Where the machine of a record stands. No `From`: it asks that SHR and the data cells' count are within their bounds, and a `from` can ask nothing.
fn core_of(rec: Record) -> Core
    requires { HeadsFit rec }
    ensures { (m : Memory) → state_in result m ≡ (account_of (record { rec = rec; memory = m })).state }
{
    Core {
        iar: rec.iar as usize,
        ircr: rec.ircr,
        top: top_of(rec.parameters, rec.shr),
        place: rec.place,
    }
}

// The greatest `top` of a record: its deepest SHR raised by one.
fn peak_of(rec: Record) -> usize
    requires { HeadsFit rec }
    ensures { (pos result -ℤ pos 1 ≡ rec.deepest) × (result ≤ rec.parameters.s) }
{
    top_of(rec.parameters, rec.deepest)
}

// The record of where it stands, with its greatest `top`. No `From` for the same reason: it asks the bounds of IAR and SHR.
fn record_of(p: Parameters, at: Core, peak: usize, granted: u64, spent: u64) -> Record
    requires { (at.iar ≤ max_instructions) × (at.top ≤ max_cells) × (peak ≤ max_cells) }
    ensures { (m : Memory) → result ≡ record_of p (record { state = state_in at m; granted = granted; spent = spent; deepest = pos peak -ℤ pos 1 }) }
{
    Record {
        parameters: p,
        iar: at.iar as u32,
        ircr: at.ircr,
        shr: shr_of(at.top),
        place: at.place,
        granted,
        spent,
        deepest: shr_of(peak),
    }
}

// Grant: the ending, the record, the number of values written and the cycles spent in this call.
pub fn grant(
    rec: Record,
    cycles: u64,
    image: &[u32],
    input: &[u8],
    registers: &mut [i32],
    cells: &mut [i32],
    out: &mut [i32],
) -> Result<AcceptedGrant, Refusal>
    ensures { GrantIs (environment_of rec.parameters image.now input.now)
        (as_held rec registers.old cells.old) (as_call cycles out.old)
        (as_granted (grant_answer rec result) registers.new cells.new out.new) }
{
    check_grant(rec, image, input, cycles, registers, cells)?;
    let program = Program {
        limits: Limits::new(rec.parameters),
        image,
        prices: Prices::fixed(),
        input,
    };
    let granted = rec.granted + cycles;
    let ran = run(
        &program,
        core_of(rec),
        peak_of(rec),
        rec.spent,
        granted,
        registers,
        cells,
        out,
    );
    Ok(AcceptedGrant {
        ending: ran.ending,
        rec: record_of(rec.parameters, ran.core, ran.peak, granted, ran.spent),
        values: ran.count,
        cycles: ran.spent - rec.spent,
    })
}
