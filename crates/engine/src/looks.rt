// The look before a step.
ghost use Rattle.std.specs.Prelude.{◌≡◌, true, List, ℕ, ◌*◌, ◌≤◌, length};
ghost use Rattle.model.specs.Images.{image_fits};
ghost use Rattle.operands.specs.Cores.{state_in};
ghost use Rattle.model.proofs.Fits.{Sized};
ghost use Rattle.model.specs.Step.{Memory, environment_of};
ghost use Rattle.engine.specs.Looks.{found_at};

use image::decode::{Instruction, read_cell};
use model::{Ending, Parameters};
use operands::Core;
use prices::{Prices, value_count};

// The instruction that would run, its cost, and how many values it writes.
#[derive(Clone, Copy)]
pub struct Offer {
    pub instruction: Instruction,
    pub cost: u64,
    pub values: usize,
}

// The step that may run, or in order: failed, ended, paused, output full. The memory has no part in it but its lengths. Lent apart and no Program: that
// has parameters that fit, which a look does not ask.
pub fn look(
    at: Core,
    p: Parameters,
    image: &[u32],
    prices: Prices,
    allowance: u64,
    room: usize,
) -> Result<Offer, Ending>
    requires image_len { length image.now ≡ 4 * p.t }
    requires image_value { image_fits p image.now ≡ true }
    requires iar_le_t { at.iar ≤ p.t }
    ensures { (input : List ℕ) (m : Memory) → Sized p m → result ≡ found_at (environment_of p image.now input) (state_in at m) allowance room }
{
    if at.ircr != 0 {
        return Err(Ending::Failed);
    }
    let iar = at.iar;
    if iar == p.t as usize {
        return Err(Ending::Ended);
    }
    let first = 4 * iar;
    let end = first + 4;
    let i = read_cell(&image[first..end]);
    let number = i.number;
    if number == 0 {
        return Err(Ending::Ended);
    }
    let cycles = prices.cost(i, p);
    if allowance < cycles {
        return Err(Ending::Paused);
    }
    let values = value_count(number, p);
    if room < values {
        return Err(Ending::OutputFull);
    }
    Ok(Offer {
        instruction: i,
        cost: cycles,
        values,
    })
}
