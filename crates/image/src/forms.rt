// The forms of the instructions' arguments.
ghost use Rattle.std.specs.Prelude.{◌≡◌, ◌≤◌, ℕ, ℤ};
ghost use Rattle.model.specs.Instructions.{instruction_count, row_of};
ghost use Rattle.model.specs.Load.{allows};
ghost use Rattle.model.specs.Words.{register, special, direct, literal};
ghost use Rattle.image.specs.Forms.{packed, form_table};

// How many instructions there are.
pub const INSTRUCTIONS: u32 = 55;

// The number of NOP, which a line without words is.
pub const NOP: u32 = 44;

// The number of DIVR.
pub const DIVR: u32 = 55;

// By number, from 1 on: the form of the first argument, 16 times that of the second and 256 times that of the third. An absent one has 0.
// One number a row: three bytes would be widened at each use, and behind a faulty argument the forms left would be counted byte by byte.
const FORMS: [u32; INSTRUCTIONS as usize] = [
    0x000, 0x000, 0x000, 0x000, 0x005, 0x007, 0x057, 0x085, 0x007, 0x005, 0x001, 0x001, 0x013,
    0x133, 0x133, 0x133, 0x133, 0x133, 0x013, 0x013, 0x133, 0x133, 0x133, 0x133, 0x133, 0x081,
    0x081, 0x133, 0x133, 0x133, 0x133, 0x133, 0x133, 0x00B, 0x03B, 0x03B, 0x33B, 0x33B, 0x33B,
    0x33B, 0x33B, 0x33B, 0x000, 0x000, 0x013, 0x133, 0x133, 0x133, 0x133, 0x133, 0x001, 0x001,
    0x001, 0x001, 0x131,
];

// The table, which a call makes once and lends.
#[derive(Drop)]
pub struct FormTable {
    pub forms: [u32; INSTRUCTIONS as usize],
    pub ghost value: { forms ≡ form_table },
}

impl FormTable {
    pub fn new() -> Self {
        FormTable { forms: FORMS }
    }

    // The forms of an instruction.
    pub fn forms_of(&self, number: u32) -> u32
        requires { (1 ≤ number) × (number ≤ instruction_count) }
        ensures { result ≡ packed (row_of number).forms }
    {
        self.forms[number as usize - 1]
    }
}

// A form is a sum of 1, 2, 4 and 8, for what it allows. One function that is given the bit would be no plainer: each contract here names its argument.
// A general register;
#[tactic(auto, unfolding(model::specs::Load::allows))]
pub fn allows_register(form: u32) -> bool
    ensures { (r : ℕ) → result ≡ allows form (register r) }
{
    form % 2 == 1
}

// a special one;
#[tactic(auto, unfolding(model::specs::Load::allows))]
pub fn allows_special(form: u32) -> bool
    ensures { (r : ℕ) → result ≡ allows form (special r) }
{
    form / 2 % 2 == 1
}

// a data cell;
#[tactic(auto, unfolding(model::specs::Load::allows))]
pub fn allows_direct(form: u32) -> bool
    ensures { (d : ℕ) → result ≡ allows form (direct d) }
{
    form / 4 % 2 == 1
}

// a number.
#[tactic(auto, unfolding(model::specs::Load::allows))]
pub fn allows_number(form: u32) -> bool
    ensures { (z : ℤ) → result ≡ allows form (literal z) }
{
    form / 8 % 2 == 1
}
