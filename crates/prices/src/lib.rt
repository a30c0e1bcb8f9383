// The prices of the instructions, as a list that a call lends, and the values that they write.
#![tactic(auto)]

ghost use Rattle.std.specs.Prelude.{◌≡◌, true, ◌≤◌, ◌<◌, eqb, length, get_or};
ghost use Rattle.model.specs.Instructions.{row_of, directs, cost_of};
ghost use Rattle.model.specs.Words.{kind_of, direct_kind};
ghost use Rattle.model.specs.Images.{cell_fits};
ghost use Rattle.image.specs.Decode.{cell_from};
ghost use Rattle.prices.specs.Prices.{price_table, price_count, price_of, value_count};

use image::decode::Instruction;
use image::forms::INSTRUCTIONS;
use image::kinds::Kind;
use image::words::kind;
use model::Parameters;

// How many prices the table has.
pub const ENTRIES: usize = 62;

// Where the prices for one direct argument begin, less the number of IN, which is the first; and the price for two, MOV's.
const ONE_DIRECT: u32 = INSTRUCTIONS - 5;

const TWO_DIRECT: usize = ENTRIES - 1;

// By number, from 1 on, for no direct argument; then for one, IN, OUT, MOV, SET, PUSH and POP; then for two, MOV. An array, since nothing allocates.
static PRICES: [u32; ENTRIES] = [
    1, 5, 51, 51, 51, 51, 2, 11, 8, 8, 1, 1, 1, 2, 2, 2, 2, 2, 1, 1, 4, 4, 10, 30, 30, 14, 14, 3,
    3, 3, 3, 3, 3, 4, 6, 6, 6, 6, 7, 7, 9, 9, 4, 1, 1, 2, 2, 2, 2, 2, 1, 1, 1, 1, 31, 55, 55, 6,
    16, 12, 12, 10,
];

// The list of the prices, which a call lends.
#[derive(Clone, Copy)]
pub struct Prices<'a> {
    pub list: &'a [u32],
    pub ghost list_value: { list.now ≡ price_table },
}

impl Prices<'static> {
    // Those of the instructions.
    #[tactic(auto, unfolding(crate::specs::Prices::price_table))]
    pub fn fixed() -> Self {
        Prices { list: &PRICES }
    }
}

fn is_direct(w: u32) -> bool
    ensures { result ≡ eqb (kind_of w) direct_kind }
{
    kind(w) == Kind::Direct
}

// How many arguments are direct cells.
#[tactic(auto, unfolding(model::specs::Instructions::directs))]
fn direct_arguments(i: Instruction) -> u32
    ensures { result ≡ directs (cell_from i) }
{
    u32::from(is_direct(i.first)) + u32::from(is_direct(i.second)) + u32::from(is_direct(i.third))
}

// Where the price of one of the first ten stands in the table.
fn price_index(i: Instruction) -> usize
    requires le_number { (1 ≤ i.number) × (i.number ≤ 10) }
    requires i_in_bounds { directs (cell_from i) < length (row_of i.number).prices }
    ensures result_value { get_or price_table result 0 ≡ price_of i.number (directs (cell_from i)) }
    ensures within { result < price_count }
{
    match direct_arguments(i) {
        0 => (i.number - 1) as usize,
        1 => (i.number + ONE_DIRECT) as usize,
        _ => TWO_DIRECT,
    }
}

impl<'a> Prices<'a> {
    // The cost of an instruction. Beyond the first ten none has a direct argument; prices of the first four are times N, S, N and S.
    pub fn cost(self, i: Instruction, p: Parameters) -> u64
        requires { cell_fits p (cell_from i) ≡ true }
        ensures { result ≡ cost_of p (cell_from i) }
    {
        let number = i.number;
        if 10 < number {
            return u64::from(self.list[number as usize - 1]);
        }
        let price = u64::from(self.list[price_index(i)]);
        match number {
            1 | 3 => price * u64::from(p.n),
            2 | 4 => price * u64::from(p.s),
            _ => price,
        }
    }
}

// How many values an instruction writes: most often none. Tested first and apart: with the match alone a counting loop takes a fifth longer.
#[tactic(auto, unfolding(model::specs::Instructions::row_of))]
pub fn value_count(number: u32, p: Parameters) -> usize
    ensures { result ≡ value_count p (row_of number).operation }
{
    if 6 < number {
        return 0;
    }
    match number {
        3 => p.n as usize,
        4 => p.s as usize,
        6 => 1,
        _ => 0,
    }
}
