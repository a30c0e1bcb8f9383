// The public types of the TAK machine, and the record that start makes. What the machine means stands in specs/.
#![tactic(auto)]

ghost use Rattle.std.specs.Prelude.{◌≡◌};
ghost use Rattle.model.specs.Calls.{fresh_record};
ghost use Rattle.model.specs.Replies.{refusal_number_of};

pub mod words;

// K, N, S, B and T: bits of a cell, registers, data cells, directly addressed cells, instruction cells.
#[derive(Clone, Copy, Debug, Default, PartialEq, Eq)]
pub struct Parameters {
    pub k: u32,
    pub n: u32,
    pub s: u32,
    pub b: u32,
    pub t: u32,
}

// The record: SHR is B-1 where the stack is empty, so that it is signed; `place` is the input place; `deepest` is the greatest SHR reached since start.
#[derive(Clone, Copy, Debug, Default, PartialEq, Eq)]
pub struct Record {
    pub parameters: Parameters,
    pub iar: u32,
    pub ircr: u32,
    pub shr: i64,
    pub place: usize,
    pub granted: u64,
    pub spent: u64,
    pub deepest: i64,
}

// How an accepted grant ends: "failed", "ended", "paused", "output full".
#[derive(Clone, Copy, Debug, PartialEq, Eq)]
pub enum Ending {
    Failed,
    Ended,
    Paused,
    OutputFull,
}

// Why a call is refused: what does not fit. Instruction to ArgumentRange and SameTarget are faults of a line, and DecimalLength is the decimal writer's.
#[derive(Clone, Copy, Debug, PartialEq, Eq)]
pub enum Refusal {
    ParameterK,
    ParameterN,
    ParameterS,
    ParameterB,
    ParameterT,
    ImageLength,
    TextLength,
    LineCount,
    MemoryLength,
    Image,
    Instruction,
    ArgumentCount,
    ArgumentForm,
    ArgumentRange,
    Record,
    InputLength,
    Cycles,
    DecimalLength,
    SameTarget,
}

impl From<Refusal> for u32 {
    ghost from_gives = { λ r n. n ≡ refusal_number_of r };

    fn from(refusal: Refusal) -> u32 {
        match refusal {
            Refusal::ParameterK => 1,
            Refusal::ParameterN => 2,
            Refusal::ParameterS => 3,
            Refusal::ParameterB => 4,
            Refusal::ParameterT => 5,
            Refusal::ImageLength => 6,
            Refusal::TextLength => 7,
            Refusal::LineCount => 8,
            Refusal::MemoryLength => 9,
            Refusal::Image => 10,
            Refusal::Instruction => 11,
            Refusal::ArgumentCount => 12,
            Refusal::ArgumentForm => 13,
            Refusal::ArgumentRange => 14,
            Refusal::Record => 15,
            Refusal::InputLength => 16,
            Refusal::Cycles => 17,
            Refusal::DecimalLength => 18,
            Refusal::SameTarget => 19,
        }
    }
}

// Why a text is not loaded, and the faulty line's index. No Option: the index, 0 where it is no line's fault, is the number that callers get as it
// stands.
#[derive(Clone, Copy, Debug, PartialEq, Eq)]
pub struct LoadError {
    pub refusal: Refusal,
    pub line: usize,
}

impl From<Refusal> for LoadError {
    ghost from_gives = { λ r e. e ≡ record { refusal = r; line = 0 } };

    fn from(refusal: Refusal) -> LoadError {
        LoadError { refusal, line: 0 }
    }
}

// What comes of an accepted grant: how it ended, the record, the number of values written and the cycles spent in this call.
#[derive(Clone, Copy, Debug, PartialEq, Eq)]
pub struct AcceptedGrant {
    pub ending: Ending,
    pub rec: Record,
    pub values: usize,
    pub cycles: u64,
}

impl Record {
    // The limits of document 01: K is MIN_BITS..MAX_BITS; N, S and T are at least 1, B is at most S; bytes of a text and of an input; cycles.
    pub const MIN_BITS: u32 = 8;

    pub const MAX_BITS: u32 = 30;

    pub const MAX_REGISTERS: u32 = 256;

    pub const MAX_CELLS: u32 = 4096;

    pub const MAX_INSTRUCTIONS: u32 = 4096;

    pub const MAX_TEXT: usize = 65536;

    pub const MAX_INPUT: usize = 65536;

    pub const MAX_GRANT: u64 = 1_000_000_000;

    pub const MAX_GRANTED: u64 = 1_000_000_000_000_000;

    // The fresh record: all 0 but SHR and the deepest SHR, which are B-1, with its parameters.
    pub fn fresh(parameters: Parameters) -> Self
        ensures { result ≡ fresh_record parameters }
    {
        let head = i64::from(parameters.b) - 1;
        Record {
            parameters,
            shr: head,
            deepest: head,
            ..Record::default()
        }
    }
}
