// The kinds of an image's words.
ghost use Rattle.std.specs.Prelude.{◌≡◌};
ghost use Rattle.image.specs.Kinds.{number_of_kind};

// A cell's head, a register, a data cell or a number.
#[derive(Clone, Copy, PartialEq, Eq)]
pub enum Kind {
    Head,
    Register,
    Direct,
    Number,
}

// The number that a word has in its top two bits.
impl From<Kind> for u32 {
    ghost from_gives = { λ k n. n ≡ number_of_kind k };

    fn from(kind: Kind) -> u32 {
        kind as u32
    }
}
