// A word of an image taken apart.
ghost use Rattle.std.specs.Prelude.{◌≡◌};
ghost use Rattle.model.specs.Words.{kind_of, content_of, number_of};
ghost use Rattle.image.specs.Kinds.{number_of_kind};

use crate::kinds::Kind;
use model::words::{DIRECT, KIND, NUMBER, REGISTER};

// The top two bits.
pub fn kind(w: u32) -> Kind
    ensures { number_of_kind result ≡ kind_of w }
{
    match w / KIND {
        REGISTER => Kind::Register,
        DIRECT => Kind::Direct,
        NUMBER => Kind::Number,
        _ => Kind::Head,
    }
}

// The low 30 bits.
pub fn content(w: u32) -> u32
    ensures { result ≡ content_of w }
{
    w % KIND
}

// The low 30 bits as a signed number: 2^29 more, brought back below 2^30, and 2^29 less.
pub fn number(w: u32) -> i32
    ensures { result ≡ number_of (content_of w) }
{
    let raised = (content(w) + 0x2000_0000) % KIND;
    (raised as i32) - 0x2000_0000
}
