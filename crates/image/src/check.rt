// The check of a whole image: refusal 10.
ghost use Rattle.std.specs.Prelude.{◌≡◌, ◌*◌, length};
ghost use Rattle.model.specs.Parameters.{Fit};
ghost use Rattle.model.specs.Images.{all_zero, image_fits};

use crate::decode::{Decoded, decode};
use crate::forms::FormTable;
use bounds::limits::Limits;
use model::Parameters;

// All words are zeros.
fn all_zero(words: &[u32]) -> bool
    ensures { result ≡ all_zero words.now }
{
    words.iter().all(|&w| w == 0)
}

// Each cell is an instruction or empty, and only empty cells follow an empty one. Of `p`, since the checks that call this have no Limits yet.
pub fn image_fits(p: Parameters, image: &[u32]) -> bool
    requires fit { Fit p }
    requires image_len { length image.now ≡ 4 * p.t }
    ensures { result ≡ image_fits p image.now }
{
    let limits = Limits::new(p);
    let forms = FormTable::new();
    let (cells, _) = image.as_chunks::<4>();
    for (at, cell) in cells.iter().enumerate() {
        match decode(cell, limits, &forms) {
            Decoded::Runs(_) => {}
            Decoded::Empty => return all_zero(&image[4 * at..]),
            Decoded::Invalid => return false,
        }
    }
    true
}
