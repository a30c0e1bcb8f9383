// What a run reads and never writes.
ghost use Rattle.std.specs.Prelude.{◌≡◌, true, ◌*◌, length};
ghost use Rattle.model.specs.Images.{image_fits};

use bounds::limits::Limits;
use prices::Prices;

// An image that fits the limits, the prices of its instructions and its input.
#[derive(Clone, Copy)]
pub struct Program<'a> {
    pub limits: Limits,
    pub image: &'a [u32],
    pub prices: Prices<'a>,
    pub input: &'a [u8],
    pub ghost image_length: { length image.now ≡ 4 * limits.parameters.t },
    pub ghost fits: { image_fits limits.parameters image.now ≡ true },
}
