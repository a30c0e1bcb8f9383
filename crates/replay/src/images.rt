// What is printed of an image.
ghost use Rattle.std.specs.Prelude.{◌≡◌, ◌*◌, length};
ghost use Rattle.model.specs.Parameters.{Fit};

use crate::printer::Printer;
use bounds::limits::{Limits, check_parameters};
use image::check::image_fits;
use image::decode::{Decoded, decode};
use image::forms::FormTable;
use image::words::{content, kind};
use model::Parameters;
use prices::{Prices, value_count};

// The words' kinds and contents.
fn put_words(to: &mut Printer, image: &[u32]) {
    for &word in image {
        to.put(u32::from(kind(word)));
        to.put(content(word));
    }
    to.put_end();
}

// The cost of a cell's instruction and the count of the values that it writes; `-` for an empty cell, `!` for one that no text yields.
fn put_cell(to: &mut Printer, cell: &[u32; 4], limits: Limits, forms: &FormTable, prices: Prices) {
    let p = limits.parameters;
    match decode(cell, limits, forms) {
        Decoded::Runs(i) => {
            to.put(prices.cost(i, p));
            to.put(value_count(i.number, p));
        }
        Decoded::Empty => to.put_text(b"- "),
        Decoded::Invalid => to.put_text(b"! "),
    }
}

fn put_cells(to: &mut Printer, p: Parameters, image: &[u32])
    requires fit { Fit p }
{
    let limits = Limits::new(p);
    let forms = FormTable::new();
    let prices = Prices::fixed();
    let (cells, _) = image.as_chunks::<4>();
    for cell in cells {
        put_cell(to, cell, limits, &forms, prices);
    }
    to.put_end();
}

// Whether the image fits: 1 or 0.
fn put_fits(to: &mut Printer, p: Parameters, image: &[u32])
    requires fit { Fit p }
    requires image_len { length image.now ≡ 4 * p.t }
{
    to.put(u8::from(image_fits(p, image)));
    to.put_end();
}

// The words; and the cells and whether the image fits, where this may be asked.
pub fn put_image(to: &mut Printer, p: Parameters, image: &[u32]) {
    put_words(to, image);
    if check_parameters(p).is_ok() && image.len() == 4 * (p.t as usize) {
        put_cells(to, p, image);
        put_fits(to, p, image);
    }
}
