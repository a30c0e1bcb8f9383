// A record as a lent slice of numbers.
ghost use Rattle.std.specs.Prelude.{◌≡◌, length};
ghost use Rattle.tak.specs.Records.{held, most32, most64, record_from, fields_of, Narrow, record_length};

use model::{Parameters, Record};

// The positions of a record's numbers in include/tak.h, and how many there are.
const K: usize = 0;

const N: usize = 1;

const S: usize = 2;

const B: usize = 3;

const T: usize = 4;

const IAR: usize = 5;

const IRCR: usize = 6;

const SHR: usize = 7;

const PLACE: usize = 8;

const GRANTED: usize = 9;

const SPENT: usize = 10;

const DEEPEST: usize = 11;

pub const RECORD_LENGTH: usize = 12;

// The number where 32 bits hold it, else their greatest, which no check lets pass. This and held_long are no one generic function: at a type parameter its
// contract could not say `held`, which is of numbers.
fn held_short(z: i64) -> u32
    ensures { result ≡ held most32 z }
{
    u32::try_from(z).unwrap_or(u32::MAX)
}

// The same for 64 bits.
fn held_long(z: i64) -> u64
    ensures { result ≡ held most64 z }
{
    u64::try_from(z).unwrap_or(u64::MAX)
}

// The record that the numbers are. No `From`: neither type is this crate's.
pub fn record_from(fields: &[i64]) -> Record
    requires { length fields.now ≡ record_length }
    ensures { result ≡ record_from fields.now }
{
    Record {
        parameters: Parameters {
            k: held_short(fields[K]),
            n: held_short(fields[N]),
            s: held_short(fields[S]),
            b: held_short(fields[B]),
            t: held_short(fields[T]),
        },
        iar: held_short(fields[IAR]),
        ircr: held_short(fields[IRCR]),
        shr: fields[SHR],
        place: held_long(fields[PLACE]) as usize,
        granted: held_long(fields[GRANTED]),
        spent: held_long(fields[SPENT]),
        deepest: fields[DEEPEST],
    }
}

// Writes the numbers of a record, in the header's order.
pub fn put_record(rec: Record, fields: &mut [i64])
    requires { Narrow rec × (length fields.old ≡ record_length) }
    ensures { fields.new ≡ fields_of rec }
{
    let Parameters { k, n, s, b, t } = rec.parameters;
    fields.copy_from_slice(&[
        i64::from(k),
        i64::from(n),
        i64::from(s),
        i64::from(b),
        i64::from(t),
        i64::from(rec.iar),
        i64::from(rec.ircr),
        rec.shr,
        rec.place as i64,
        rec.granted as i64,
        rec.spent as i64,
        rec.deepest,
    ]);
}
