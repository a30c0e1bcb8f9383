// The five parameters of `tak.par`, whose bytes come in chunks; and what calls of read and write come to.
#![tactic(auto)]

mod intakes;
mod transfers;

ghost use Rattle.std.specs.Prelude.{ℕ, ◌≡◌, List, [], ◌++◌, Some};
ghost use Rattle.model.specs.Settings.{settings};
ghost use Rattle.settings.specs.Scans.{ended, extends, scanned, scanned_all, scan_of, settings_of};

pub use intakes::{Intake, take_piece};
use model::Parameters;
use text::bytes::{is_blank, is_digit};
pub use transfers::{CallError, Failed, Transfer, contents};

// What the bytes so far come to, where each word of theirs is 1 to 9 digits and at most five ended: the last five words that ended, how many ended,
// and the digits of the word that has not, with their value. Of other bytes there is no scan.
#[derive(Clone, Copy)]
pub struct Scan {
    pub last: Parameters,
    pub count: u32,
    pub digits: u32,
    pub value: u32,
}

impl Scan {
    const WORDS: u32 = 5;

    // Before the first byte.
    pub fn unread() -> Self
        ensures { Some result ≡ scan_of [] }
    {
        Scan {
            last: Parameters::default(),
            count: 0,
            digits: 0,
            value: 0,
        }
    }
}

// Behind a word, if there is one: it is now the last of the five.
#[tactic(auto, unfolding(crate::specs::Scans::ended))]
fn end_word(scan: Scan) -> Option<Scan>
    ensures { result ≡ ended scan }
{
    if scan.digits == 0 {
        return Some(scan);
    }
    if Scan::WORDS <= scan.count {
        return None;
    }
    let old = scan.last;
    let last = Parameters {
        k: old.n,
        n: old.s,
        s: old.b,
        b: old.t,
        t: scan.value,
    };
    Some(Scan {
        last,
        count: scan.count + 1,
        digits: 0,
        value: 0,
    })
}

// The byte is one digit more of a word of at most nine. The value is tested too, so that it has room for the digit in a scan of no file.
fn extends_word(scan: Scan, b: u8) -> bool
    ensures { result ≡ extends scan b }
{
    is_digit(b) && (scan.digits < 9 && scan.value < 100_000_000)
}

// Behind one byte more.
#[tactic(auto, unfolding(crate::specs::Scans::scanned))]
fn scan_byte(scan: Option<Scan>, b: u8) -> Option<Scan>
    ensures { result ≡ scanned scan b }
{
    let scan = scan?;
    if is_blank(b) {
        return end_word(scan);
    }
    if !extends_word(scan, b) {
        return None;
    }
    Some(Scan {
        digits: scan.digits + 1,
        value: scan.value * 10 + u32::from(b - b'0'),
        ..scan
    })
}

// Behind one chunk more of the file.
pub fn scan_chunk(scan: Option<Scan>, chunk: &[u8]) -> Option<Scan>
    ensures value { result ≡ scanned_all scan chunk.now }
    ensures joined { (before : List ℕ) → scan ≡ scan_of before → result ≡ scan_of (before ++ chunk.now) }
{
    chunk.iter().fold(scan, |behind, b| scan_byte(behind, *b))
}

// The parameters, at the end of the file.
#[tactic(auto, unfolding(crate::specs::Scans::settings_of))]
pub fn settings_of(scan: Option<Scan>) -> Parameters
    ensures value { result ≡ settings_of scan }
    ensures meaning { (file : List ℕ) → scan ≡ scan_of file → result ≡ settings file }
{
    match scan.and_then(end_word) {
        Some(whole) if whole.count == Scan::WORDS => whole.last,
        _ => Parameters::default(),
    }
}
