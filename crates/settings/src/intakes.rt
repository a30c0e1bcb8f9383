// `tak.par`, read piece by piece.
ghost use Rattle.std.specs.Prelude.{◌≡◌, ◌≤◌, ◌<◌, length, IfOk};
ghost use Rattle.settings.specs.Intakes.{known_wrong, untaken, goes_on, at_end, taken};

use crate::transfers::{Failed, Transfer};
use crate::{Scan, scan_chunk};

// The scan of the bytes so far, and how many reads may follow, as a Transfer counts them: none behind the end of the file, or where it is known to be wrong.
#[derive(Clone, Copy)]
pub struct Intake {
    pub scan: Option<Scan>,
    pub calls: u64,
}

impl Intake {
    // Before the first read.
    pub fn untaken() -> Self
        ensures { result ≡ untaken }
    {
        Intake {
            scan: Some(Scan::unread()),
            calls: Transfer::MAX_CALLS,
        }
    }
}

// The file is wrong, whatever follows.
#[tactic(auto, unfolding(crate::specs::Intakes::known_wrong))]
fn known_wrong(scan: Option<Scan>) -> bool
    ensures { result ≡ known_wrong scan }
{
    scan.is_none_or(|scan| scan.count == Scan::WORDS && 0 < scan.digits)
}

// Behind a piece of the file.
#[tactic(auto, unfolding(crate::specs::Intakes::goes_on))]
fn go_on(intake: Intake, scan: Option<Scan>) -> Intake
    ensures value { result ≡ goes_on intake scan }
    ensures fewer { 0 < intake.calls → result.calls < intake.calls }
{
    let calls = if known_wrong(scan) {
        0
    } else {
        intake.calls.saturating_sub(1)
    };
    Intake { scan, calls }
}

// A read that moved nothing and is not made again: the end of the file.
fn at_end(read: Transfer) -> bool
    ensures { result ≡ at_end read }
{
    read.count == 0 && read.calls == 0
}

// Behind one read into `bytes`.
#[tactic(auto, unfolding(crate::specs::Intakes::taken))]
pub fn take_piece(intake: Intake, read: Result<Transfer, Failed>, bytes: &[u8]) -> Intake
    requires { IfOk read (λ t. t.count ≤ length bytes.now) }
    ensures value { result ≡ taken intake read bytes.now }
    ensures fewer { 0 < intake.calls → result.calls < intake.calls }
{
    match read {
        Err(_) => Intake {
            scan: Some(Scan::unread()),
            calls: 0,
        },
        Ok(read) if at_end(read) => Intake { calls: 0, ..intake },
        Ok(read) => go_on(intake, scan_chunk(intake.scan, &bytes[..read.count])),
    }
}
