// Calls of read or write, one after the other, on the bytes of one buffer.
ghost use Rattle.std.specs.Prelude.{◌≡◌, ◌≤◌, ◌<◌, IfOk, MatchResult};
ghost use Rattle.settings.specs.Transfers.{begun, advanced, halted, after_call, contents};

// The bytes moved of those of the buffer, and how many calls may follow: none behind the end of a file or the end of the buffer. A count and no Option,
// since nothing says that a file ends, and a proved loop has to. No ghost field says that count is at most length: the definitions would have to prove
// it of each Transfer that they build.
#[derive(Clone, Copy)]
pub struct Transfer {
    pub count: usize,
    pub length: usize,
    pub calls: u64,
}

// A call failed, behind so many bytes that were moved.
#[derive(Clone, Copy)]
pub struct Failed {
    pub count: usize,
}

// Why a call moved nothing: a signal interrupted it, or it failed.
#[derive(Clone, Copy)]
pub enum CallError {
    Interrupted,
    Other,
}

impl Transfer {
    // No run makes so many calls.
    pub const MAX_CALLS: u64 = u64::MAX;

    // Before the first call on a buffer of that length.
    pub fn begun(length: usize) -> Self
        ensures { result ≡ begun length }
    {
        let calls = if length == 0 { 0 } else { Transfer::MAX_CALLS };
        Transfer {
            count: 0,
            length,
            calls,
        }
    }

    // Behind a call that moved n bytes.
    #[tactic(auto, unfolding(crate::specs::Transfers::advanced))]
    fn advance(self, n: usize) -> Self
        requires { self.count ≤ self.length }
        ensures { result ≡ advanced self n }
    {
        if n == 0 {
            Transfer { calls: 0, ..self }
        } else if n < self.length - self.count {
            Transfer {
                count: self.count + n,
                calls: self.calls.saturating_sub(1),
                ..self
            }
        } else {
            Transfer {
                count: self.length,
                calls: 0,
                ..self
            }
        }
    }

    // Behind a call that moved nothing: one that was interrupted is made again.
    fn halt(self, why: CallError) -> Result<Self, Failed>
        ensures { result ≡ halted self why }
    {
        match why {
            CallError::Interrupted => Ok(Transfer {
                calls: self.calls.saturating_sub(1),
                ..self
            }),
            CallError::Other => Err(Failed { count: self.count }),
        }
    }

    // Behind a call that answered `moved`.
    #[tactic(auto, unfolding(crate::specs::Transfers::advanced))]
    pub fn after_call(self, moved: Result<usize, CallError>) -> Result<Self, Failed>
        requires { self.count ≤ self.length }
        ensures value { result ≡ after_call self moved }
        ensures within { MatchResult result (λ r. (r.count ≤ r.length) × (r.length ≡ self.length)) (λ r. r.count ≤ self.length) }
        ensures fewer { 0 < self.calls → IfOk result (λ r. r.calls < self.calls) }
    {
        match moved {
            Ok(n) => Ok(self.advance(n)),
            Err(why) => self.halt(why),
        }
    }
}

// The bytes of the file that was read: one that cannot be read counts as empty.
pub fn contents(t: Result<Transfer, Failed>) -> usize
    ensures value { result ≡ contents t }
    ensures within { MatchResult t (λ t. result ≤ t.count) (λ t. result ≤ t.count) }
{
    t.map_or(0, |t| t.count)
}
