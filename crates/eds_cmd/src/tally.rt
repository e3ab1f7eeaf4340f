//! How much of what leaves a run is sent, and how much is refused.

ghost use Rattle.std.specs.Prelude.{◌≡◌, ◌+◌, ◌∷◌, [], IfOk};
ghost use Rattle.eds_plan.specs.Outs.{report as told_report};
ghost use Rattle.eds_cmd.specs.Tally.{Counts, CountsMore};

use eds_base::Memory;
use eds_plan::Out;

/// How many primitives are sent, and how many frames are refused.
#[derive(Clone, Copy, PartialEq, Eq)]
pub struct Tally {
    pub sent: u64,
    pub rejects: u64,
}

// A number that is greater by one. A run that leaves more than can be counted does not fit in memory.
fn one_more(n: u64) -> Result<u64, Memory>
    ensures { IfOk result (λ m. m ≡ n + 1) }
{
    if n < u64::MAX { Ok(n + 1) } else { Err(Memory) }
}

impl Tally {
    /// Of nothing.
    pub fn new() -> Tally
        ensures { Counts [] result }
    {
        Tally {
            sent: 0,
            rejects: 0,
        }
    }

    /// One that counts what leaves a run besides.
    pub fn with(self, event: &Out) -> Result<Tally, Memory>
        ensures { IfOk result (CountsMore (told_report event.now ∷ []) self) }
    {
        match event {
            Out::Sent(_, _) => Ok(Tally {
                sent: one_more(self.sent)?,
                rejects: self.rejects,
            }),
            Out::Halted(_, _, _, _) => Ok(self),
            Out::Reject(_, _, _, _) => Ok(Tally {
                sent: self.sent,
                rejects: one_more(self.rejects)?,
            }),
        }
    }
}
