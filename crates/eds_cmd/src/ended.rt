//! What ends a command over a shelf before it is done.

use crate::stop::Stop;
use eds_base::{Fail, Memory, Text};
use std::alloc::AllocError;

/// What ends a command over a shelf before it is done.
#[derive(Drop)]
pub enum Ended {
    /// A status other than Done, with the report.
    Stopped(Stop),
    /// A read of the file of that name failed.
    Unread(Text),
    /// An allocation was refused.
    Memory,
}

impl From<Fail<Stop>> for Ended {
    ghost use Rattle.std.specs.Prelude.{◌≡◌};
    ghost use Rattle.eds_cmd.specs.Endings.{ended_of};

    ghost from_gives = { λ x e. e ≡ ended_of x };

    fn from(e: Fail<Stop>) -> Self {
        match e {
            Fail::Named(stop) => Ended::Stopped(stop),
            Fail::Memory => Ended::Memory,
        }
    }
}

impl From<Memory> for Ended {
    ghost use Rattle.std.specs.Prelude.{◌≡◌};
    ghost use Rattle.eds_cmd.specs.declared.ended.Ended.TheVariants as endings;

    ghost from_gives = { λ _ e. e ≡ endings.Memory };

    fn from(_: Memory) -> Self {
        Ended::Memory
    }
}

impl From<AllocError> for Ended {
    ghost use Rattle.std.specs.Prelude.{◌≡◌};
    ghost use Rattle.eds_cmd.specs.declared.ended.Ended.TheVariants as endings;

    ghost from_gives = { λ _ e. e ≡ endings.Memory };

    fn from(_: AllocError) -> Self {
        Ended::Memory
    }
}
