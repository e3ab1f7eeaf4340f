//! How the reads or the writes of a case behave.

ghost use Rattle.std.specs.Prelude.{◌≤◌};

use anyhow::{Context, Result, ensure};
use serde_json::Value;

/// How the reads or the writes behave.
#[derive(Clone, Copy)]
pub(crate) struct Calls {
    /// The most octets that a call moves.
    pub most: u32,
    /// The number of the call that fails, from 1 on, 0 for none.
    pub failing: u64,
    /// Whether each call is to fail in turn.
    pub each: bool,
    ghost some: { 1 ≤ most },
}

impl Calls {
    /// Calls that don't fail.
    pub(crate) fn calm() -> Calls {
        Calls {
            most: 65536,
            failing: 0,
            each: false,
        }
    }

    /// The same calls, of which that of a number fails.
    pub(crate) fn with_failing(self, failing: u64) -> Calls {
        let most = self.most;
        Calls {
            most,
            failing,
            each: self.each,
        }
    }

    /// Calls as a case says them: `most` octets, and `fails` a number or `"each"`.
    pub(crate) fn read(calls: &Value) -> Result<Calls> {
        let most = match calls.get("most") {
            None => 65536,
            Some(most) => u32::try_from(most.as_u64().context("most is a number")?)?,
        };
        ensure!(most > 0, "a call moves at least one octet");
        let fails = calls.get("fails");
        let each = fails.is_some_and(|fails| fails.as_str() == Some("each"));
        let failing = match fails {
            Some(fails) if !each => fails.as_u64().context("fails is a number or each")?,
            _ => 0,
        };
        Ok(Calls {
            most,
            failing,
            each,
        })
    }
}
