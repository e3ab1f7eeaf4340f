//! Pieces of JSON that stand once and are named where they are wanted.

use crate::content::printed;
use anyhow::{Context, Result};
use serde_json::Value;
use std::alloc::Global;

/// A piece of JSON, printed.
#[derive(Drop)]
struct Part {
    name: String,
    text: String,
}

/// Pieces of JSON by name. Of two of one name the later one counts.
#[derive(Drop)]
pub(crate) struct Parts {
    alloc: Global,
    named: Vec<Part>,
}

impl Parts {
    /// No parts.
    pub(crate) fn new(alloc: Global) -> Parts {
        Parts {
            alloc,
            named: Vec::new(alloc),
        }
    }

    /// How many there are.
    pub(crate) fn len(&self) -> usize {
        self.named.len()
    }

    /// Keeps the first so many.
    pub(crate) fn truncate(&mut self, len: usize) {
        self.named.truncate(len);
    }

    /// The printed text of the part of a name.
    pub(crate) fn text(&self, name: &str) -> Result<&str> {
        self.named
            .iter()
            .rev()
            .find(|part| part.name.as_str() == name)
            .map(|part| part.text.as_str())
            .context(format_args!("no part {name}"))
    }

    /// Adds the members of an object, each of which may name parts that were added before.
    pub(crate) fn add(&mut self, members: Option<&Value>) -> Result<()> {
        let Some(members) = members else {
            return Ok(());
        };
        let members = members.as_object().context("parts are an object")?;
        for (name, value) in members {
            let name = name.clone()?;
            let text = printed(self.alloc, self, value)?;
            self.named.push(Part { name, text })?;
        }
        Ok(())
    }
}
