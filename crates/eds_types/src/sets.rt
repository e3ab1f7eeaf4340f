//! What constraints leave of the numbers of entries.

use crate::EntryPath;
use eds_base::{Items, Spans};

/// A set of numbers for the entry on a path.
#[derive(Drop)]
pub struct PathSet {
    pub path: EntryPath,
    pub set: Spans,
}

/// Sets of numbers for several paths.
pub type Sets = Items<PathSet>;
