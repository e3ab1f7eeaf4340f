//! What constraints ask, as their elements say it.

use eds_base::{Items, Place, Text, TypeId};
use eds_domains::Range;
use eds_types::EntryPath;

/// What a constraint compares an entry with.
#[derive(Drop)]
pub enum Test {
    /// The text of a number, a label or a flag.
    Value(Text),
    /// A range of numbers.
    Within(Range),
    /// A type that the entry's value is of, or derives from.
    Under(TypeId),
}

/// A constraint of a container: its element, the path to an entry as names between points, and what it compares this entry with.
#[derive(Drop)]
pub struct Asked {
    pub place: Place,
    pub path: Text,
    pub test: Test,
}

/// The constraints of a container, in the order of the document.
pub type AskedOf = Items<Asked>;

/// Where a path leads: its steps, and the type of the entry at its end.
#[derive(Drop)]
pub struct Aim {
    pub path: EntryPath,
    pub target: TypeId,
}
