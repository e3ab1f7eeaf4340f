//! Layouts: where each part of a container stands, and the numbers that its constraints leave.

use eds_base::{Items, Path, TypeId};
use eds_types::Sets;

/// What kind of part it is.
#[derive(Clone, Copy, PartialEq, Eq)]
pub enum PartKind {
    /// An entry.
    Entry,
    /// A fixed value.
    Fixed,
    /// Padding.
    Padding,
    /// A list.
    List,
    /// A length entry.
    Length,
    /// An error control.
    Check,
}

/// A part of a container.
#[derive(Drop)]
pub struct PartRow {
    /// At which bit of the container it begins, where that is the same for all values.
    pub offset: Option<u32>,
    /// How many bits it has, where that is the same for all values.
    pub size: Option<u32>,
    /// Its path from the container.
    pub path: Path,
    /// What kind of part it is.
    pub kind: PartKind,
}

/// The parts of a container, in the order of their bits.
pub type PartRows = Items<PartRow>;

/// How a concrete container, or a type of another kind, is laid out.
#[derive(Drop)]
pub struct TypeLayout {
    pub id: TypeId,
    /// How many bits it has, where that is the same for all values.
    pub bits: Option<u32>,
    /// Its parts; a type that is no container has none.
    pub rows: PartRows,
    /// The numbers that constraints leave on their paths.
    pub sets: Sets,
}

/// The layouts of all concrete containers at or under a type, or that of a type which is no container.
pub type Layout = Items<TypeLayout>;
