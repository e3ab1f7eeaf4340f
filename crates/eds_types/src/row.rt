//! The rows of a table of types.

use crate::Value;
use eds_base::{Items, Spans, Text, TypeId};
use eds_bits::{BoolForm, CheckKind, IntForm, TextForm};

/// The way to an entry: for each name the container that has the entry, and the entry's position among that container's
/// entries and then its trailers.
pub type EntryPath = Items<(TypeId, u16)>;

/// Labels with their numbers, in the order of their declaration.
pub type Listing = Items<(Text, i128)>;

/// Parts of a container, in order.
pub type Parts = Items<Part>;

/// Constraints of a container, in order.
pub type Constraints = Items<Constraint>;

/// Rows, each at the number of its type.
pub type TypeRows = Items<TypeRow>;

/// The types of a sheet that are used: those that an element or the TYPE word names.
pub type Used = Items<TypeId>;

/// What a container asks of an entry of its bases.
#[derive(Drop)]
pub struct Constraint {
    pub path: EntryPath,
    /// The numbers that the entry may have.
    pub set: Spans,
    /// Whether the numbers are the ids of containers, as for a constraint on an entry's type.
    pub on_kind: bool,
}

/// A part of a container.
#[derive(Drop)]
pub enum Part {
    /// An entry: its name and type.
    Plain(Text, TypeId),
    /// A fixed value: its name, type and value.
    Fixed(Option<Text>, TypeId, Value),
    /// Padding of so many bits.
    Pad(u32),
    /// A list: its name, the type of its items, and the container and position of the entry that tells their number.
    List(Text, TypeId, TypeId, u16),
    /// A length entry with the raw number `r` where the container has `c0 + c1 * r` octets: its name, type, c0 and c1.
    Length(Text, TypeId, i64, i64),
    /// An error control over the bits before it: its name, type and check.
    Check(Text, TypeId, CheckKind),
}

impl Part {
    ghost use Rattle.std.specs.Prelude.{◌≡◌, Some, option_map};
    ghost use Rattle.eds_base.specs.declared.ids.TypeId.{TypeId};
    ghost use Rattle.eds_types.specs.Fields.{has_value, type_by};

    /// Whether it has a value among the fields of a container: entries and lists have, and no other part.
    pub fn has_value(&self) -> bool
        ensures { result ≡ has_value self.now }
    {
        matches!(self, Part::Plain(_, _) | Part::List(_, _, _, _))
    }

    /// The type of the part, or of its items; padding has none.
    pub fn type_id(&self) -> Option<TypeId>
        ensures { option_map (λ (id : TypeId). id.0) result ≡ type_by (Some self.now) }
    {
        match self {
            Part::Plain(_, id) => Some(*id),
            Part::Fixed(_, id, _) => Some(*id),
            Part::Pad(_) => None,
            Part::List(_, id, _, _) => Some(*id),
            Part::Length(_, id, _, _) => Some(*id),
            Part::Check(_, id, _) => Some(*id),
        }
    }
}

/// A container type: its parts before and after those of the containers that derive from it.
#[derive(Drop)]
pub struct Container {
    /// Whether it is abstract.
    pub hidden: bool,
    pub constraints: Constraints,
    pub entries: Parts,
    pub trailers: Parts,
}

/// What kind of type it is.
#[derive(Drop)]
pub enum Kind {
    /// An integer type or sub-range: its form and domain.
    Int(IntForm, Spans),
    /// An enumerated type: its form and labels.
    Enum(IntForm, Listing),
    /// A boolean type.
    Bool(BoolForm),
    /// A string.
    Str(TextForm),
    /// A binary of so many bits; or an open one, of at most so many, whose size comes from the length entry.
    Bin(u32, bool),
    /// An array: the type of its items and their number.
    Arr(TypeId, u32),
    /// A container.
    Con(Container),
}

/// A declared type: its qualified name, the type that it derives from, and its kind.
#[derive(Drop)]
pub struct TypeRow {
    pub name: Text,
    pub base: Option<TypeId>,
    pub kind: Kind,
}
