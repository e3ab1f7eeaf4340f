//! Values.

use eds_base::{Octets, Text, TypeId};

/// A value of a type. Clauses see one by its plain tree.
#[derive(Drop)]
pub enum Value {
    /// A number of an integer type or sub-range.
    Num(i128),
    /// A label of an enumerated type.
    Label(Text),
    /// A truth value.
    Bool(bool),
    /// The text of a string.
    Text(Text),
    /// A number of bits, and the octets that hold them, the last filled with zeros.
    Bits(u32, Octets),
    /// The items of an array or a list.
    Items(Vec<Value>),
    /// A concrete container, and one value for each of its entries and lists, in the order of its sequence.
    Fields(TypeId, Vec<Value>),
}
