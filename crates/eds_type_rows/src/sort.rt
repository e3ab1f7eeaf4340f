//! The sorts of data types, told by the names of their elements.

ghost use Rattle.std.specs.Prelude.{◌≡◌};
ghost use Rattle.eds_type_rows.specs.Sorts.{sort_of};

/// What sort of type an element declares (CCSDS 876.0-B, data types).
#[derive(Clone, Copy, PartialEq, Eq)]
pub enum Sort {
    Integer,
    Enumerated,
    Boolean,
    Text,
    Binary,
    Array,
    SubRange,
    Container,
}

/// The sort of type that an element of a name declares.
pub(crate) fn sort_of(name: &str) -> Option<Sort>
    ensures { result ≡ sort_of name.now }
{
    if name == "IntegerDataType" {
        Some(Sort::Integer)
    } else if name == "EnumeratedDataType" {
        Some(Sort::Enumerated)
    } else if name == "BooleanDataType" {
        Some(Sort::Boolean)
    } else if name == "StringDataType" {
        Some(Sort::Text)
    } else if name == "BinaryDataType" {
        Some(Sort::Binary)
    } else if name == "ArrayDataType" {
        Some(Sort::Array)
    } else if name == "SubRangeDataType" {
        Some(Sort::SubRange)
    } else if name == "ContainerDataType" {
        Some(Sort::Container)
    } else {
        None
    }
}
