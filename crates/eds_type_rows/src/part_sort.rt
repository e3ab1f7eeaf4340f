//! The sorts of parts, told by the names of their elements.

ghost use Rattle.std.specs.Prelude.{◌≡◌};
ghost use Rattle.eds_type_rows.specs.PartSorts.{part_sort_of};

/// What sort of part of a container an element is (CCSDS 876.0-B, container entries).
#[derive(Clone, Copy, PartialEq, Eq)]
pub enum PartSort {
    Entry,
    FixedValue,
    Padding,
    List,
    Length,
    ErrorControl,
}

/// The sort of part that an element of a name is.
pub(crate) fn part_sort_of(name: &str) -> Option<PartSort>
    ensures { result ≡ part_sort_of name.now }
{
    if name == "Entry" {
        Some(PartSort::Entry)
    } else if name == "FixedValueEntry" {
        Some(PartSort::FixedValue)
    } else if name == "PaddingEntry" {
        Some(PartSort::Padding)
    } else if name == "ListEntry" {
        Some(PartSort::List)
    } else if name == "LengthEntry" {
        Some(PartSort::Length)
    } else if name == "ErrorControlEntry" {
        Some(PartSort::ErrorControl)
    } else {
        None
    }
}
