//! The elements that refer to types.

ghost use Rattle.std.specs.Prelude.{◌≡◌, map, option_map};
ghost use Rattle.eds_read_types.specs.References.{references, reference_of, row_for as row_in};

/// What a reference is to find.
#[derive(Clone, Copy, PartialEq, Eq)]
pub(crate) enum Wanted {
    AnyType,
    /// An integer type or a sub-range.
    NumberType,
    ContainerType,
    /// An integer type, a sub-range, or an enumerated or boolean type, where no size stands in its place.
    IndexType,
}

/// An element, the attribute by which it refers, and what it is to find.
#[derive(Clone, Copy)]
pub(crate) struct ReferenceRow {
    pub(crate) element: &'static str,
    pub(crate) attribute: &'static str,
    pub(crate) wanted: Wanted,
}

static ROWS: [ReferenceRow; 10] = [
    ReferenceRow {
        element: "Entry",
        attribute: "type",
        wanted: Wanted::AnyType,
    },
    ReferenceRow {
        element: "FixedValueEntry",
        attribute: "type",
        wanted: Wanted::AnyType,
    },
    ReferenceRow {
        element: "ListEntry",
        attribute: "type",
        wanted: Wanted::AnyType,
    },
    ReferenceRow {
        element: "LengthEntry",
        attribute: "type",
        wanted: Wanted::AnyType,
    },
    ReferenceRow {
        element: "ErrorControlEntry",
        attribute: "type",
        wanted: Wanted::AnyType,
    },
    ReferenceRow {
        element: "TypeConstraint",
        attribute: "type",
        wanted: Wanted::AnyType,
    },
    ReferenceRow {
        element: "ArrayDataType",
        attribute: "dataTypeRef",
        wanted: Wanted::AnyType,
    },
    ReferenceRow {
        element: "Dimension",
        attribute: "indexTypeRef",
        wanted: Wanted::IndexType,
    },
    ReferenceRow {
        element: "SubRangeDataType",
        attribute: "baseType",
        wanted: Wanted::NumberType,
    },
    ReferenceRow {
        element: "ContainerDataType",
        attribute: "baseType",
        wanted: Wanted::ContainerType,
    },
];

fn rows() -> &'static [ReferenceRow]
    ensures { map reference_of result.now ≡ references }
{
    &ROWS
}

fn row_among(rows: &'static [ReferenceRow], name: &str) -> Option<&'static ReferenceRow>
    ensures { option_map (λ r. reference_of r.now) result ≡ row_in (map reference_of rows.now) name.now }
{
    let mut rest = rows;
    while let [row, after @ ..] = rest {
        if row.element == name {
            return Some(row);
        }
        rest = after;
    }
    None
}

/// How an element of a name refers to a type, where it does.
pub(crate) fn row_for(name: &str) -> Option<&'static ReferenceRow>
    ensures { option_map (λ r. reference_of r.now) result ≡ row_in references name.now }
{
    row_among(rows(), name)
}
