//! Groups of elements, which a description names together.

ghost use Rattle.std.specs.Prelude.{◌≡◌};
ghost use Rattle.eds_tree.specs.Groups.{is_member as is_member_of};

use crate::shape::is_among;

/// Whether an element is the child that a description names, or one of the group that it names.
pub(crate) fn is_member(row: &str, name: &str) -> bool
    ensures { result ≡ is_member_of row.now name.now }
{
    if row == "CONDITION" {
        is_among(&["Comparison", "ANDedConditions", "ORedConditions"], name)
    } else if row == "DATATYPE" {
        is_among(
            &[
                "IntegerDataType",
                "EnumeratedDataType",
                "BooleanDataType",
                "StringDataType",
                "BinaryDataType",
                "ArrayDataType",
                "SubRangeDataType",
                "ContainerDataType",
            ],
            name,
        )
    } else if row == "ENTRY" {
        is_among(
            &[
                "Entry",
                "FixedValueEntry",
                "PaddingEntry",
                "ListEntry",
                "LengthEntry",
                "ErrorControlEntry",
            ],
            name,
        )
    } else if row == "EVENT" {
        is_among(
            &["OnCommandPrimitive", "OnParameterPrimitive", "OnTimer"],
            name,
        )
    } else if row == "OPERAND" {
        is_among(&["Value", "VariableRef", "ArgumentRef"], name)
    } else if row == "STATEMENT" {
        is_among(
            &[
                "Assignment",
                "MathOperation",
                "Conditional",
                "Iteration",
                "Call",
                "SendCommandPrimitive",
                "SendParameterPrimitive",
            ],
            name,
        )
    } else {
        row == name
    }
}
