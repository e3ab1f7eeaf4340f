//! What kind of scalar type an element of a file is.

ghost use Rattle.std.specs.Prelude.{◌≡◌};
ghost use Rattle.eds_type_rows.specs.ScalarKinds.{is_integer, is_enumerated, is_boolean, is_string, is_binary};

use eds_tree::Tree;

/// Whether an element is an integer type.
pub fn is_integer(tree: &Tree, node: u32) -> bool
    ensures { result ≡ is_integer tree.now node }
{
    tree.name_at(node) == "IntegerDataType"
}

/// Whether an element is an enumerated type.
pub fn is_enumerated(tree: &Tree, node: u32) -> bool
    ensures { result ≡ is_enumerated tree.now node }
{
    tree.name_at(node) == "EnumeratedDataType"
}

/// Whether an element is a boolean type.
pub(crate) fn is_boolean(tree: &Tree, node: u32) -> bool
    ensures { result ≡ is_boolean tree.now node }
{
    tree.name_at(node) == "BooleanDataType"
}

/// Whether an element is a string.
pub(crate) fn is_string(tree: &Tree, node: u32) -> bool
    ensures { result ≡ is_string tree.now node }
{
    tree.name_at(node) == "StringDataType"
}

/// Whether an element is a binary.
pub(crate) fn is_binary(tree: &Tree, node: u32) -> bool
    ensures { result ≡ is_binary tree.now node }
{
    tree.name_at(node) == "BinaryDataType"
}
