//! Types without a form or a size.

ghost use Rattle.std.specs.Prelude.{◌≡◌};
ghost use Rattle.eds_type_rows.specs.LackingForms.{lacks_text_form, lacks_size, lacks_form, lacks_form_at as lacks_form_in};

use crate::element::tree_at;
use crate::form::{bool_form_of, int_form_of};
use crate::scalar_kind::{is_binary, is_boolean, is_enumerated, is_integer, is_string};
use crate::text_form::{binary_bits_of, text_form_of};
use eds_base::Place;
use eds_tree::Tree;

/// Whether a string has no form.
fn lacks_text_form(tree: &Tree, node: u32) -> bool
    ensures { result ≡ lacks_text_form tree.now node }
{
    is_string(tree, node) && text_form_of(tree, node).is_none()
}

/// Whether a binary has no size.
fn lacks_size(tree: &Tree, node: u32) -> bool
    ensures { result ≡ lacks_size tree.now node }
{
    is_binary(tree, node) && binary_bits_of(tree, node).is_none()
}

/// Whether a type has no form or no size.
pub fn lacks_form(tree: &Tree, node: u32) -> bool
    ensures { result ≡ lacks_form tree.now node }
{
    if is_integer(tree, node) || is_enumerated(tree, node) {
        int_form_of(tree, node).is_none()
    } else if is_boolean(tree, node) {
        bool_form_of(tree, node).is_none()
    } else {
        lacks_text_form(tree, node) || lacks_size(tree, node)
    }
}

/// Whether the type at a place has no form.
pub fn lacks_form_at(trees: &[Tree], at: Option<Place>) -> bool
    ensures { result ≡ lacks_form_in trees.now at }
{
    let Some(at) = at else {
        return false;
    };
    tree_at(trees, at.file).is_some_and(|tree| lacks_form(tree, at.node))
}
