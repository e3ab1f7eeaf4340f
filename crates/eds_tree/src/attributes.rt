//! Attributes that fail a test, and the first of them in byte order.

ghost use Rattle.std.specs.Prelude.{◌≡◌, ℕ, Bool, List, ◌++◌, option_map, map};
ghost use Rattle.eds_tree.specs.Rows.{AttributeRow, attribute_of, shape_of};
ghost use Rattle.eds_tree.specs.ByteOrder.{first_from, first_in_order};
ghost use Rattle.eds_tree.specs.Attributes.{has_attribute as has, failing, failing_in, is_malformed as malformed, is_misnamed as misnamed};

use crate::link::text_among;
use crate::order::first_of;
use crate::row::{Attribute, Shape};
use crate::texts::{has_form, has_name_form};
use eds_base::Text;

/// A test of one attribute of an element, by its row of the table.
pub(crate) trait RowTest {
    /// The attributes that an element has fail the test at a row.
    ghost fails: { List (List ℕ × List ℕ) → AttributeRow → Bool };

    /// Whether they do.
    fn fails(row: &'static Attribute, attributes: &[(Text, Text)]) -> bool
        ensures { result ≡ fails attributes.now (attribute_of row.now) };
}

/// Whether there is an attribute of a name.
pub(crate) fn has_attribute(attributes: &[(Text, Text)], name: &str) -> bool
    ensures { result ≡ has attributes.now name.now }
{
    text_among(attributes, name).is_some()
}

/// The first of the rows that fail a test, and of a name that is found already.
pub(crate) fn first_failing<T: RowTest>(
    before: Option<&'static str>,
    rows: &'static [Attribute],
    attributes: &[(Text, Text)],
) -> Option<&'static str>
    ensures { option_map (λ w. w.now) result ≡ first_from (option_map (λ w. w.now) before.entry) (failing (T.fails attributes.now) (map attribute_of rows.now)) }
{
    let mut found = before;
    for row in rows {
        if T::fails(row, attributes) {
            found = first_of(found, row.name);
        }
    }
    found
}

/// The first of an element's rows that fail a test.
pub(crate) fn first_failing_in<T: RowTest>(
    shape: &'static Shape,
    attributes: &[(Text, Text)],
) -> Option<&'static str>
    ensures { option_map (λ w. w.now) result ≡ first_in_order (failing_in (T.fails attributes.now) (shape_of shape.now)) }
{
    first_failing::<T>(
        first_failing::<T>(None, shape.required, attributes),
        shape.optional,
        attributes,
    )
}

/// An attribute is missing.
pub(crate) struct Lacks;

impl RowTest for Lacks {
    ghost use Rattle.eds_tree.specs.Attributes.{lacks_attribute};

    ghost fails = { lacks_attribute };

    fn fails(row: &'static Attribute, attributes: &[(Text, Text)]) -> bool {
        !has_attribute(attributes, row.name)
    }
}

fn is_malformed(row: &'static Attribute, text: Option<&str>) -> bool
    ensures { result ≡ malformed (attribute_of row.now) (option_map (λ t. t.now) text.entry) }
{
    text.is_some_and(|text| !has_form(row.form, text))
}

/// An attribute is there, and its text has not the form that the table asks for.
pub(crate) struct Malformed;

impl RowTest for Malformed {
    ghost use Rattle.eds_tree.specs.Attributes.{has_bad_text};

    ghost fails = { has_bad_text };

    fn fails(row: &'static Attribute, attributes: &[(Text, Text)]) -> bool {
        is_malformed(row, text_among(attributes, row.name))
    }
}

fn is_misnamed(row: &'static Attribute, text: Option<&str>) -> bool
    ensures { result ≡ misnamed (attribute_of row.now) (option_map (λ t. t.now) text.entry) }
{
    text.is_some_and(|text| !has_name_form(row.form, text))
}

/// An attribute is there that should be a name, and its text is none.
pub(crate) struct Misnamed;

impl RowTest for Misnamed {
    ghost use Rattle.eds_tree.specs.Attributes.{has_bad_name};

    ghost fails = { has_bad_name };

    fn fails(row: &'static Attribute, attributes: &[(Text, Text)]) -> bool {
        is_misnamed(row, text_among(attributes, row.name))
    }
}
