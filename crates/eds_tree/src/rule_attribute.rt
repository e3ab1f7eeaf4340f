//! The rule that the text of an attribute has the form that the table asks for.

ghost use Rattle.std.specs.Prelude.{◌≡◌, option_map};
ghost use Rattle.eds_tree.specs.Rows.{shape_of};
ghost use Rattle.eds_tree.specs.BadAttribute.{bad_attribute as bad_attribute_of};

use crate::attributes::{Malformed, first_failing_in};
use crate::breaks::{ElementRule, refusal};
use crate::link::{Link, attributes_at};
use crate::row::Shape;
use crate::shape::shape_at;
use crate::tree::{Node, Tree};
use eds_base::{Memory, Refusal, Rule, Text};
use std::alloc::Global;

fn bad_attribute(shape: Option<&'static Shape>, attributes: &[(Text, Text)]) -> Option<&'static str>
    ensures { option_map (λ w. w.now) result ≡ bad_attribute_of (option_map (λ s. shape_of s.now) shape.entry) attributes.now }
{
    first_failing_in::<Malformed>(shape?, attributes)
}

/// The text of an attribute has the form that the table asks for.
pub(crate) struct BadAttribute;

impl ElementRule for BadAttribute {
    ghost use Rattle.eds_tree.specs.BadAttribute.{breaks_attribute};

    ghost breaks = { breaks_attribute };

    fn least_at(
        alloc: Global,
        file: u16,
        tree: &Tree,
        link: Link,
    ) -> Result<Option<Refusal>, Memory> {
        let nodes = tree.as_slice();
        let word = bad_attribute(shape_at(nodes, link), attributes_at(nodes, link.node));
        refusal(alloc, Rule::BadAttribute, file, link.node, word)
    }
}
