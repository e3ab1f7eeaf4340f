//! The rule that an attribute that should be a name is one.

ghost use Rattle.std.specs.Prelude.{◌≡◌, option_map};
ghost use Rattle.eds_tree.specs.Rows.{shape_of};
ghost use Rattle.eds_tree.specs.BadName.{bad_name as bad_name_of};

use crate::attributes::{Misnamed, first_failing_in};
use crate::breaks::{ElementRule, refusal};
use crate::link::{Link, attributes_at, text_among};
use crate::row::Shape;
use crate::shape::shape_at;
use crate::tree::{Node, Tree};
use eds_base::{Memory, Refusal, Rule, Text};
use std::alloc::Global;

fn bad_name<'a>(shape: Option<&'static Shape>, attributes: &'a [(Text, Text)]) -> Option<&'a str>
    ensures { option_map (λ w. w.now) result ≡ bad_name_of (option_map (λ s. shape_of s.now) shape.entry) attributes.now }
{
    let name = first_failing_in::<Misnamed>(shape?, attributes)?;
    text_among(attributes, name)
}

/// An attribute that should be a name is one.
pub(crate) struct BadName;

impl ElementRule for BadName {
    ghost use Rattle.eds_tree.specs.BadName.{breaks_name};

    ghost breaks = { breaks_name };

    fn least_at(
        alloc: Global,
        file: u16,
        tree: &Tree,
        link: Link,
    ) -> Result<Option<Refusal>, Memory> {
        let nodes = tree.as_slice();
        let word = bad_name(shape_at(nodes, link), attributes_at(nodes, link.node));
        refusal(alloc, Rule::BadName, file, link.node, word)
    }
}
