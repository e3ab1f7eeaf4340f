//! The rules on elements and attributes, over all files.

ghost use Rattle.std.specs.Prelude.{◌≡◌, ◌≤◌, ◌++◌, length, map, IfOk};
ghost use Rattle.eds_base.specs.Answering.{Answers};
ghost use Rattle.eds_base.specs.Refusals.{least, first_of};
ghost use Rattle.eds_tree.specs.Trees.{links_of};
ghost use Rattle.eds_tree.specs.BadAttribute.{breaks_attribute};
ghost use Rattle.eds_tree.specs.BadName.{breaks_name};
ghost use Rattle.eds_tree.specs.Breaks.{breaks_of};
ghost use Rattle.eds_tree.specs.ShapeCheck.{element_breaks, shape_breaks, shape_verdict};

use crate::breaks::{least_of, walks};
use crate::least_with::least_with;
use crate::link::Link;
use crate::rule_attribute::BadAttribute;
use crate::rule_limit::least_limit;
use crate::rule_missing::MissingAttribute;
use crate::rule_name::BadName;
use crate::rule_unknown::UnknownElement;
use crate::rule_unsupported::Unsupported;
use crate::tree::{Tree, Trees};
use eds_base::{Fail, Items, Memory, Refusal};
use std::alloc::Global;

// The least break of the rules on elements.
fn least_of_elements(
    alloc: Global,
    trees: &[Tree],
    walks: &Items<Items<Link>>,
) -> Result<Option<Refusal>, Memory>
    requires few { length trees.now ≤ 64 }
    requires walked { walks.now ≡ map links_of trees.now }
    ensures { IfOk result (λ r. r ≡ least (element_breaks trees.now)) }
{
    let unknown = least_of::<UnknownElement>(alloc, trees, walks)?;
    let unsupported = least_with::<Unsupported>(alloc, unknown, trees, walks)?;
    let missing = least_with::<MissingAttribute>(alloc, unsupported, trees, walks)?;
    Ok(missing)
}

// The least break of these rules and of those on attributes.
fn least_with_attributes(
    alloc: Global,
    trees: &[Tree],
    walks: &Items<Items<Link>>,
) -> Result<Option<Refusal>, Memory>
    requires few { length trees.now ≤ 64 }
    requires walked { walks.now ≡ map links_of trees.now }
    ensures { IfOk result (λ r. r ≡ least (element_breaks trees.now ++ breaks_of breaks_attribute trees.now ++ breaks_of breaks_name trees.now)) }
{
    let elements = least_of_elements(alloc, trees, walks)?;
    let attribute = least_with::<BadAttribute>(alloc, elements, trees, walks)?;
    let name = least_with::<BadName>(alloc, attribute, trees, walks)?;
    Ok(name)
}

// The least break of all rules.
fn least_break(alloc: Global, trees: &Trees) -> Result<Option<Refusal>, Memory>
    requires { length trees.now ≤ 64 }
    ensures { IfOk result (λ r. r ≡ least (shape_breaks trees.now)) }
{
    let trees = trees.as_slice();
    let walks = walks(alloc, trees)?;
    let found = least_with_attributes(alloc, trees, &walks)?;
    let limit = least_limit(alloc, trees, &walks)?;
    Ok(Refusal::first(found, limit))
}

/// Judges the elements of a sheet and their attributes: each stands where the table lists it, is supported, has what it needs,
/// and its attributes have the forms that the table asks for; and there are not too many of them. Elements that are passed
/// over are not judged. The refusal is the first by place and then by rule.
pub fn shape_check(alloc: Global, trees: &Trees) -> Result<(), Fail<Refusal>>
    requires { length trees.now ≤ 64 }
    ensures { Answers (λ done. done) result (shape_verdict trees.now) }
{
    match least_break(alloc, trees)? {
        None => Ok(()),
        Some(refusal) => Err(Fail::Named(refusal)),
    }
}
