//! What the ends of all components use.

ghost use Rattle.std.specs.Prelude.{◌≡◌, ◌++◌, IfOk, OnOk};
ghost use Rattle.eds_read_comp.specs.Uses.{component_places as component_places_of, uses_at, all_uses as all_uses_of};

use crate::end::push_uses;
use crate::end_plan::tree_at;
use crate::file::File;
use eds_base::{Memory, Place};
use eds_generic::FaceUse;
use eds_names::Space;
use eds_tree::Tree;
use std::alloc::Global;

fn component_places(alloc: Global, space: &Space) -> Result<Vec<Place>, Memory>
    ensures { IfOk result (λ p. p.items ≡ component_places_of space.now) }
{
    let mut places = Vec::new(alloc);
    for one in space.declared() {
        if one.item.is_comp() {
            places.push(one.place)?;
        }
    }
    Ok(places)
}

fn push_uses_at(
    alloc: Global,
    uses: &mut Vec<FaceUse>,
    trees: &[Tree],
    space: &Space,
    at: Place,
) -> Result<(), Memory>
    ensures { OnOk result (uses.new.items ≡ uses.old.items ++ uses_at trees.now space.now at) }
{
    match tree_at(trees, at.file) {
        None => Ok(()),
        Some(tree) => {
            let file = File {
                tree,
                space,
                file: at.file,
            };
            push_uses(alloc, uses, &file, at.node)
        }
    }
}

/// What the ends of all components use, in document order.
pub(crate) fn all_uses(alloc: Global, trees: &[Tree], space: &Space) -> Result<Vec<FaceUse>, Memory>
    ensures { IfOk result (λ u. u.items ≡ all_uses_of trees.now space.now) }
{
    let places = component_places(alloc, space)?;
    let mut uses = Vec::new(alloc);
    for at in places.as_slice() {
        push_uses_at(alloc, &mut uses, trees, space, *at)?;
    }
    Ok(uses)
}
