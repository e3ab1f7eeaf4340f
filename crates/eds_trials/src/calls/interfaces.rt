//! The members of an interface.

ghost use Rattle.std.specs.Prelude.{◌≡◌, length, IfOk};

use crate::sheet::octets_of;
use eds_base::{FaceId, Fail, Memory, Place, Refusal};
use eds_generic::resolve;
use eds_names::{Item, Space};
use eds_plan::{Instance, Member, TypeMap};
use eds_tree::{Trees, read_tree};
use eds_types::TypeTable;
use std::alloc::Global;

const ROOT: Place = Place { file: 0, node: 0 };

fn trees_of(alloc: Global, text: &str) -> Result<Trees, Fail<Refusal>>
    ensures { IfOk result (λ trees. length trees ≡ 1) }
{
    let octets = octets_of(alloc, text)?;
    let tree = read_tree(alloc, 0, octets.as_slice())?;
    let mut trees = Trees::new(alloc);
    trees.push(tree)?;
    Ok(trees)
}

fn face_of(alloc: Global, space: &Space) -> Result<Option<FaceId>, Memory> {
    match space.look_up(alloc, ROOT, "Ge/Both")? {
        Some(Item::Face(face)) => Ok(Some(face)),
        _ => Ok(None),
    }
}

// Whether its one member is the parameter `p`.
fn has_one_member(instance: &Instance) -> bool {
    match instance.members.as_slice() {
        [Member::Parameter(name, _, _)] => name.as_str() == "p",
        _ => false,
    }
}

fn resolves_in(alloc: Global, text: &str, table: &TypeTable) -> Result<bool, Fail<Refusal>> {
    let trees = trees_of(alloc, text)?;
    let space = Space::build(alloc, &trees)?;
    let Some(face) = face_of(alloc, &space)? else {
        return Ok(false);
    };
    let map = TypeMap::new(alloc);
    let instance = resolve(alloc, &space, &trees, table, ROOT, face, &map)?;
    Ok(has_one_member(&instance))
}

/// Whether an interface with two bases, which have one member of a common base, has that member once.
pub(super) fn resolves(alloc: Global, text: &str, table: &TypeTable) -> Result<bool, Memory> {
    match resolves_in(alloc, text, table) {
        Ok(found) => Ok(found),
        Err(Fail::Named(_)) => Ok(false),
        Err(Fail::Memory) => Err(Memory),
    }
}
