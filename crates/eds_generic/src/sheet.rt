//! The interfaces of a sheet, of which the trees, the names and the table of types are given.

ghost use Rattle.std.specs.Prelude.{◌≡◌, ◌<◌, ◌^◌, length, IfOk};
ghost use Rattle.eds_base.specs.Answering.{Answers};
ghost use Rattle.eds_generic.specs.Sheets.{bases_of as bases_in, instance_in};

use crate::read::read_faces;
use crate::resolving::resolve_face;
use eds_base::{FaceId, Fail, Memory, Place, Refusal, TypeId};
use eds_names::Space;
use eds_plan::{Instance, TypeMap};
use eds_tree::Trees;
use eds_types::TypeTable;
use std::alloc::Global;

/// For each type the one that it derives from.
pub fn bases_of(alloc: Global, table: &TypeTable) -> Result<Vec<Option<TypeId>>, Memory>
    ensures { IfOk result (λ b. b.items ≡ bases_in table.now) }
{
    let mut bases = Vec::new(alloc);
    for row in table.rows() {
        bases.push(row.base)?;
    }
    Ok(bases)
}

/// An interface of a sheet under a map of its generic names, with all its members, or the first rule that is broken: an interface
/// that is met is its own base; there are more than 1,024 members, two members have one name, a generic name is in no map, a map
/// names what is no generic name of its interface, or a generic name stands for a type that it does not admit. The refusal stands
/// at `at`, which is the end or the interface that is resolved; only that of an interface that is its own base stands at it.
pub fn resolve(
    alloc: Global,
    space: &Space,
    trees: &Trees,
    table: &TypeTable,
    at: Place,
    face: FaceId,
    map: &TypeMap,
) -> Result<Instance, Fail<Refusal>>
    ensures { Answers (λ i. i) result (instance_in trees.now space.now table.now at face map.now) }
{
    let faces = read_faces(alloc, trees.as_slice(), space)?;
    let types = bases_of(alloc, table)?;
    resolve_face(alloc, &faces, &types, at, face, map.as_slice())
}
