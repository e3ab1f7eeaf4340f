//! The references inside interfaces and components, and the types that they use.

ghost use Rattle.std.specs.Prelude.{◌≡◌, ◌++◌, IfOk, OnOk};
ghost use Rattle.eds_type_rows.specs.InnerReferences.{inner_references as inner_references_of, used_at, inner_types};

use crate::component_reference::push_component_references;
use crate::face_reference::{FaceReference, Sought, push_face_references};
use crate::named_trees::NamedTrees;
use crate::part::id_or_first;
use crate::type_id::id_found;
use eds_base::Memory;
use eds_types::Used;
use std::alloc::Global;

/// All references in the interfaces of a sheet, and then all in its components.
pub fn inner_references(alloc: Global, sheet: &NamedTrees) -> Result<Vec<FaceReference>, Memory>
    ensures { IfOk result (λ r. r.items ≡ inner_references_of sheet.now.trees.now sheet.now.space.now) }
{
    let mut references = Vec::new(alloc);
    push_face_references(alloc, &mut references, sheet)?;
    push_component_references(alloc, &mut references, sheet)?;
    Ok(references)
}

fn push_used_at(
    alloc: Global,
    used: &mut Used,
    sheet: &NamedTrees,
    reference: &FaceReference,
) -> Result<(), Memory>
    ensures { OnOk result (used.new ≡ used.old ++ used_at sheet.now.space.now reference.now) }
{
    match reference.sought {
        Sought::GenericBase => Ok(()),
        Sought::BaseInterface => Ok(()),
        Sought::EndInterface => Ok(()),
        Sought::MemberType => {
            if reference.own {
                return Ok(());
            }
            let id = id_found(alloc, sheet, reference.place, Some(reference.text.as_str()))?;
            used.push(id_or_first(id))
        }
    }
}

/// Puts the types last that parameters, arguments and maps of interfaces and components, and variables name.
pub fn push_inner_types(alloc: Global, used: &mut Used, sheet: &NamedTrees) -> Result<(), Memory>
    ensures { OnOk result (used.new ≡ used.old ++ inner_types sheet.now.trees.now sheet.now.space.now) }
{
    let references = inner_references(alloc, sheet)?;
    for reference in references.as_slice() {
        push_used_at(alloc, used, sheet, reference)?;
    }
    Ok(())
}
