//! The ends of a component as its plan has them.

ghost use Rattle.std.specs.Prelude.{◌≡◌, [], ℕ, Some, slice_get, IfOk};
ghost use Rattle.std.specs.Option.{option_copied};
ghost use Rattle.eds_generic.specs.Every.{own_cycles};
ghost use Rattle.eds_plan.specs.declared.component.EndPlan.{EndPlan as end_type};
ghost use Rattle.eds_read_act.specs.Numbered.{at_number};
ghost use Rattle.eds_read_comp.specs.EndPlans.{level_named as level_by_name, level_in as level_of_element, level_of as level_of_face, end_plan as end_plan_of, end_plans as end_plans_of, IsWhole};

use crate::end::{EndElement, end_elements, use_at};
use crate::file::File;
use crate::sharing::{LastUses, instance_after, last_use};
use eds_base::{FaceId, Memory, Text};
use eds_generic::{Face, own_name, text_of};
use eds_plan::{EndPlan, Level};
use eds_tree::Tree;
use indexmap::IndexMap;
use std::alloc::Global;

/// The files of a sheet and its interfaces, of which none is its own base.
#[derive(Clone, Copy)]
pub(crate) struct FaceSheet<'a> {
    pub(crate) trees: &'a [Tree],
    pub(crate) faces: &'a [Face],
    ghost acyclic: { own_cycles faces.now ≡ [] },
}

// ---- levels

fn level_named(text: &str) -> Level
    ensures { result ≡ level_by_name text.now }
{
    if text == "functional" {
        Level::Functional
    } else if text == "access" {
        Level::Access
    } else if text == "subnetwork" {
        Level::Subnetwork
    } else {
        Level::Application
    }
}

/// The tree of a file.
pub(crate) fn tree_at(trees: &[Tree], file: u16) -> Option<&Tree>
    ensures { option_copied result ≡ slice_get trees.now file }
{
    trees.get(file as usize)
}

fn level_in(tree: Option<&Tree>, node: u32) -> Level
    ensures { result ≡ level_of_element (option_copied tree.entry) node }
{
    match tree {
        None => Level::Application,
        Some(tree) => level_named(text_of(tree, node, "level")),
    }
}

/// The level of an interface.
fn level_of(sheet: &FaceSheet, id: FaceId) -> Level
    ensures { result ≡ level_of_face sheet.now.trees.now sheet.now.faces.now id }
{
    match sheet.faces.get(id.0 as usize) {
        None => Level::Application,
        Some(face) => level_in(tree_at(sheet.trees, face.place.file), face.place.node),
    }
}

// ---- ends

/// The end of a number among those that are planned.
fn planned(ends: &[EndPlan], number: Option<usize>) -> Option<&EndPlan>
    ensures { option_copied result ≡ at_number ends.now number }
{
    ends.get(number?)
}

/// An end, after these of its component.
fn end_plan(
    alloc: Global,
    sheet: &FaceSheet,
    file: &File,
    ends: &[EndPlan],
    last: &mut LastUses,
    end: EndElement,
) -> Result<EndPlan, Memory>
    requires { (k : ℕ) (e : end_type) → slice_get ends.now k ≡ Some e → IsWhole sheet.now.faces.now e.instance }
    ensures { IfOk result (λ e. e ≡ end_plan_of sheet.now.trees.now file.now.space.now sheet.now.faces.now file.now.tree.now file.now.file end) }
{
    let name = Text::of(alloc, own_name(file.tree, end.node))?;
    let used = use_at(alloc, file, end.node)?;
    let level = level_of(sheet, used.face);
    let earlier = planned(ends, last_use(alloc, last, &used, ends.len())?);
    let instance = instance_after(alloc, sheet.faces, earlier, used)?;
    Ok(EndPlan {
        name,
        required: end.required,
        level,
        instance,
    })
}

/// The ends of a component, in document order over both sets.
pub(crate) fn end_plans(
    alloc: Global,
    sheet: &FaceSheet,
    file: &File,
    node: u32,
) -> Result<Vec<EndPlan>, Memory>
    ensures { IfOk result (λ e. e.items ≡ end_plans_of sheet.now.trees.now file.now.space.now sheet.now.faces.now file.now.tree.now file.now.file node) }
{
    let elements = end_elements(alloc, file.tree, node)?;
    let mut ends = Vec::new(alloc);
    let mut last = IndexMap::new(alloc);
    for end in elements.as_slice() {
        let one = end_plan(alloc, sheet, file, ends.as_slice(), &mut last, *end)?;
        ends.push(one)?;
    }
    Ok(ends)
}
