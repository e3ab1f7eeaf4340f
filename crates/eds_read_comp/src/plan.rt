//! The plan of the components of a sheet.

ghost use Rattle.std.specs.Prelude.{◌≡◌, ◌++◌, [], map, IfOk, OnOk};
ghost use Rattle.std.specs.List.{flat_map};
ghost use Rattle.eds_base.specs.Answering.{Answers};
ghost use Rattle.eds_fits.specs.Fitting.{ComponentsFit};
ghost use Rattle.eds_base.specs.Refusals.{least};
ghost use Rattle.eds_names.specs.Declarations.{comps_in};
ghost use Rattle.eds_read_comp.specs.FirstValues.{WhereTold};
ghost use Rattle.eds_read_comp.specs.Plans.{said_component, firsts_of, seen_plan, component_of, breaks_of, firsts_at, unvalued_of, inner_read, plan_read};
ghost use Rattle.eds_read_comp.specs.Together.{HoldsTogether};

use crate::component::{Sheet, component_plan, least_component_break, least_unvalued};
use crate::end_plan::{FaceSheet, tree_at};
use crate::faces::all_uses;
use crate::file::File;
use eds_base::{Fail, Memory, Refusal};
use eds_fits::components_fit;
use eds_generic::{bases_of, judge_uses, read_faces};
use eds_names::{Declared, Space};
use eds_plan::Plan;
use eds_read_act::NamedTable;
use eds_tree::{Tree, Trees};
use eds_types::TypeTable;
use std::alloc::Global;

// ---- the rules

fn least_unvalued_of(
    alloc: Global,
    table: &TypeTable,
    trees: &[Tree],
    space: &Space,
    one: &Declared,
) -> Result<Option<Refusal>, Memory>
    ensures { IfOk result (λ r. WhereTold table.now (λ firsts. r ≡ least (unvalued_of firsts trees.now space.now one.now))) }
{
    match tree_at(trees, one.place.file) {
        None => Ok(None),
        Some(tree) => {
            let file = File {
                tree,
                space,
                file: one.place.file,
            };
            least_unvalued(alloc, table, &file, one.place.node)
        }
    }
}

/// The first variable of all components that has nothing to start with.
fn least_unvalued_of_all(
    alloc: Global,
    table: &TypeTable,
    trees: &[Tree],
    space: &Space,
) -> Result<Option<Refusal>, Memory>
    ensures { IfOk result (λ r. WhereTold table.now (λ firsts. r ≡ least (flat_map (unvalued_of firsts trees.now space.now) (comps_in space.now.declared)))) }
{
    let mut found = None;
    for one in space.declared() {
        if one.item.is_comp() {
            let here = least_unvalued_of(alloc, table, trees, space, one)?;
            found = Refusal::first(found, here);
        }
    }
    Ok(found)
}

fn least_break_of(
    alloc: Global,
    sheet: &Sheet,
    space: &Space,
    one: &Declared,
) -> Result<Option<Refusal>, Memory>
    ensures { IfOk result (λ r. r ≡ least (breaks_of sheet.now.faces.trees.now space.now sheet.now.table.now sheet.now.faces.faces.now one.now)) }
{
    match tree_at(sheet.faces.trees, one.place.file) {
        None => Ok(None),
        Some(tree) => {
            let file = File {
                tree,
                space,
                file: one.place.file,
            };
            least_component_break(alloc, sheet, &file, one.place.node)
        }
    }
}

/// The first break of all components at their parameter maps, activities and state machines.
fn least_break_of_all(
    alloc: Global,
    sheet: &Sheet,
    space: &Space,
) -> Result<Option<Refusal>, Memory>
    ensures { IfOk result (λ r. r ≡ least (flat_map (breaks_of sheet.now.faces.trees.now space.now sheet.now.table.now sheet.now.faces.faces.now) (comps_in space.now.declared))) }
{
    let mut found = None;
    for one in space.declared() {
        if one.item.is_comp() {
            let here = least_break_of(alloc, sheet, space, one)?;
            found = Refusal::first(found, here);
        }
    }
    Ok(found)
}

// ---- the plan

fn push_component(
    plan: &mut Plan,
    alloc: Global,
    sheet: &Sheet,
    space: &Space,
    one: &Declared,
) -> Result<(), Memory>
    ensures said { OnOk result (map said_component plan.new ≡ map said_component plan.old ++ component_of sheet.now.faces.trees.now space.now sheet.now.table.now sheet.now.faces.faces.now one.now) }
    ensures firsts { OnOk result (WhereTold sheet.now.table.now (λ firsts. map firsts_of plan.new ≡ map firsts_of plan.old ++ firsts_at firsts sheet.now.faces.trees.now space.now one.now)) }
{
    match tree_at(sheet.faces.trees, one.place.file) {
        None => Ok(()),
        Some(tree) => {
            let file = File {
                tree,
                space,
                file: one.place.file,
            };
            let component = component_plan(alloc, sheet, &file, one.name.as_str(), one.place.node)?;
            plan.push(component)?;
            Ok(())
        }
    }
}

/// The plan of all components that a sheet declares.
fn plan_of(alloc: Global, sheet: &Sheet, space: &Space) -> Result<Plan, Memory>
    ensures said { IfOk result (λ p. map said_component p ≡ flat_map (component_of sheet.now.faces.trees.now space.now sheet.now.table.now sheet.now.faces.faces.now) (comps_in space.now.declared)) }
    ensures firsts { IfOk result (λ p. WhereTold sheet.now.table.now (λ firsts. map firsts_of p ≡ flat_map (firsts_at firsts sheet.now.faces.trees.now space.now) (comps_in space.now.declared))) }
{
    let mut plan = Plan::new(alloc);
    for one in space.declared() {
        if one.item.is_comp() {
            push_component(&mut plan, alloc, sheet, space, one)?;
        }
    }
    Ok(plan)
}

// Hands out a plan that fits its table, as one that breaks no rule does; no other leaves this crate.
fn fitting(alloc: Global, table: &TypeTable, plan: Plan) -> Result<Plan, Memory>
    ensures same { IfOk result (λ p. p ≡ plan) }
    ensures fits { IfOk result (λ p. ComponentsFit table.now p) }
{
    if components_fit(alloc, table, plan.as_slice())? {
        Ok(plan)
    } else {
        Err(Memory)
    }
}

// The plan of all components, handed out as one that fits its table.
fn fitting_plan(alloc: Global, sheet: &Sheet, space: &Space) -> Result<Plan, Memory>
    ensures said { IfOk result (λ p. map said_component p ≡ flat_map (component_of sheet.now.faces.trees.now space.now sheet.now.table.now sheet.now.faces.faces.now) (comps_in space.now.declared)) }
    ensures firsts { IfOk result (λ p. WhereTold sheet.now.table.now (λ firsts. map firsts_of p ≡ flat_map (firsts_at firsts sheet.now.faces.trees.now space.now) (comps_in space.now.declared))) }
    ensures fits { IfOk result (λ p. ComponentsFit sheet.now.table.now p) }
{
    let plan = plan_of(alloc, sheet, space)?;
    fitting(alloc, sheet.table.types(), plan)
}

/// The plan of all components, or the first break of the rules on variables, parameter maps, activities and state machines.
fn read_inner(alloc: Global, sheet: &Sheet, space: &Space) -> Result<Plan, Fail<Refusal>>
    ensures answers { WhereTold sheet.now.table.now (λ firsts. Answers seen_plan result (inner_read firsts sheet.now.faces.trees.now space.now sheet.now.table.now sheet.now.faces.faces.now)) }
    ensures said { IfOk result (λ p. map said_component p ≡ flat_map (component_of sheet.now.faces.trees.now space.now sheet.now.table.now sheet.now.faces.faces.now) (comps_in space.now.declared)) }
    ensures fits { IfOk result (λ p. ComponentsFit sheet.now.table.now p) }
{
    let unvalued = least_unvalued_of_all(alloc, sheet.table.types(), sheet.faces.trees, space)?;
    let other = least_break_of_all(alloc, sheet, space)?;
    match Refusal::first(unvalued, other) {
        Some(refusal) => Err(Fail::Named(refusal)),
        None => Ok(fitting_plan(alloc, sheet, space)?),
    }
}

// The same, with the names of all entries put in an index once for the whole sheet.
fn read_with_names(
    alloc: Global,
    faces: &FaceSheet,
    table: &TypeTable,
    space: &Space,
) -> Result<Plan, Fail<Refusal>>
    ensures answers { WhereTold table.now (λ firsts. Answers seen_plan result (inner_read firsts faces.now.trees.now space.now table.now faces.now.faces.now)) }
    ensures said { IfOk result (λ p. map said_component p ≡ flat_map (component_of faces.now.trees.now space.now table.now faces.now.faces.now) (comps_in space.now.declared)) }
    ensures fits { IfOk result (λ p. ComponentsFit table.now p) }
{
    let table = NamedTable::of(alloc, table)?;
    let sheet = Sheet {
        faces: *faces,
        table: &table,
    };
    read_inner(alloc, &sheet, space)
}

/// The plan of all components of a sheet, in the order of files and elements, or the first rule that its interfaces and components
/// break. No interface is its own base, and each keeps the rules on generic names and on members, under the map of each end that
/// names it, and without own generic names under the empty map. Only where these are kept the others are judged: each variable has
/// something to start with; what is named is there; operands fit; no activity calls itself; state machines begin in one state;
/// parameter maps are of the parameter's type, each once, and may write where it may be set; and timers are in range. The plan fits
/// the table: all that runs it asks for this alone.
pub fn read_components<'x>(
    alloc: Global,
    trees: &'x Trees,
    space: &'x Space,
    table: &'x TypeTable,
) -> Result<Plan, Fail<Refusal>>
    ensures answers { WhereTold table.now (λ firsts. Answers seen_plan result (plan_read firsts trees.now space.now table.now)) }
    ensures together { IfOk result (λ p. HoldsTogether table.now p) }
{
    let faces = read_faces(alloc, trees.as_slice(), space)?;
    let types = bases_of(alloc, table)?;
    let uses = all_uses(alloc, trees.as_slice(), space)?;
    match judge_uses(alloc, &faces, &types, &uses)? {
        Some(refusal) => Err(Fail::Named(refusal)),
        None => {
            let faces = FaceSheet {
                trees: trees.as_slice(),
                faces: &faces,
            };
            read_with_names(alloc, &faces, table, space)
        }
    }
}
