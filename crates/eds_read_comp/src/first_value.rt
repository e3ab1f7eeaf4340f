//! What the variables of a component start with, and the rule on it.

ghost use Rattle.std.specs.Prelude.{◌≡◌, ◌<◌, Some, length, option_map, IfOk, IfSome, IfNone, map};
ghost use Rattle.eds_base.specs.Refusals.{least};
ghost use Rattle.eds_types.specs.Plain.{Plain, plain};
ghost use Rattle.eds_read_comp.specs.FirstValues.{IsFirst, WhereTold, initial_at, first_value as first_value_of, value_breaks_at, value_breaks_over};
ghost use Rattle.eds_read_comp.specs.Plans.{head_of, first_of_variable};
ghost use Rattle.eds_read_comp.specs.Variables.{variable_at as variable_in};

use crate::file::File;
use crate::variable::variable_at;
use eds_base::{Items, Kept, Memory, Refusal, Rule, Text, TypeId};
use eds_generic::{own_name, place};
use eds_pack::{conforms, default_of};
use eds_plan::VarPlan;
use eds_read_act::VariableHead;
use eds_tree::Tree;
use eds_types::{TypeTable, Value, text_value};
use std::alloc::Global;

// ---- values

/// The value of a type that a text stands for, where it packs.
fn initial_value(
    alloc: Global,
    table: &TypeTable,
    id: TypeId,
    text: &str,
) -> Result<Option<Value>, Memory>
    requires { id.0 < length table.now }
    ensures some { IfOk result (λ o. IfSome o (λ v. IsFirst table.now id.0 (Some text.now) (plain v))) }
    ensures none { IfOk result (λ o. IfNone o ((v : Plain) → IsFirst table.now id.0 (Some text.now) v → ⊥)) }
{
    match text_value(alloc, &table.row(id).kind, text)? {
        None => Ok(None),
        Some(value) => {
            if conforms(table, id, &value) {
                Ok(Some(value))
            } else {
                Ok(None)
            }
        }
    }
}

/// What a variable of a type starts with, where there is something.
fn first_of_type(
    alloc: Global,
    table: &TypeTable,
    id: TypeId,
    initial: Option<&str>,
) -> Result<Option<Value>, Memory>
    ensures some { IfOk result (λ o. IfSome o (λ v. IsFirst table.now id.0 (option_map (λ t. t.now) initial.entry) (plain v))) }
    ensures none { IfOk result (λ o. IfNone o ((v : Plain) → IsFirst table.now id.0 (option_map (λ t. t.now) initial.entry) v → ⊥)) }
{
    if id.0 as usize >= table.rows().len() {
        return Ok(None);
    }
    match initial {
        None => default_of(alloc, table, id),
        Some(text) => initial_value(alloc, table, id, text),
    }
}

/// What a variable of a type starts with, where there is something; its element may give an initial value.
fn first_value(
    alloc: Global,
    table: &TypeTable,
    tree: &Tree,
    id: TypeId,
    node: u32,
) -> Result<Option<Value>, Memory>
    ensures { IfOk result (λ o. WhereTold table.now (λ firsts. option_map plain o ≡ firsts id.0 (initial_at tree.now node))) }
{
    first_of_type(alloc, table, id, tree.attribute_at(node, "initialValue"))
}

// ---- the rule

fn least_at(
    alloc: Global,
    table: &TypeTable,
    file: &File,
    node: u32,
) -> Result<Option<Refusal>, Memory>
    ensures { IfOk result (λ r. WhereTold table.now (λ firsts. r ≡ least (value_breaks_at firsts file.now.tree.now file.now.space.now file.now.file node))) }
{
    let variable = variable_at(alloc, file, node)?;
    match first_value(alloc, table, file.tree, variable.id, node)? {
        Some(_) => Ok(None),
        None => {
            let name = Text::of(alloc, own_name(file.tree, node))?;
            Ok(Some(Refusal {
                rule: Rule::NoDefault,
                place: place(file.file, node),
                kept: Kept::Word(name),
            }))
        }
    }
}

/// The first of some variables that has nothing to start with.
pub(crate) fn least_over_variables(
    alloc: Global,
    table: &TypeTable,
    file: &File,
    nodes: &[u32],
) -> Result<Option<Refusal>, Memory>
    ensures { IfOk result (λ r. WhereTold table.now (λ firsts. r ≡ least (value_breaks_over firsts file.now.tree.now file.now.space.now file.now.file nodes.now))) }
{
    let mut found = None;
    for node in nodes {
        let here = least_at(alloc, table, file, *node)?;
        found = Refusal::first(found, here);
    }
    Ok(found)
}

// ---- in a plan

// A variable that has nothing to start with is refused before its plan is made.
fn variable_plan(
    alloc: Global,
    table: &TypeTable,
    file: &File,
    node: u32,
) -> Result<VarPlan, Memory>
    ensures head { IfOk result (λ x. head_of x ≡ variable_in file.now.tree.now file.now.space.now file.now.file node) }
    ensures first { IfOk result (λ x. WhereTold table.now (λ firsts. first_of_variable x ≡ first_value_of firsts file.now.tree.now file.now.space.now file.now.file node)) }
{
    let VariableHead {
        name,
        id,
        read_only,
    } = variable_at(alloc, file, node)?;
    match first_value(alloc, table, file.tree, id, node)? {
        None => Err(Memory),
        Some(initial) => Ok(VarPlan {
            name,
            id,
            read_only,
            initial,
        }),
    }
}

/// Some variables, each with what it starts with.
pub(crate) fn variable_plans(
    alloc: Global,
    table: &TypeTable,
    file: &File,
    nodes: &[u32],
) -> Result<Items<VarPlan>, Memory>
    ensures heads { IfOk result (λ xs. map head_of xs ≡ map (variable_in file.now.tree.now file.now.space.now file.now.file) nodes.now) }
    ensures firsts { IfOk result (λ xs. WhereTold table.now (λ firsts. map first_of_variable xs ≡ map (first_value_of firsts file.now.tree.now file.now.space.now file.now.file) nodes.now)) }
{
    let mut variables = Items::new(alloc);
    for node in nodes {
        let variable = variable_plan(alloc, table, file, *node)?;
        variables.push(variable)?;
    }
    Ok(variables)
}
