//! The types that fixed values name, and what their texts stand for.

ghost use Rattle.std.specs.Prelude.{◌≡◌, Some, slice_get, option_map, IfOk, IfSome};
ghost use Rattle.eds_types.specs.Plain.{plain};
ghost use Rattle.eds_type_rows.specs.Kinds.{scalar_of as scalar_by_number};
ghost use Rattle.eds_type_rows.specs.FixedValues.{AreRead, kind_set, value_if as value_if_of, value_read, fixed_value as fixed_value_of, row_value as row_value_of};

use crate::base_graph::BaseGraph;
use crate::element::{attribute, name_at};
use crate::items::{mark, no_marks};
use crate::kind::scalar_of;
use crate::named_trees::NamedTrees;
use crate::part::entry_id;
use crate::value_kind::ValueKind;
use eds_base::{Memory, Place};
use eds_types::{Kind, Value, stored, text_value};
use std::alloc::Global;

// ---- the types that fixed values name

/// For each type whether a fixed value names it.
fn are_named(alloc: Global, sheet: &NamedTrees) -> Result<Vec<bool>, Memory> {
    let mut named = no_marks(alloc, sheet)?;
    for at in sheet.elements {
        if name_at(sheet.trees, *at) == "FixedValueEntry" {
            let id = entry_id(alloc, sheet, *at)?;
            mark(&mut named, Some(id));
        }
    }
    Ok(named)
}

/// The kind of a type, if it is asked for.
fn kind_if(
    alloc: Global,
    graph: &BaseGraph,
    asked: bool,
    id: usize,
) -> Result<Option<ValueKind>, Memory>
    ensures { IfOk result (λ o. IfSome o (λ k. scalar_by_number graph.now.sheet.now.trees.now graph.now.sheet.now.space.now id ≡ Some k.kind)) }
{
    if !asked {
        return Ok(None);
    }
    let kind = scalar_of(alloc, graph, id)?;
    match kind {
        None => Ok(None),
        Some(kind) => {
            let kind = ValueKind::of(alloc, kind)?;
            Ok(Some(kind))
        }
    }
}

/// The kind of each type that a fixed value names, if it is neither an array nor a container.
pub fn value_kinds(alloc: Global, graph: &BaseGraph) -> Result<Vec<Option<ValueKind>>, Memory>
    ensures { IfOk result (λ s. AreRead graph.now.sheet.now.trees.now graph.now.sheet.now.space.now s.items) }
{
    let named = are_named(alloc, graph.sheet)?;
    let mut known = Vec::new(alloc);
    for id in 0..named.len() {
        let kind = kind_if(alloc, graph, named[id], id)?;
        known.push(kind)?;
    }
    Ok(known)
}

/// A sheet, what its types derive from, and the kinds of the types that its fixed values name.
#[derive(Drop)]
pub struct ValueKinds<'a> {
    pub graph: &'a BaseGraph<'a>,
    /// For each type that a fixed value names its kind; what is missing is read when it is asked for.
    pub known: &'a [Option<ValueKind>],
    pub ghost read: { AreRead graph.now.sheet.now.trees.now graph.now.sheet.now.space.now known.now } by { Prim.hlevel kind_set },
}

fn known_at(known: &[Option<ValueKind>], id: usize) -> Option<&ValueKind>
    ensures { IfSome result (λ k. slice_get known.now id ≡ Some (Some k.now)) }
{
    known.get(id)?.as_ref()
}

/// The value of a kind that a text stands for, if there is a kind.
fn value_if(alloc: Global, kind: Option<Kind>, text: &str) -> Result<Option<Value>, Memory>
    ensures { IfOk result (λ v. option_map plain v ≡ value_if_of kind text.now) }
{
    match kind {
        None => Ok(None),
        Some(kind) => text_value(alloc, &kind, text),
    }
}

/// The value that a text stands for in the type of a number.
fn value_in(
    alloc: Global,
    kinds: &ValueKinds,
    id: usize,
    text: &str,
) -> Result<Option<Value>, Memory>
    ensures { IfOk result (λ v. option_map plain v ≡ value_read kinds.now.graph.now.sheet.now.trees.now kinds.now.graph.now.sheet.now.space.now id text.now) }
{
    match known_at(kinds.known, id) {
        Some(kind) => kind.value(alloc, text),
        None => {
            let kind = scalar_of(alloc, kinds.graph, id)?;
            value_if(alloc, kind, text)
        }
    }
}

// ---- one fixed value

/// The value of the fixed value at a place, if its text stands for one of the type of a number.
pub fn fixed_value(
    alloc: Global,
    kinds: &ValueKinds,
    id: usize,
    at: Place,
) -> Result<Option<Value>, Memory>
    ensures { IfOk result (λ v. option_map plain v ≡ fixed_value_of kinds.now.graph.now.sheet.now.trees.now kinds.now.graph.now.sheet.now.space.now id at) }
{
    match attribute(kinds.graph.sheet.trees, "fixedValue", at) {
        None => Ok(None),
        Some(text) => value_in(alloc, kinds, id, text),
    }
}

/// A value as a row holds it, 0 where there is none.
pub(crate) fn row_value(value: Option<Value>) -> Value
    ensures { result ≡ row_value_of (option_map plain value) }
{
    match value {
        None => Value::Num(0),
        Some(value) => stored(value),
    }
}
