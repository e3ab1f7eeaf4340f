//! Making a tree of a file's data.

ghost use Rattle.std.specs.Prelude.{◌≡◌, ◌+◌, ◌<◌, ◌^◌, ◌++◌, length, map, OnOk, IfOk, option_map};
ghost use Rattle.serde_json.specs.View.{view, items_view, members_view};
ghost use Rattle.eds_tree.specs.Rows.{shape_of};
ghost use Rattle.eds_tree.specs.Elements.{local_name as local_from, is_foreign as foreign, is_watched as watched, is_kept as kept, text_of as text_from, attributes_from, attributes_in, first_attributes, name_in, size, items_size, openings, openings_in, child_number, child_numbers, node_of};

use crate::row::Shape;
use crate::shape::{lists, shape_named};
use crate::tree::Node;
use eds_base::{Items, Memory, Text};
use serde_json::{Map, Value};
use std::alloc::Global;

fn is_foreign(name: &str) -> bool
    ensures { result ≡ foreign name.now }
{
    name.as_bytes().contains(&b':') || name == "xmlns"
}

fn is_watched(name: &str) -> bool
    ensures { result ≡ watched name.now }
{
    name == "failed" || name == "fixedValue"
}

fn is_kept(shape: Option<&'static Shape>, name: &str) -> bool
    ensures { result ≡ kept (option_map (λ s. shape_of s.now) shape.entry) name.now }
{
    !is_foreign(name) && (is_watched(name) || lists(shape, name))
}

// What stands after the last colon.
fn local_name(name: &str) -> &str
    ensures { result.now ≡ local_from name.now }
{
    match name.rsplit_once(':') {
        Some((_, after)) => after,
        None => name,
    }
}

fn text_of(alloc: Global, value: &Value) -> Result<Option<Text>, Memory>
    ensures { IfOk result (λ t. t ≡ text_from (view value.now)) }
{
    match value {
        Value::Null | Value::Array(_) | Value::Object(_) => Ok(None),
        Value::Bool(true) => Ok(Some(Text::of(alloc, "true")?)),
        Value::Bool(false) => Ok(Some(Text::of(alloc, "false")?)),
        Value::String(text) => Ok(Some(Text::of(alloc, text.as_str())?)),
        Value::Number(n) => {
            if let Some(whole) = n.as_u64() {
                Ok(Some(Text::from_string(format!(in alloc; "{whole}")?)))
            } else if let Some(whole) = n.as_i64() {
                Ok(Some(Text::from_string(format!(in alloc; "{whole}")?)))
            } else {
                Ok(None)
            }
        }
    }
}

fn attributes_of(
    alloc: Global,
    shape: Option<&'static Shape>,
    members: &Map<String, Value>,
) -> Result<Items<(Text, Text)>, Memory>
    ensures { IfOk result (λ a. a ≡ attributes_from (option_map (λ s. shape_of s.now) shape.entry) (members_view members.now.entries)) }
{
    let mut attributes = Items::new(alloc);
    for (key, value) in members.iter() {
        let text = text_of(alloc, value)?;
        if let Some(text) = text {
            if is_kept(shape, key.as_str()) {
                let name = Text::of(alloc, key.as_str())?;
                attributes.push((name, text))?;
            }
        }
    }
    Ok(attributes)
}

fn name_of(alloc: Global, items: &[Value]) -> Result<Text, Memory>
    ensures { IfOk result (λ t. t ≡ name_in (items_view items.now)) }
{
    match items {
        [] => Text::of(alloc, ""),
        [first, ..] => match first.as_str() {
            Some(name) => Text::of(alloc, local_name(name)),
            None => Text::of(alloc, ""),
        },
    }
}

fn attributes_first(
    alloc: Global,
    shape: Option<&'static Shape>,
    items: &[Value],
) -> Result<Items<(Text, Text)>, Memory>
    ensures { IfOk result (λ a. a ≡ first_attributes (option_map (λ s. shape_of s.now) shape.entry) (items_view items.now)) }
{
    match items {
        [] => Ok(Items::new(alloc)),
        [first, ..] => match first.as_object() {
            Some(members) => attributes_of(alloc, shape, members),
            None => Ok(Items::new(alloc)),
        },
    }
}

fn attributes_among(
    alloc: Global,
    shape: Option<&'static Shape>,
    items: &[Value],
) -> Result<Items<(Text, Text)>, Memory>
    ensures { IfOk result (λ a. a ≡ attributes_in (option_map (λ s. shape_of s.now) shape.entry) (items_view items.now)) }
{
    match items {
        [] => Ok(Items::new(alloc)),
        [_, rest @ ..] => attributes_first(alloc, shape, rest),
    }
}

// What keeps the place of an element until its children stand.
fn blank(alloc: Global) -> Node {
    Node {
        name: Text::new(alloc),
        attributes: Items::new(alloc),
        children: Items::new(alloc),
    }
}

// The number of a child, where the item is one.
fn note_child(children: &mut Items<u32>, at: u32, item: &Value) -> Result<(), Memory>
    ensures { OnOk result (children.new ≡ children.old ++ child_number at (view item.now)) }
{
    match item {
        Value::Array(_) => children.push(at),
        Value::String(_) => Ok(()),
        Value::Null | Value::Bool(_) | Value::Number(_) | Value::Object(_) => Ok(()),
    }
}

/// Puts the elements of the data last.
#[cycle(grow)]
pub(crate) fn grow(
    alloc: Global,
    nodes: &mut Vec<Node>,
    parent: &str,
    value: &Value,
) -> Result<(), Memory>
    requires { length nodes.old.items + size (view value.now) < 2 ^ 32 }
    ensures { OnOk result (nodes.new.items ≡ nodes.old.items ++ map node_of (openings parent.now (length nodes.old.items) (view value.now))) }
{
    match value {
        Value::Array(items) => grow_array(alloc, nodes, parent, items),
        Value::Null | Value::Bool(_) | Value::Number(_) | Value::String(_) | Value::Object(_) => Ok(
            (),
        ),
    }
}

#[cycle(grow)]
fn grow_array(
    alloc: Global,
    nodes: &mut Vec<Node>,
    parent: &str,
    items: &Vec<Value>,
) -> Result<(), Memory>
    requires { length nodes.old.items + 1 + items_size (items_view items.now.items) < 2 ^ 32 }
    ensures { OnOk result (nodes.new.items ≡ nodes.old.items ++ map node_of (openings parent.now (length nodes.old.items) (view (Value.Array items.now)))) }
{
    let at = nodes.len();
    let name = name_of(alloc, items)?;
    let attributes = attributes_among(alloc, shape_named(parent, name.as_str()), items)?;
    nodes.push(blank(alloc))?;
    let children = grow_items(alloc, nodes, name.as_str(), items)?;
    nodes[at] = Node {
        name,
        attributes,
        children,
    };
    Ok(())
}

#[cycle(grow)]
fn grow_items(
    alloc: Global,
    nodes: &mut Vec<Node>,
    parent: &str,
    items: &Vec<Value>,
) -> Result<Items<u32>, Memory>
    requires { length nodes.old.items + items_size (items_view items.now.items) < 2 ^ 32 }
    ensures grown { OnOk result (nodes.new.items ≡ nodes.old.items ++ map node_of (openings_in parent.now (length nodes.old.items) (items_view items.now.items))) }
    ensures children { IfOk result (λ numbers. numbers ≡ child_numbers (length nodes.old.items) (items_view items.now.items)) }
{
    let mut children = Items::new(alloc);
    for item in items {
        note_child(&mut children, nodes.len() as u32, item)?;
        grow(alloc, nodes, parent, item)?;
    }
    Ok(children)
}
