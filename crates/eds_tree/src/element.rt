//! One element by itself, and the arrays of a file in document order.

ghost use Rattle.std.specs.Prelude.{◌≡◌, ◌+◌, ◌<◌, ◌^◌, ◌++◌, length, map, OnOk, IfOk};
ghost use Rattle.serde_json.specs.View.{view, items_view, members_view};
ghost use Rattle.eds_tree.specs.Elements.{is_element as items_of_element, is_content as content_of_element, are_children_or_texts as only_children_or_texts, is_child_or_text as child_or_text, have_texts as with_texts, has_text as with_text, size, items_size, not_elements, not_elements_in, first_or};

use serde_json::{Map, Value};

fn has_text(value: &Value) -> bool
    ensures { result ≡ with_text (view value.now) }
{
    match value {
        Value::Null | Value::Array(_) | Value::Object(_) => false,
        Value::Bool(_) | Value::String(_) => true,
        Value::Number(n) => !n.is_f64(),
    }
}

fn have_texts(members: &Map<String, Value>) -> bool
    ensures { result ≡ with_texts (members_view members.now.entries) }
{
    for (_, value) in members.iter() {
        if !has_text(value) {
            return false;
        }
    }
    true
}

fn is_child_or_text(value: &Value) -> bool
    ensures { result ≡ child_or_text (view value.now) }
{
    match value {
        Value::String(_) | Value::Array(_) => true,
        Value::Null | Value::Bool(_) | Value::Number(_) | Value::Object(_) => false,
    }
}

fn are_children_or_texts(items: &[Value]) -> bool
    ensures { result ≡ only_children_or_texts (items_view items.now) }
{
    for item in items {
        if !is_child_or_text(item) {
            return false;
        }
    }
    true
}

fn is_content(items: &[Value]) -> bool
    ensures { result ≡ content_of_element (items_view items.now) }
{
    match items {
        [] => true,
        [first, rest @ ..] => match first {
            Value::Object(members) => have_texts(members) && are_children_or_texts(rest),
            Value::String(_) => are_children_or_texts(rest),
            Value::Array(_) => are_children_or_texts(rest),
            Value::Null => false,
            Value::Bool(_) => false,
            Value::Number(_) => false,
        },
    }
}

// The items of an array are those of an element.
fn is_element(items: &[Value]) -> bool
    ensures { result ≡ items_of_element (items_view items.now) }
{
    match items {
        [] => false,
        [first, rest @ ..] => match first {
            Value::String(_) => is_content(rest),
            Value::Null => false,
            Value::Bool(_) => false,
            Value::Number(_) => false,
            Value::Array(_) => false,
            Value::Object(_) => false,
        },
    }
}

/// The number after the last array, or that of the first which is no element.
#[cycle(judge)]
pub(crate) fn judge(value: &Value, at: u32) -> Result<u32, u32>
    requires { at + size (view value.now) < 2 ^ 32 }
    ensures { result ≡ first_or (not_elements at (view value.now)) (at + size (view value.now)) }
{
    match value {
        Value::Array(items) => judge_array(items, at),
        Value::Null | Value::Bool(_) | Value::Number(_) | Value::String(_) | Value::Object(_) => Ok(
            at,
        ),
    }
}

#[cycle(judge)]
fn judge_array(items: &Vec<Value>, at: u32) -> Result<u32, u32>
    requires { at + 1 + items_size (items_view items.now.items) < 2 ^ 32 }
    ensures { result ≡ first_or (not_elements at (view (Value.Array items.now))) (at + 1 + items_size (items_view items.now.items)) }
{
    if is_element(items) {
        judge_items(items, at + 1)
    } else {
        Err(at)
    }
}

#[cycle(judge)]
fn judge_items(items: &Vec<Value>, at: u32) -> Result<u32, u32>
    requires { at + items_size (items_view items.now.items) < 2 ^ 32 }
    ensures { result ≡ first_or (not_elements_in at (items_view items.now.items)) (at + items_size (items_view items.now.items)) }
{
    let mut next = at;
    for item in items {
        next = judge(item, next)?;
    }
    Ok(next)
}
