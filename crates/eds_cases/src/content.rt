//! What a file holds, as a case says it.

use crate::parts::Parts;
use anyhow::{Context, Result, bail};
use serde_json::{Map, Value};
use std::alloc::Global;

/// The text of JSON with no space in it and the members in byte order. In it `"@NAME"` stands for the part of that name,
/// `{"@items": [..]}` for those items, and `{"@repeat": [X, n]}` for n copies of X, each with its number, from 0, in place of
/// `#` and the next number in place of `%`. Items and copies stand side by side in the list around them.
pub(crate) fn printed(alloc: Global, parts: &Parts, value: &Value) -> Result<String> {
    let mut text = String::new(alloc);
    push_printed(value, alloc, parts, &mut text)?;
    Ok(text)
}

#[cycle(printing)]
fn push_printed(value: &Value, alloc: Global, parts: &Parts, text: &mut String) -> Result<()> {
    match value {
        Value::String(word) => match word.as_str().strip_prefix('@') {
            Some(name) => text.push_str(parts.text(name)?)?,
            None => text.push_str(value.to_string(alloc)?.as_str())?,
        },
        Value::Array(items) => {
            text.push_str("[")?;
            push_items(items, alloc, parts, text)?;
            text.push_str("]")?;
        }
        Value::Object(members) => push_object(members, alloc, parts, text)?,
        _ => text.push_str(value.to_string(alloc)?.as_str())?,
    }
    Ok(())
}

// Items side by side. What prints nothing is no item.
#[cycle(printing)]
fn push_items(items: &Vec<Value>, alloc: Global, parts: &Parts, text: &mut String) -> Result<()> {
    let mut is_first = true;
    for item in items {
        let mut piece = String::new(alloc);
        push_printed(item, alloc, parts, &mut piece)?;
        if !piece.is_empty() {
            if !is_first {
                text.push_str(",")?;
            }
            text.push_str(piece.as_str())?;
            is_first = false;
        }
    }
    Ok(())
}

// An object, or what stands for items.
#[cycle(printing)]
fn push_object(
    members: &Map<String, Value>,
    alloc: Global,
    parts: &Parts,
    text: &mut String,
) -> Result<()> {
    let mut is_first = true;
    for (name, value) in members {
        match (name.as_str(), value) {
            ("@items", Value::Array(items)) => return push_items(items, alloc, parts, text),
            ("@repeat", Value::Array(copies)) => return push_repeat(copies, alloc, parts, text),
            _ => {}
        }
        text.push_str(if is_first { "{" } else { "," })?;
        push_name(alloc, text, name.as_str())?;
        push_printed(value, alloc, parts, text)?;
        is_first = false;
    }
    text.push_str(if is_first { "{}" } else { "}" })?;
    Ok(())
}

// What is repeated, and then how many times.
#[cycle(printing)]
fn push_repeat(copies: &Vec<Value>, alloc: Global, parts: &Parts, text: &mut String) -> Result<()> {
    let count = count_in(copies.as_slice())?;
    for piece in copies {
        let mut one = String::new(alloc);
        push_printed(piece, alloc, parts, &mut one)?;
        return push_copies(alloc, text, one.as_str(), count, ",");
    }
    Ok(())
}

fn push_name(alloc: Global, text: &mut String, name: &str) -> Result<()> {
    let quoted = Value::String(String::from_str(alloc, name)?).to_string(alloc)?;
    text.push_str(quoted.as_str())?;
    text.push_str(":")?;
    Ok(())
}

// How many copies are wanted.
fn count_in(copies: &[Value]) -> Result<u64> {
    let count = copies.get(1).and_then(Value::as_u64);
    count.context("@repeat has a number of copies")
}

// Copies of a piece, in which `#` stands for the number of the copy, from 0, and `%` for the next number.
fn push_copies(
    alloc: Global,
    text: &mut String,
    piece: &str,
    count: u64,
    separator: &str,
) -> Result<()> {
    let is_numbered = piece.contains('#') || piece.contains('%');
    for i in 0..count {
        if i > 0 {
            text.push_str(separator)?;
        }
        if is_numbered {
            push_numbered(alloc, text, piece, i)?;
        } else {
            text.push_str(piece)?;
        }
    }
    Ok(())
}

fn push_numbered(alloc: Global, text: &mut String, piece: &str, i: u64) -> Result<()> {
    let number = format!(in alloc; "{i}")?;
    let next = i.saturating_add(1);
    let next = format!(in alloc; "{next}")?;
    for c in piece.chars() {
        match c {
            '#' => text.push_str(number.as_str())?,
            '%' => text.push_str(next.as_str())?,
            _ => text.push(c)?,
        }
    }
    Ok(())
}

/// A text: that of a string as it is, unless it names a part; `{"@join": [..]}` its pieces one after the other, of which
/// `{"@repeat": [X, n]}` is n copies of the text X; and any other JSON printed.
pub(crate) fn text_of(alloc: Global, parts: &Parts, content: &Value) -> Result<String> {
    let mut text = String::new(alloc);
    match content.get("@join").and_then(Value::as_array) {
        Some(pieces) => {
            for piece in pieces {
                push_piece(alloc, parts, &mut text, piece)?;
            }
        }
        None => push_piece(alloc, parts, &mut text, content)?,
    }
    Ok(text)
}

fn push_piece(alloc: Global, parts: &Parts, text: &mut String, piece: &Value) -> Result<()> {
    if let Some(copies) = piece.get("@repeat").and_then(Value::as_array) {
        let count = count_in(copies.as_slice())?;
        let one = copies.get(0).and_then(Value::as_str);
        return push_copies(alloc, text, one.context("@repeat has a text")?, count, "");
    }
    match piece.as_str() {
        Some(word) if !word.starts_with('@') => text.push_str(word)?,
        _ => push_printed(piece, alloc, parts, text)?,
    }
    Ok(())
}

/// The octets of a file: those of `{"@hex": ".."}`, or those of a text.
pub(crate) fn octets(alloc: Global, parts: &Parts, content: &Value) -> Result<Vec<u8>> {
    if let Some(digits) = content.get("@hex") {
        let digits = digits.as_str().context("@hex is a text")?;
        return match hex::decode(alloc, digits) {
            Ok(octets) => Ok(octets),
            Err(_) => bail!("@hex has an odd number of digits or another octet"),
        };
    }
    let text = text_of(alloc, parts, content)?;
    Ok(text.as_bytes().to_vec(alloc)?)
}
