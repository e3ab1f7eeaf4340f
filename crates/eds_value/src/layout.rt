//! How the object of a container is written: its names in order, and the texts between its values.

ghost use Rattle.std.specs.Prelude.{◌≡◌, ◌<◌, ◌++◌, ◌∷◌, ◌⊎◌, ℕ, List, [], All, Contains, Some, IfOk, IfSome, OnOk, codes, length, map, string_bytes};
ghost use Rattle.json.specs.Print.{quoted};
ghost use Rattle.serde_json.specs.Data.{Data, no_members, object, put, string};
ghost use Rattle.serde_json.specs.Written.{comma_if, compact_text};
ghost use Rattle.eds_value.specs.JsonOfValue.{with_values};
ghost use Rattle.eds_value.specs.Layouts.{HasPosition, IsLayoutOf, content_at, laid_text, pieces_text};
ghost use Rattle.eds_value.specs.Members.{in_order_by, put_all_by};
ghost use Rattle.eds_value.specs.Seen.{seen};

use crate::entry::{Entry, entries_along};
use crate::line::PaddedText;
use crate::member::{Member, sort};
use crate::path::type_name;
use crate::quoted::{push_comma, push_quoted};
use eds_base::{Memory, TypeId};
use eds_types::TypeTable;
use std::alloc::Global;

/// A value in an object, and what stands before it.
#[derive(Drop)]
pub struct Piece {
    /// The text between the value before and this one, with its name.
    pub text: PaddedText,
    /// The position of its entry among those of the container and of its bases.
    pub position: usize,
}

/// The texts between the values of a container's object, whose names are in byte order.
#[derive(Drop)]
pub struct Layout {
    /// How many values it has: one for each entry.
    pub count: usize,
    pub pieces: Vec<Piece>,
    /// The text behind the last value.
    pub end: PaddedText,
}

// A name with the position of its value. The container's own name has none.
type Slot<'a> = Member<'a, Option<usize>>;

// The names of a container's object, in the order of the entries.
fn slots_of<'a>(alloc: Global, entries: &[Entry<'a>]) -> Result<Vec<Slot<'a>>, Memory>
    ensures within { IfOk result (λ ms. All (λ m. IfSome m.content (λ i. i < length entries.now)) ms.items) }
    ensures each { IfOk result (λ ms. (i : ℕ) → i < length entries.now → Contains (map (λ m. m.content) ms.items) (Some i)) }
    ensures put { IfOk result (λ ms. (name : List ℕ) (ds : List Data) → length ds ≡ length entries.now → put_all_by (content_at name ds) ms.items no_members ≡ with_values (map seen entries.now) ds (put (codes "$type") (string name) no_members)) }
{
    let mut slots = Vec::with_capacity(alloc, entries.len().saturating_add(1))?;
    slots.push(Member {
        name: "$type",
        content: None,
    })?;
    for position in 0..entries.len() {
        slots.push(Member {
            name: entries[position].name,
            content: Some(position),
        })?;
    }
    Ok(slots)
}

// Puts a name last, and its content where that is the container's own name. Where it is a value, the text so far becomes a
// piece.
fn push_slot(
    alloc: Global,
    own_name: &str,
    slot: &Slot<'_>,
    later: bool,
    pieces: &mut Vec<Piece>,
    text: &mut String,
) -> Result<(), Memory>
    ensures within { OnOk result ((n : ℕ) → IfSome slot.now.content (λ i. i < n) → All (λ p. p.position < n) pieces.old.items → All (λ p. p.position < n) pieces.new.items) }
    ensures each { OnOk result ((i : ℕ) → HasPosition pieces.old.items i ⊎ (slot.now.content ≡ Some i) → HasPosition pieces.new.items i) }
    ensures text { OnOk result ((ds : List Data) (rest : List ℕ) → pieces_text ds pieces.new.items ++ (string_bytes text.new ++ rest) ≡ pieces_text ds pieces.old.items ++ (string_bytes text.old ++ (comma_if later ++ (quoted slot.now.name.now ++ 58 ∷ (compact_text (content_at own_name.now ds slot.now.content) ++ rest))))) }
{
    push_comma(later, text)?;
    push_quoted(alloc, slot.name, text)?;
    text.push_str(":")?;
    match slot.content {
        None => push_quoted(alloc, own_name, text),
        Some(position) => {
            let before = PaddedText::of(alloc, text.as_str())?;
            text.clear();
            Ok(pieces.push(Piece {
                text: before,
                position,
            })?)
        }
    }
}

// The texts between the values of an object of these names, in their order.
fn laid_out(
    alloc: Global,
    own_name: &str,
    slots: &[Slot<'_>],
    count: usize,
) -> Result<Layout, Memory>
    requires { All (λ m. IfSome m.content (λ i. i < count)) slots.now }
    ensures count { IfOk result (λ l. l.count ≡ count) }
    ensures within { IfOk result (λ l. All (λ p. p.position < count) l.pieces.items) }
    ensures each { IfOk result (λ l. (i : ℕ) → Contains (map (λ m. m.content) slots.now) (Some i) → HasPosition l.pieces.items i) }
    ensures text { IfOk result (λ l. (ds : List Data) → laid_text ds l ≡ compact_text (object (in_order_by (content_at own_name.now ds) slots.now))) }
{
    let mut pieces = Vec::with_capacity(alloc, slots.len())?;
    let mut text = String::from_str(alloc, "{")?;
    let mut later = false;
    for slot in slots {
        push_slot(alloc, own_name, slot, later, &mut pieces, &mut text)?;
        later = true;
    }
    text.push_str("}")?;
    let end = PaddedText::of(alloc, text.as_str())?;
    Ok(Layout { count, pieces, end })
}

/// The layout of a container, whose names are all different. Other types have none.
pub(crate) fn layout_of(
    alloc: Global,
    table: &TypeTable,
    id: TypeId,
) -> Result<Option<Layout>, Memory>
    ensures { IfOk result (λ o. IfSome o (IsLayoutOf table.now id.0)) }
{
    if table.container_of(id).is_none() {
        return Ok(None);
    }
    let entries = entries_along(alloc, table, id)?;
    let mut slots = slots_of(alloc, entries.as_slice())?;
    if !sort(&mut slots) {
        return Ok(None);
    }
    let own_name = type_name(table, id);
    let layout = laid_out(alloc, own_name, slots.as_slice(), entries.len())?;
    Ok(Some(layout))
}
