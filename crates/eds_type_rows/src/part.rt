//! The parts of containers as rows hold them.

ghost use Rattle.std.specs.Prelude.{◌≡◌, IfOk, option_map};
ghost use Rattle.eds_type_rows.specs.PartRows.{entry_type as entry_type_of, id_or_first as id_or_first_of, entry_id as entry_id_of, padding_size as padding_size_of, padding_size_in, padding_bits as padding_bits_of, unread as unread_part, plain_part as plain_part_of, fixed_part as fixed_part_of, list_part as list_part_of, length_part as length_part_of, check_part as check_part_of, part_at as part_of};

use crate::calibrator::scale_at;
use crate::check::check_at;
use crate::element::{attribute, own_name};
use crate::entry::{sort_at, type_named};
use crate::list_field::{Fields, field_container, field_place};
use crate::named_trees::NamedTrees;
use crate::part_sort::PartSort;
use crate::text_form::{binary_bits, natural};
use crate::type_id::id_found;
use crate::value_kinds::{ValueKinds, fixed_value, row_value};
use eds_base::{Memory, Place, Text, TypeId, whole_number};
use eds_tree::Tree;
use eds_types::Part;
use std::alloc::Global;

/// The number of the type that a part names.
fn entry_type(alloc: Global, sheet: &NamedTrees, at: Place) -> Result<Option<TypeId>, Memory>
    ensures { IfOk result (λ id. id ≡ entry_type_of sheet.now.trees.now sheet.now.space.now at) }
{
    id_found(alloc, sheet, at, type_named(sheet.trees, at))
}

/// A number of a type, the first type's where there is none.
pub fn id_or_first(id: Option<TypeId>) -> TypeId
    ensures { result ≡ id_or_first_of id }
{
    id.unwrap_or(TypeId(0))
}

/// The number of the type that a part names, the first type's where it names none.
pub fn entry_id(alloc: Global, sheet: &NamedTrees, at: Place) -> Result<TypeId, Memory>
    ensures { IfOk result (λ id. id ≡ entry_id_of sheet.now.trees.now sheet.now.space.now at) }
{
    let found = entry_type(alloc, sheet, at)?;
    Ok(id_or_first(found))
}

/// An entry by its name and its type.
fn plain_part(alloc: Global, sheet: &NamedTrees, at: Place) -> Result<Part, Memory>
    ensures { IfOk result (λ p. p ≡ plain_part_of sheet.now.trees.now sheet.now.space.now at) }
{
    let id = entry_id(alloc, sheet, at)?;
    let name = Text::of(alloc, own_name(sheet.trees, at))?;
    Ok(Part::Plain(name, id))
}

/// A number of bits that padding may have.
fn padding_size(text: &str) -> Option<u32>
    ensures { result ≡ padding_size_of text.now }
{
    let bits = natural(whole_number(text)?)?;
    binary_bits(false, bits)
}

fn padding_size_by(text: Option<&str>) -> Option<u32>
    ensures { result ≡ padding_size_in (option_map (λ t. t.now) text.entry) }
{
    padding_size(text?)
}

/// The bits of padding.
fn padding_bits(trees: &[Tree], at: Place) -> u32
    ensures { result ≡ padding_bits_of trees.now at }
{
    padding_size_by(attribute(trees, "sizeInBits", at)).unwrap_or(8)
}

/// In place of what is no part.
fn unread() -> Part
    ensures { result ≡ unread_part }
{
    Part::Pad(8)
}

/// A name, where there is one.
fn text_if(alloc: Global, name: Option<&str>) -> Result<Option<Text>, Memory>
    ensures { IfOk result (λ w. w ≡ option_map (λ n. n.now) name.entry) }
{
    match name {
        None => Ok(None),
        Some(name) => Ok(Some(Text::of(alloc, name)?)),
    }
}

/// A fixed value by its name, if it has one, its type and its value.
fn fixed_part(alloc: Global, kinds: &ValueKinds, at: Place) -> Result<Part, Memory>
    ensures { IfOk result (λ p. p ≡ fixed_part_of kinds.now.graph.now.sheet.now.trees.now kinds.now.graph.now.sheet.now.space.now at) }
{
    let sheet = kinds.graph.sheet;
    let id = entry_id(alloc, sheet, at)?;
    let value = fixed_value(alloc, kinds, id.0 as usize, at)?;
    let name = text_if(alloc, attribute(sheet.trees, "name", at))?;
    Ok(Part::Fixed(name, id, row_value(value)))
}

/// A list by its name, the type of its items, and the part that tells their number.
fn list_part(
    alloc: Global,
    sheet: &NamedTrees,
    container: usize,
    fields: &Fields,
    at: Place,
) -> Result<Part, Memory>
    requires { fields.now.trees.now ≡ sheet.now.trees.now }
    ensures { IfOk result (λ p. p ≡ list_part_of sheet.now.trees.now sheet.now.space.now container fields.now.seats.now at) }
{
    let item = entry_id(alloc, sheet, at)?;
    let name = Text::of(alloc, own_name(sheet.trees, at))?;
    let field = fields.seat_of(at);
    Ok(Part::List(
        name,
        item,
        field_container(container, field),
        field_place(field),
    ))
}

/// A length entry by its name, its type and its scale.
fn length_part(alloc: Global, sheet: &NamedTrees, at: Place) -> Result<Part, Memory>
    ensures { IfOk result (λ p. p ≡ length_part_of sheet.now.trees.now sheet.now.space.now at) }
{
    let id = entry_id(alloc, sheet, at)?;
    let name = Text::of(alloc, own_name(sheet.trees, at))?;
    let scale = scale_at(alloc, sheet.trees, at)?;
    Ok(Part::Length(name, id, scale.0, scale.1))
}

/// An error control by its name, its type and its check.
fn check_part(alloc: Global, sheet: &NamedTrees, at: Place) -> Result<Part, Memory>
    ensures { IfOk result (λ p. p ≡ check_part_of sheet.now.trees.now sheet.now.space.now at) }
{
    let id = entry_id(alloc, sheet, at)?;
    let name = Text::of(alloc, own_name(sheet.trees, at))?;
    Ok(Part::Check(name, id, check_at(sheet.trees, at)))
}

/// The part that the element at a place is, of the container of a number in whose sequence the fields are looked for.
pub(crate) fn part_at(
    alloc: Global,
    kinds: &ValueKinds,
    container: usize,
    fields: &Fields,
    at: Place,
) -> Result<Part, Memory>
    requires { fields.now.trees.now ≡ kinds.now.graph.now.sheet.now.trees.now }
    ensures { IfOk result (λ p. p ≡ part_of kinds.now.graph.now.sheet.now.trees.now kinds.now.graph.now.sheet.now.space.now container fields.now.seats.now at) }
{
    let sheet = kinds.graph.sheet;
    match sort_at(sheet.trees, at) {
        None => Ok(unread()),
        Some(PartSort::Entry) => plain_part(alloc, sheet, at),
        Some(PartSort::FixedValue) => fixed_part(alloc, kinds, at),
        Some(PartSort::Padding) => Ok(Part::Pad(padding_bits(sheet.trees, at))),
        Some(PartSort::List) => list_part(alloc, sheet, container, fields, at),
        Some(PartSort::Length) => length_part(alloc, sheet, at),
        Some(PartSort::ErrorControl) => check_part(alloc, sheet, at),
    }
}
