//! The types that are used.

ghost use Rattle.std.specs.Prelude.{◌≡◌, ◌++◌, filter, not, IfOk, OnOk};
ghost use Rattle.std.specs.List.{flat_map};
ghost use Rattle.eds_types.specs.declared.row.TypeRow.{TypeRow as type_row};
ghost use Rattle.eds_base.specs.declared.ids.TypeId.{TypeId as type_id};
ghost use Rattle.eds_read_types.specs.Used.{optional, part_type as part_type_of, part_types, types_named, is_open_id, used_types as used_types_of};

use crate::sheet_rows::is_open;
use eds_base::{Memory, TypeId};
use eds_types::{Kind, Part, TypeRow, TypeRows, Used};
use std::alloc::Global;

/// The type of a part.
fn part_type(part: &Part) -> Option<TypeId>
    ensures { result ≡ part_type_of part.now }
{
    match part {
        Part::Plain(_, id) => Some(*id),
        Part::Fixed(_, id, _) => Some(*id),
        Part::Pad(_) => None,
        Part::List(_, id, _, _) => Some(*id),
        Part::Length(_, id, _, _) => Some(*id),
        Part::Check(_, id, _) => Some(*id),
    }
}

fn push_optional(used: &mut Used, id: Option<TypeId>) -> Result<(), Memory>
    ensures { OnOk result (used.new ≡ used.old ++ optional id) }
{
    match id {
        None => Ok(()),
        Some(id) => used.push(id),
    }
}

/// Puts the types last that some parts have.
fn push_parts(used: &mut Used, parts: &[Part]) -> Result<(), Memory>
    ensures { OnOk result (used.new ≡ used.old ++ part_types parts.now) }
{
    for part in parts {
        push_optional(used, part_type(part))?;
    }
    Ok(())
}

/// Puts the types last that a type names.
fn push_named(used: &mut Used, kind: &Kind) -> Result<(), Memory>
    ensures { OnOk result (used.new ≡ used.old ++ types_named kind.now) }
{
    match kind {
        Kind::Int(_, _) => Ok(()),
        Kind::Enum(_, _) => Ok(()),
        Kind::Bool(_) => Ok(()),
        Kind::Str(_) => Ok(()),
        Kind::Bin(_, _) => Ok(()),
        Kind::Arr(item, _) => used.push(*item),
        Kind::Con(container) => {
            push_parts(used, container.entries.as_slice())?;
            push_parts(used, container.trailers.as_slice())
        }
    }
}

/// The types that some types name.
fn named(alloc: Global, rows: &[TypeRow]) -> Result<Used, Memory>
    ensures { IfOk result (λ used. used ≡ flat_map (λ (row : type_row). types_named row.kind) rows.now) }
{
    let mut named = Used::new(alloc);
    for row in rows {
        push_named(&mut named, &row.kind)?;
    }
    Ok(named)
}

/// Those of some types that are no open binary.
fn with_sizes(alloc: Global, rows: &TypeRows, ids: &[TypeId]) -> Result<Used, Memory>
    ensures { IfOk result (λ used. used ≡ filter (λ (id : type_id). not (is_open_id rows.now id)) ids.now) }
{
    let mut used = Used::new(alloc);
    for id in ids {
        if !is_open(rows, *id) {
            used.push(*id)?;
        }
    }
    Ok(used)
}

/// The types that a type or the TYPE word names, in this order, and that are no open binary.
pub(crate) fn used_types(
    alloc: Global,
    rows: &TypeRows,
    word: Option<TypeId>,
) -> Result<Used, Memory>
    ensures { IfOk result (λ used. used ≡ used_types_of rows.now word) }
{
    let mut ids = named(alloc, rows.as_slice())?;
    push_optional(&mut ids, word)?;
    with_sizes(alloc, rows, ids.as_slice())
}
