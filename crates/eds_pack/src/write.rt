//! The second pass: writing a value that packs.

ghost use Rattle.std.specs.Prelude.{◌≡◌, ◌+◌, ◌*◌, ◌^◌, ◌<◌, ◌≤◌, length, map, option_map, reverse, slice_get};
ghost use Rattle.std.specs.List.{AllByRecursion};
ghost use Rattle.std.specs.Option.{option_copied};
ghost use Rattle.eds_base.specs.declared.ids.TypeId.{TypeId as Id};
ghost use Rattle.eds_bits.specs.Style.{canonical};
ghost use Rattle.eds_types.specs.Plain.{plain};
ghost use Rattle.eds_types.specs.Spelling.{ContainerSpells, ItemsSpell, KindSpells, SpellsWithin};
ghost use Rattle.eds_pack.specs.Nesting.{IsLow, Nests, PartNests};
ghost use Rattle.eds_pack.specs.Putting.{HasRoom, IsSized, Writes, FieldsSpell, ListSpells, PartSpells, RunSpells, between, entry_parts, own_octets, trailer_parts};
ghost use Rattle.eds_pack.specs.Seeking.{values_in};

use crate::fields::Fields;
use crate::leaf::{
    write_bits, write_label, write_number, write_padding, write_string, write_truth,
};
use crate::seek::{behind, value_in};
use crate::told::{check_value, length_value};
use eds_base::TypeId;
use eds_types::{Kind, Part, TypeRow, TypeTable, Value};

/// Writes a value, which packs, into the bits of the room from bit `at` on. Says where it ends.
#[cycle(write)]
pub(crate) fn write_value(
    table: &TypeTable,
    depth: u32,
    id: TypeId,
    value: &Value,
    room: &mut [u8],
    at: u64,
) -> u64
    requires nests { Nests table.now depth id.0 }
    requires few { depth ≤ 32 }
    requires room { HasRoom (SpellsWithin depth canonical table.now id.0 (plain value.now)) at room.old }
    ensures { Writes (SpellsWithin depth canonical table.now id.0 (plain value.now)) at room.old room.new result }
{
    table.keeps_rules();
    write_row(table, depth - 1, id, table.row(id), value, room, at)
}

// The same for the type in a row, in which other types are nested less deep.
#[cycle(write)]
fn write_row(
    table: &TypeTable,
    depth: u32,
    id: TypeId,
    row: &TypeRow,
    value: &Value,
    room: &mut [u8],
    at: u64,
) -> u64
    requires row { slice_get table.now id.0 ≡ Some row.now }
    requires nests { Nests table.now (depth + 1) id.0 }
    requires few { depth < 32 }
    requires room { HasRoom (KindSpells canonical table.now (SpellsWithin depth canonical table.now) id.0 row.now.kind (plain value.now)) at room.old }
    ensures { Writes (KindSpells canonical table.now (SpellsWithin depth canonical table.now) id.0 row.now.kind (plain value.now)) at room.old room.new result }
{
    table.keeps_rules();
    match &row.kind {
        Kind::Int(form, _) => write_number(*form, value, room, at),
        Kind::Enum(form, listing) => write_label(*form, listing, value, room, at),
        Kind::Bool(form) => write_truth(*form, value, room, at),
        Kind::Str(form) => write_string(*form, value, room, at),
        Kind::Bin(_, _) => write_bits(value, room, at),
        Kind::Arr(item, _) => write_list(table, depth, *item, value, room, at),
        Kind::Con(_) => write_fields(table, depth, id, value, room, at),
    }
}

// Writes the items of an array or a list.
#[cycle(write)]
fn write_list(
    table: &TypeTable,
    depth: u32,
    item: TypeId,
    value: &Value,
    room: &mut [u8],
    at: u64,
) -> u64
    requires nests { Nests table.now depth item.0 }
    requires few { depth < 32 }
    requires room { HasRoom (ListSpells (SpellsWithin depth canonical table.now item.0) (plain value.now)) at room.old }
    ensures { Writes (ListSpells (SpellsWithin depth canonical table.now item.0) (plain value.now)) at room.old room.new result }
{
    match value {
        Value::Items(items) => write_items(table, depth, item, items.as_slice(), room, at),
        _ => unreachable!(),
    }
}

// Writes items of a type.
#[cycle(write)]
fn write_items(
    table: &TypeTable,
    depth: u32,
    item: TypeId,
    items: &[Value],
    room: &mut [u8],
    at: u64,
) -> u64
    requires nests { Nests table.now depth item.0 }
    requires few { depth < 32 }
    requires room { HasRoom (ItemsSpell (SpellsWithin depth canonical table.now item.0) (map plain items.now)) at room.old }
    ensures { Writes (ItemsSpell (SpellsWithin depth canonical table.now item.0) (map plain items.now)) at room.old room.new result }
{
    let mut end = at;
    for value in items {
        end = write_value(table, depth, item, value, room, end);
    }
    end
}

// Writes a part of a container, which begins at bit `start`, and whose own value is the one given.
#[cycle(write)]
fn write_part(
    fields: &Fields<'_>,
    start: u64,
    part: &Part,
    value: Option<&Value>,
    room: &mut [u8],
    at: u64,
) -> u64
    requires nests { PartNests fields.now.table.now fields.now.depth part.now }
    requires few { fields.now.depth < 32 }
    requires low { IsLow fields.now.table.now (fields.now.depth + 1) fields.now.own.0 }
    requires sized { IsSized fields.now.table.now fields.now.depth fields.now.own.0 (map plain fields.now.values.now) }
    requires order { start ≤ at }
    requires room { HasRoom (PartSpells fields.now.table.now (SpellsWithin fields.now.depth canonical fields.now.table.now) (own_octets fields.now.table.now fields.now.depth fields.now.own.0 (map plain fields.now.values.now)) (between start at room.old) part.now (option_map plain (option_copied value))) at room.old }
    ensures { Writes (PartSpells fields.now.table.now (SpellsWithin fields.now.depth canonical fields.now.table.now) (own_octets fields.now.table.now fields.now.depth fields.now.own.0 (map plain fields.now.values.now)) (between start at room.old) part.now (option_map plain (option_copied value.entry))) at room.old room.new result }
{
    let table = fields.table;
    let depth = fields.depth;
    match part {
        Part::Plain(_, id) => match value {
            Some(value) => write_value(table, depth, *id, value, room, at),
            None => unreachable!(),
        },
        Part::Fixed(_, id, fixed) => write_value(table, depth, *id, fixed, room, at),
        Part::Pad(bits) => write_padding(*bits, room, at),
        Part::List(_, id, _, _) => match value {
            Some(value) => write_list(table, depth, *id, value, room, at),
            None => unreachable!(),
        },
        Part::Length(_, id, c0, c1) => {
            let number = length_value(fields, *c0, *c1);
            write_value(table, depth, *id, &number, room, at)
        }
        Part::Check(_, id, kind) => {
            let check = check_value(*kind, start, room, at);
            write_value(table, depth, *id, &check, room, at)
        }
    }
}

// Writes parts of a container, where so many values stand before theirs. Says where they end, and how many values stand
// before the next part.
#[cycle(write)]
fn write_parts(
    fields: &Fields<'_>,
    start: u64,
    parts: &[Part],
    before: usize,
    room: &mut [u8],
    at: u64,
) -> (u64, usize)
    requires nests { AllByRecursion (PartNests fields.now.table.now fields.now.depth) parts.now }
    requires few { fields.now.depth < 32 }
    requires low { IsLow fields.now.table.now (fields.now.depth + 1) fields.now.own.0 }
    requires sized { IsSized fields.now.table.now fields.now.depth fields.now.own.0 (map plain fields.now.values.now) }
    requires order { start ≤ at }
    requires before { before + length parts.now < 2 ^ 31 }
    requires room { HasRoom (RunSpells fields.now.table.now (SpellsWithin fields.now.depth canonical fields.now.table.now) (own_octets fields.now.table.now fields.now.depth fields.now.own.0 (map plain fields.now.values.now)) (map plain fields.now.values.now) before (between start at room.old) parts.now) at room.old }
    ensures run { Writes (RunSpells fields.now.table.now (SpellsWithin fields.now.depth canonical fields.now.table.now) (own_octets fields.now.table.now fields.now.depth fields.now.own.0 (map plain fields.now.values.now)) (map plain fields.now.values.now) before (between start at room.old) parts.now) at room.old room.new result.0 }
    ensures used { result.1 ≡ before + values_in parts.now }
{
    let mut used = before;
    let mut end = at;
    for part in parts {
        let value = value_in(fields.values, used);
        end = write_part(fields, start, part, value, room, end);
        used = behind(used, part);
    }
    (end, used)
}

// Writes the entries of a chain of containers. Says where they end, and how many values they have.
#[cycle(write)]
fn write_chain(
    fields: &Fields<'_>,
    start: u64,
    chain: &[TypeId],
    room: &mut [u8],
    at: u64,
) -> (u64, usize)
    requires chain { AllByRecursion (λ (id : Id). IsLow fields.now.table.now (fields.now.depth + 1) id.0) chain.now }
    requires short { length chain.now ≤ 16 }
    requires few { fields.now.depth < 32 }
    requires low { IsLow fields.now.table.now (fields.now.depth + 1) fields.now.own.0 }
    requires sized { IsSized fields.now.table.now fields.now.depth fields.now.own.0 (map plain fields.now.values.now) }
    requires order { start ≤ at }
    requires room { HasRoom (RunSpells fields.now.table.now (SpellsWithin fields.now.depth canonical fields.now.table.now) (own_octets fields.now.table.now fields.now.depth fields.now.own.0 (map plain fields.now.values.now)) (map plain fields.now.values.now) 0 (between start at room.old) (entry_parts fields.now.table.now chain.now)) at room.old }
    ensures run { Writes (RunSpells fields.now.table.now (SpellsWithin fields.now.depth canonical fields.now.table.now) (own_octets fields.now.table.now fields.now.depth fields.now.own.0 (map plain fields.now.values.now)) (map plain fields.now.values.now) 0 (between start at room.old) (entry_parts fields.now.table.now chain.now)) at room.old room.new result.0 }
    ensures used { result.1 ≡ values_in (entry_parts fields.now.table.now chain.now) }
    ensures few { result.1 ≤ 32767 * length chain.now }
{
    let table = fields.table;
    table.keeps_rules();
    let mut used = 0;
    let mut end = at;
    for id in chain {
        let (after, more) = write_parts(fields, start, table.entries_of(*id), used, room, end);
        end = after;
        used = more;
    }
    (end, used)
}

// Writes the trailers of a chain of containers, those of the last container first.
#[cycle(write)]
fn write_trailers(
    fields: &Fields<'_>,
    start: u64,
    chain: &[TypeId],
    before: usize,
    room: &mut [u8],
    at: u64,
) -> u64
    requires chain { AllByRecursion (λ (id : Id). IsLow fields.now.table.now (fields.now.depth + 1) id.0) chain.now }
    requires short { length chain.now ≤ 16 }
    requires few { fields.now.depth < 32 }
    requires low { IsLow fields.now.table.now (fields.now.depth + 1) fields.now.own.0 }
    requires sized { IsSized fields.now.table.now fields.now.depth fields.now.own.0 (map plain fields.now.values.now) }
    requires order { start ≤ at }
    requires before { before < 2 ^ 30 }
    requires room { HasRoom (RunSpells fields.now.table.now (SpellsWithin fields.now.depth canonical fields.now.table.now) (own_octets fields.now.table.now fields.now.depth fields.now.own.0 (map plain fields.now.values.now)) (map plain fields.now.values.now) before (between start at room.old) (trailer_parts fields.now.table.now (reverse chain.now))) at room.old }
    ensures { Writes (RunSpells fields.now.table.now (SpellsWithin fields.now.depth canonical fields.now.table.now) (own_octets fields.now.table.now fields.now.depth fields.now.own.0 (map plain fields.now.values.now)) (map plain fields.now.values.now) before (between start at room.old) (trailer_parts fields.now.table.now (reverse chain.now))) at room.old room.new result }
{
    let table = fields.table;
    table.keeps_rules();
    let mut used = before;
    let mut end = at;
    let mut rest = chain;
    while let [front @ .., id] = rest {
        let (after, more) = write_parts(fields, start, table.trailers_of(*id), used, room, end);
        end = after;
        used = more;
        rest = front;
    }
    end
}

// Writes the fields of a container where the type `id` is packed.
#[cycle(write)]
fn write_own(fields: &Fields<'_>, id: TypeId, room: &mut [u8], at: u64) -> u64
    requires low { IsLow fields.now.table.now (fields.now.depth + 1) id.0 }
    requires few { fields.now.depth < 32 }
    requires room { HasRoom (ContainerSpells canonical fields.now.table.now (SpellsWithin fields.now.depth canonical fields.now.table.now) id.0 fields.now.own.0 (map plain fields.now.values.now)) at room.old }
    ensures { Writes (ContainerSpells canonical fields.now.table.now (SpellsWithin fields.now.depth canonical fields.now.table.now) id.0 fields.now.own.0 (map plain fields.now.values.now)) at room.old room.new result }
{
    fields.table.keeps_rules();
    let chain = fields.table.chain_of(fields.own);
    let (end, used) = write_chain(fields, at, chain.as_slice(), room, at);
    write_trailers(fields, at, chain.as_slice(), used, room, end)
}

// Writes a value of a container type.
#[cycle(write)]
fn write_fields(
    table: &TypeTable,
    depth: u32,
    id: TypeId,
    value: &Value,
    room: &mut [u8],
    at: u64,
) -> u64
    requires nests { Nests table.now (depth + 1) id.0 }
    requires few { depth < 32 }
    requires room { HasRoom (FieldsSpell table.now (SpellsWithin depth canonical table.now) id.0 (plain value.now)) at room.old }
    ensures { Writes (FieldsSpell table.now (SpellsWithin depth canonical table.now) id.0 (plain value.now)) at room.old room.new result }
{
    match value {
        Value::Fields(own, values) => {
            let fields = Fields {
                table,
                depth,
                own: *own,
                values: values.as_slice(),
            };
            write_own(&fields, id, room, at)
        }
        _ => unreachable!(),
    }
}
