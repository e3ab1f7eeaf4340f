//! The first pass: how many bits a value has, or why it doesn't pack.

ghost use Rattle.std.specs.Prelude.{◌≡◌, ◌+◌, ◌*◌, ◌^◌, ◌<◌, ◌≤◌, [], Some, length, map, option_map, reverse, slice_get, IsTrue, IfOk, OnOk};
ghost use Rattle.std.specs.List.{AllByRecursion, flat_map};
ghost use Rattle.std.specs.Option.{option_copied};
ghost use Rattle.eds_base.specs.declared.ids.TypeId.{TypeId as Id};
ghost use Rattle.eds_types.specs.Failing.{entry, own_stations};
ghost use Rattle.eds_types.specs.Fields.{has_value as has_value_of, value_at};
ghost use Rattle.eds_types.specs.Packing.{valued};
ghost use Rattle.eds_types.specs.PackedSizes.{own_size as own_size_of, packed_size_within, packed_kind_size, array_size, items_size, container_size, fields_size, packed_part_size, list_size, row_bits, stations_size};
ghost use Rattle.eds_types.specs.Plain.{plain};
ghost use Rattle.eds_types.specs.Rows.{Placed, placed_from, numbers_of};
ghost use Rattle.eds_pack.specs.Counting.{added, counted, found, tallied};
ghost use Rattle.eds_pack.specs.Nesting.{IsLow, Nests, PartNests};
ghost use Rattle.eds_types.specs.Seeking.{entries_in_turn, trailers_in_turn};
ghost use Rattle.eds_pack.specs.Seeking.{AreNext, fields_of, values_in};

use crate::choice::check_most_derived;
use crate::constraint::check_constraints;
use crate::fields::Fields;
use crate::length::check_length;
use crate::plain::{flat_size, tells};
use crate::seek::{behind, has_fields, value_in};
use crate::tally::Tally;
use eds_base::{Path, Step, TypeId};
use eds_types::{Kind, PackReason, Part, TypeRow, TypeTable, Value, is_under, value_of};

/// Adds the bits of a value of a type to those before it. At a fault the path, which is empty, becomes the way to it.
#[cycle(size)]
pub(crate) fn add_value(
    table: &TypeTable,
    depth: u32,
    id: TypeId,
    value: &Value,
    total: &mut Tally,
    path: &mut Path,
) -> Result<(), PackReason>
    requires nests { Nests table.now depth id.0 }
    requires few { depth ≤ 32 }
    requires root { path.old ≡ [] }
    ensures adds { found result total.new path.new ≡ added total.old (packed_size_within depth table.now id.0 (plain value.now)) }
    ensures near { length path.new ≤ 2 * depth }
    ensures calm { OnOk result (path.new ≡ []) }
{
    table.keeps_rules();
    add_row(table, depth - 1, id, table.row(id), value, total, path)
}

// The same for the type in a row, in which other types are nested less deep.
#[cycle(size)]
fn add_row(
    table: &TypeTable,
    depth: u32,
    id: TypeId,
    row: &TypeRow,
    value: &Value,
    total: &mut Tally,
    path: &mut Path,
) -> Result<(), PackReason>
    requires row { slice_get table.now id.0 ≡ Some row.now }
    requires nests { Nests table.now (depth + 1) id.0 }
    requires few { depth < 32 }
    requires root { path.old ≡ [] }
    ensures adds { found result total.new path.new ≡ added total.old (packed_kind_size table.now (packed_size_within depth table.now) id.0 row.now.kind (plain value.now)) }
    ensures near { length path.new ≤ 2 * depth + 2 }
    ensures calm { OnOk result (path.new ≡ []) }
{
    table.keeps_rules();
    match &row.kind {
        Kind::Arr(item, count) => add_array(table, depth, *item, *count, value, total, path),
        Kind::Con(_) => add_container(table, depth, id, value, total, path),
        kind => total.take(flat_size(kind, value)),
    }
}

// Adds the bits of an array of so many items.
#[cycle(size)]
fn add_array(
    table: &TypeTable,
    depth: u32,
    item: TypeId,
    count: u32,
    value: &Value,
    total: &mut Tally,
    path: &mut Path,
) -> Result<(), PackReason>
    requires nests { Nests table.now depth item.0 }
    requires few { depth < 32 }
    requires root { path.old ≡ [] }
    ensures adds { found result total.new path.new ≡ added total.old (array_size (packed_size_within depth table.now item.0) count (plain value.now)) }
    ensures near { length path.new ≤ 2 * depth + 1 }
    ensures calm { OnOk result (path.new ≡ []) }
{
    let Value::Items(items) = value else {
        return Err(PackReason::WrongKind);
    };
    let items = items.as_slice();
    if items.len() != count as usize {
        return Err(PackReason::WrongSize);
    }
    add_items(table, depth, item, items, total, path)
}

// Adds the bits of items of a type.
#[cycle(size)]
fn add_items(
    table: &TypeTable,
    depth: u32,
    item: TypeId,
    items: &[Value],
    total: &mut Tally,
    path: &mut Path,
) -> Result<(), PackReason>
    requires nests { Nests table.now depth item.0 }
    requires few { depth < 32 }
    requires root { path.old ≡ [] }
    ensures adds { found result total.new path.new ≡ added total.old (items_size (packed_size_within depth table.now item.0) 0 0 (map plain items.now)) }
    ensures near { length path.new ≤ 2 * depth + 1 }
    ensures calm { OnOk result (path.new ≡ []) }
{
    for (i, value) in items.iter().enumerate() {
        if let Err(reason) = add_value(table, depth, item, value, total, path) {
            path.put_first(Step::Item(i.min(u32::MAX as usize) as u32));
            return Err(reason);
        }
    }
    total.keeps_bound();
    Ok(())
}

// Adds the bits of the items of a list, whose number an entry with this value tells.
#[cycle(size)]
fn add_list(
    table: &TypeTable,
    depth: u32,
    item: TypeId,
    told: Option<&Value>,
    value: &Value,
    total: &mut Tally,
    path: &mut Path,
) -> Result<(), PackReason>
    requires nests { Nests table.now depth item.0 }
    requires few { depth < 32 }
    requires root { path.old ≡ [] }
    ensures adds { found result total.new path.new ≡ added total.old (list_size table.now (packed_size_within depth table.now) [] item.0 (option_map plain (option_copied told.entry)) (Some (plain value.now))) }
    ensures near { length path.new ≤ 2 * depth + 1 }
    ensures calm { OnOk result (path.new ≡ []) }
{
    let Value::Items(items) = value else {
        return Err(PackReason::WrongKind);
    };
    let items = items.as_slice();
    if !tells(told, items.len()) {
        return Err(PackReason::CountWrong);
    }
    add_items(table, depth, item, items, total, path)
}

/// How many bits each pattern of an integer type has; another type has none.
fn form_bits(table: &TypeTable, id: TypeId) -> u32
    requires known { id.0 < length table.now }
    ensures { result ≡ row_bits (slice_get table.now id.0) }
{
    match &table.row(id).kind {
        Kind::Int(form, _) => form.bits,
        Kind::Enum(form, _) => form.bits,
        Kind::Bool(form) => form.bits,
        _ => 0,
    }
}

// Adds the bits of a part of a container, whose own value is the one given.
#[cycle(size)]
fn add_part(
    fields: &Fields<'_>,
    part: &Part,
    value: Option<&Value>,
    total: &mut Tally,
    path: &mut Path,
) -> Result<(), PackReason>
    requires nests { PartNests fields.now.table.now fields.now.depth part.now }
    requires few { fields.now.depth < 32 }
    requires root { path.old ≡ [] }
    ensures adds { (p : Placed) → (IsTrue (has_value_of part.now) → value_at (fields_of fields.now.table.now fields.now.own.0 fields.now.values.now) p.container p.place ≡ option_map plain (option_copied value.entry)) → found result total.new path.new ≡ added total.old (packed_part_size fields.now.table.now (packed_size_within fields.now.depth fields.now.table.now) (fields_of fields.now.table.now fields.now.own.0 fields.now.values.now) p part.now) }
    ensures near { length path.new ≤ 2 * fields.now.depth + 1 }
    ensures calm { OnOk result (path.new ≡ []) }
{
    let table = fields.table;
    let depth = fields.depth;
    match part {
        Part::Plain(_, id) => match value {
            Some(value) => add_value(table, depth, *id, value, total, path),
            None => {
                total.keeps_bound();
                Ok(())
            }
        },
        Part::Fixed(_, id, fixed) => add_value(table, depth, *id, fixed, total, path),
        Part::Pad(bits) => {
            total.add(*bits);
            Ok(())
        }
        Part::List(_, id, owner, place) => {
            let told = value_of(table, fields.own, fields.values, (*owner, *place));
            match value {
                Some(value) => add_list(table, depth, *id, told, value, total, path),
                None => {
                    total.keeps_bound();
                    Ok(())
                }
            }
        }
        Part::Length(_, id, _, _) => {
            total.add(form_bits(table, *id));
            Ok(())
        }
        Part::Check(_, id, _) => {
            total.add(form_bits(table, *id));
            Ok(())
        }
    }
}

// Adds the bits of parts of a container, of which the first stands at a given place, and its value behind so many others.
// Says how many values stand before the next part.
#[cycle(size)]
fn add_parts(
    fields: &Fields<'_>,
    first: (TypeId, u16),
    parts: &[Part],
    before: usize,
    total: &mut Tally,
    path: &mut Path,
) -> Result<usize, PackReason>
    requires nests { AllByRecursion (PartNests fields.now.table.now fields.now.depth) parts.now }
    requires places { first.1 + length parts.now < 2 ^ 16 }
    requires next { AreNext (fields_of fields.now.table.now fields.now.own.0 fields.now.values.now) (map plain fields.now.values.now) before (placed_from first.0.0 first.1 parts.now) }
    requires before { before < 2 ^ 31 }
    requires few { fields.now.depth < 32 }
    requires root { path.old ≡ [] }
    ensures adds { found result total.new path.new ≡ added total.old (stations_size fields.now.table.now (packed_size_within fields.now.depth fields.now.table.now) (fields_of fields.now.table.now fields.now.own.0 fields.now.values.now) fields.now.own.0 0 (map entry (placed_from first.0.0 first.1 parts.now))) }
    ensures used { IfOk result (λ n. n ≡ before + values_in parts.now) }
    ensures near { length path.new ≤ 2 * fields.now.depth + 2 }
    ensures calm { OnOk result (path.new ≡ []) }
{
    let mut used = before;
    for (i, part) in parts.iter().enumerate() {
        let value = value_in(fields.values, used);
        if let Err(reason) = add_part(fields, part, value, total, path) {
            path.put_first(Step::Part(first.0, first.1 + i as u16));
            return Err(reason);
        }
        used = behind(used, part);
    }
    total.keeps_bound();
    Ok(used)
}

// Adds the bits of the entries of a chain of containers, where each one's constraints hold. Says how many values stand
// before the next part.
#[cycle(size)]
fn add_chain(
    fields: &Fields<'_>,
    chain: &[TypeId],
    total: &mut Tally,
    path: &mut Path,
) -> Result<usize, PackReason>
    requires low { AllByRecursion (λ (id : Id). IsLow fields.now.table.now (fields.now.depth + 1) id.0) chain.now }
    requires short { length chain.now ≤ 16 }
    requires next { AreNext (fields_of fields.now.table.now fields.now.own.0 fields.now.values.now) (map plain fields.now.values.now) 0 (entries_in_turn fields.now.table.now chain.now) }
    requires few { fields.now.depth < 32 }
    requires root { path.old ≡ [] }
    ensures adds { found result total.new path.new ≡ added total.old (stations_size fields.now.table.now (packed_size_within fields.now.depth fields.now.table.now) (fields_of fields.now.table.now fields.now.own.0 fields.now.values.now) fields.now.own.0 0 (flat_map (own_stations fields.now.table.now) (numbers_of chain.now))) }
    ensures used { IfOk result (λ n. (n ≡ valued (entries_in_turn fields.now.table.now chain.now)) × (n ≤ 32767 * length chain.now)) }
    ensures near { length path.new ≤ 2 * fields.now.depth + 2 }
    ensures calm { OnOk result (path.new ≡ []) }
{
    let table = fields.table;
    table.keeps_rules();
    let mut used = 0;
    for id in chain {
        check_constraints(fields, table.constraints_of(*id), path)?;
        used = add_parts(fields, (*id, 0), table.entries_of(*id), used, total, path)?;
    }
    total.keeps_bound();
    Ok(used)
}

// Adds the bits of the trailers of a chain of containers, those of the last container first.
#[cycle(size)]
fn add_trailers(
    fields: &Fields<'_>,
    chain: &[TypeId],
    before: usize,
    total: &mut Tally,
    path: &mut Path,
) -> Result<(), PackReason>
    requires low { AllByRecursion (λ (id : Id). IsLow fields.now.table.now (fields.now.depth + 1) id.0) chain.now }
    requires short { length chain.now ≤ 16 }
    requires next { AreNext (fields_of fields.now.table.now fields.now.own.0 fields.now.values.now) (map plain fields.now.values.now) before (trailers_in_turn fields.now.table.now (reverse chain.now)) }
    requires before { before < 2 ^ 30 }
    requires few { fields.now.depth < 32 }
    requires root { path.old ≡ [] }
    ensures adds { found result total.new path.new ≡ added total.old (stations_size fields.now.table.now (packed_size_within fields.now.depth fields.now.table.now) (fields_of fields.now.table.now fields.now.own.0 fields.now.values.now) fields.now.own.0 0 (map entry (trailers_in_turn fields.now.table.now (reverse chain.now)))) }
    ensures near { length path.new ≤ 2 * fields.now.depth + 2 }
    ensures calm { OnOk result (path.new ≡ []) }
{
    let table = fields.table;
    table.keeps_rules();
    let mut used = before;
    let mut rest = chain;
    while let [front @ .., id] = rest {
        let first = table.entries_of(*id).len() as u16;
        used = add_parts(
            fields,
            (*id, first),
            table.trailers_of(*id),
            used,
            total,
            path,
        )?;
        rest = front;
    }
    total.keeps_bound();
    Ok(())
}

/// The bits of the fields of a concrete container with as many values, or the first station that they don't pass.
#[cycle(size)]
pub(crate) fn own_size(fields: &Fields<'_>, path: &mut Path) -> Result<Tally, PackReason>
    requires low { IsLow fields.now.table.now (fields.now.depth + 1) fields.now.own.0 }
    requires few { fields.now.depth < 32 }
    requires root { path.old ≡ [] }
    ensures size { tallied result path.new ≡ counted (own_size_of fields.now.table.now (packed_size_within fields.now.depth fields.now.table.now) fields.now.own.0 (map plain fields.now.values.now)) }
    ensures near { length path.new ≤ 2 * fields.now.depth + 2 }
    ensures calm { OnOk result (path.new ≡ []) }
{
    fields.table.keeps_rules();
    let chain = fields.table.chain_of(fields.own);
    let mut size = Tally::new();
    let used = add_chain(fields, chain.as_slice(), &mut size, path)?;
    check_most_derived(fields, path)?;
    add_trailers(fields, chain.as_slice(), used, &mut size, path)?;
    check_length(fields, &size, path)?;
    Ok(size)
}

// Adds the bits of the fields of a container where the type `id` is packed.
#[cycle(size)]
fn add_fields(
    fields: &Fields<'_>,
    id: TypeId,
    total: &mut Tally,
    path: &mut Path,
) -> Result<(), PackReason>
    requires low { IsLow fields.now.table.now (fields.now.depth + 1) id.0 }
    requires few { fields.now.depth < 32 }
    requires root { path.old ≡ [] }
    ensures adds { found result total.new path.new ≡ added total.old (fields_size fields.now.table.now (packed_size_within fields.now.depth fields.now.table.now) id.0 fields.now.own.0 (map plain fields.now.values.now)) }
    ensures near { length path.new ≤ 2 * fields.now.depth + 2 }
    ensures calm { OnOk result (path.new ≡ []) }
{
    let table = fields.table;
    table.keeps_rules();
    if !has_fields(table, fields.own, fields.values.len()) {
        return Err(PackReason::WrongKind);
    }
    if !is_under(table, fields.own, id) {
        path.put_first(Step::Choice(fields.own));
        return Err(PackReason::NotDerived);
    }
    if !table.is_concrete(fields.own) {
        path.put_first(Step::Choice(fields.own));
        return Err(PackReason::Abstract);
    }
    let size = own_size(fields, path)?;
    total.join(&size);
    Ok(())
}

// Adds the bits of a value of a container type.
#[cycle(size)]
fn add_container(
    table: &TypeTable,
    depth: u32,
    id: TypeId,
    value: &Value,
    total: &mut Tally,
    path: &mut Path,
) -> Result<(), PackReason>
    requires nests { Nests table.now (depth + 1) id.0 }
    requires few { depth < 32 }
    requires root { path.old ≡ [] }
    ensures adds { found result total.new path.new ≡ added total.old (container_size table.now (packed_size_within depth table.now) id.0 (plain value.now)) }
    ensures near { length path.new ≤ 2 * depth + 2 }
    ensures calm { OnOk result (path.new ≡ []) }
{
    match value {
        Value::Fields(own, values) => {
            let fields = Fields {
                table,
                depth,
                own: *own,
                values: values.as_slice(),
            };
            add_fields(&fields, id, total, path)
        }
        _ => Err(PackReason::WrongKind),
    }
}
