//! Defaults: the values that variables without an initial value start with.

ghost use Rattle.std.specs.Prelude.{◌≡◌, ◌+◌, ◌<◌, ◌≤◌, ℕ, ℤ, List, [], ◌∷◌, Some, length, map, option_map, replicate, slice_get, IfOk, IfSome, IfNone};
ghost use Rattle.std.specs.List.{flat_map};
ghost use Rattle.eds_bits.specs.Style.{canonical};
ghost use Rattle.eds_base.specs.declared.ids.TypeId.{TypeId as Id};
ghost use Rattle.eds_types.specs.declared.row.Part.TheVariants.{Plain as Entry};
ghost use Rattle.eds_types.specs.declared.row.TypeRow.{TypeRow};
ghost use Rattle.eds_types.specs.Fields.{constraints_along, type_on, part_at};
ghost use Rattle.eds_types.specs.LeastSize.{least_size};
ghost use Rattle.eds_types.specs.Plain.{Plain, plain, num};
ghost use Rattle.eds_types.specs.Rows.{Placed, address, constraints_of, sequence, numbers_of};
ghost use Rattle.eds_types.specs.Rules.{AreDistinct};
ghost use Rattle.eds_types.specs.Spelling.{KindSpells, SpellsWithin};
ghost use Rattle.eds_pack.specs.Building.{AskedOf, Built, BuiltBehind, Chosen, IsFirstLabel, IsLeastLabel, IsLeastTruth, ItemsHold, PartHolds, PartsHold, plain_items};
ghost use Rattle.eds_pack.specs.Defaults.{DefaultsWithin, EntryDefaults, FieldsDefault, IsDefault, ItemsDefault, KindDefaults, PartDefaults, PartsDefault, zero_bits};
ghost use Rattle.eds_pack.specs.Nesting.{IsLow, Nests};
ghost use Rattle.eds_pack.specs.Putting.{FieldsSpell};

use crate::asked::asked_along;
use crate::conforms;
use crate::least::{first_number, label_of, least_container, least_listed};
use crate::whole::MOST_NESTED;
use eds_base::{Items, Memory, Spans, Text, TypeId};
use eds_types::{Kind, Part, TypeTable, Value, law};
use std::alloc::Global;

/// The most bits of a default.
const MOST_BITS: u32 = 524_288;

/// So many bits, all zero.
fn zero_value(alloc: Global, count: u32) -> Result<Value, Memory>
    ensures { IfOk result (λ v. plain v ≡ zero_bits count) }
{
    let octets = vec![in alloc; 0u8; count.div_ceil(8) as usize]?;
    Ok(Value::Bits(count, Items::from_vec(octets)))
}

/// The value of a number, if there is one.
fn numbered(number: Option<i128>) -> Option<Value>
    ensures { option_map plain result ≡ option_map num number }
{
    Some(Value::Num(number?))
}

/// The first label of a listing.
fn first_label(alloc: Global, listing: &[(Text, i128)]) -> Result<Option<Value>, Memory>
    ensures { IfOk result (λ o. Chosen (IsFirstLabel listing.now) (option_map plain o)) }
{
    match listing {
        [] => Ok(None),
        [first, ..] => Ok(Some(Value::Label(Text::of(alloc, first.0.as_str())?))),
    }
}

/// The label with the least number of a listing that is in a set.
fn least_label(
    alloc: Global,
    listing: &[(Text, i128)],
    asked: &Spans,
) -> Result<Option<Value>, Memory>
    requires labels { AreDistinct (map (λ (e : List ℕ × ℤ). e.0) listing.now) }
    ensures { IfOk result (λ o. Chosen (IsLeastLabel listing.now asked.now) (option_map plain o)) }
{
    let Some(number) = least_listed(listing, asked) else {
        return Ok(None);
    };
    match label_of(listing, number) {
        Some(label) => Ok(Some(Value::Label(Text::of(alloc, label.as_str())?))),
        None => Ok(None),
    }
}

/// The least truth value, as 0 or 1, that is in a set.
fn least_truth(asked: &Spans) -> Option<Value>
    ensures { Chosen (IsLeastTruth asked.now) (option_map plain result) }
{
    if asked.holds(0) {
        Some(Value::Bool(false))
    } else if asked.holds(1) {
        Some(Value::Bool(true))
    } else {
        None
    }
}

/// A value so many times.
fn copies(alloc: Global, value: &Value, count: u32) -> Result<Vec<Value>, Memory>
    ensures { IfOk result (λ vs. map plain vs.items ≡ replicate count (plain value.now)) }
{
    let mut all = Vec::new(alloc);
    for _ in 0..count {
        let copy = value.copy(alloc)?;
        all.push(copy)?;
    }
    Ok(all)
}

/// The default of a type, of at most so many bits, which it takes from them; None where there is none.
#[cycle(defaults)]
fn default_within(
    alloc: Global,
    table: &TypeTable,
    depth: u32,
    id: TypeId,
    left: &mut u32,
) -> Result<Option<Value>, Memory>
    requires nests { Nests table.now depth id.0 }
    requires few { depth ≤ 32 }
    ensures built { IfOk result (λ o. Built (DefaultsWithin depth table.now id.0) (SpellsWithin depth canonical table.now id.0) left.old left.new (option_map plain o)) }
    ensures takes { IfOk result (λ o. IfSome o (λ v. left.new + least_size table.now id.0 ≤ left.old)) }
{
    table.keeps_rules();
    law::least_size();
    let before = *left;
    let least = table.min_bits(id);
    if before < least {
        return Ok(None);
    }
    let value = default_of_kind(alloc, table, depth - 1, id, &table.row(id).kind, left)?;
    *left = (*left).min(before - least);
    Ok(value)
}

/// The same for a type of a kind, in which other types are nested less deep.
#[cycle(defaults)]
fn default_of_kind(
    alloc: Global,
    table: &TypeTable,
    depth: u32,
    id: TypeId,
    kind: &Kind,
    left: &mut u32,
) -> Result<Option<Value>, Memory>
    requires row { (row : TypeRow) × (slice_get table.now id.0 ≡ Some row) × (row.kind ≡ kind.now) }
    requires nests { Nests table.now (depth + 1) id.0 }
    requires few { depth < 32 }
    ensures { IfOk result (λ o. Built (KindDefaults table.now (DefaultsWithin depth table.now) id.0 kind.now) (KindSpells canonical table.now (SpellsWithin depth canonical table.now) id.0 kind.now) left.old left.new (option_map plain o)) }
{
    table.keeps_rules();
    match kind {
        Kind::Int(_, spans) => Ok(numbered(first_number(spans))),
        Kind::Enum(_, listing) => first_label(alloc, listing.as_slice()),
        Kind::Bool(_) => Ok(Some(Value::Bool(false))),
        Kind::Str(_) => Ok(Some(Value::Text(Text::new(alloc)))),
        Kind::Bin(bits, is_open) => {
            let count = if *is_open { 0 } else { *bits };
            Ok(Some(zero_value(alloc, count)?))
        }
        Kind::Arr(item, count) => default_items(alloc, table, depth, *item, *count, left),
        Kind::Con(_) => default_fields(alloc, table, depth, id, left),
    }
}

/// So many items, each the default of their type.
#[cycle(defaults)]
fn default_items(
    alloc: Global,
    table: &TypeTable,
    depth: u32,
    item: TypeId,
    count: u32,
    left: &mut u32,
) -> Result<Option<Value>, Memory>
    requires nests { Nests table.now depth item.0 }
    requires few { depth < 32 }
    requires some { 1 ≤ count }
    ensures { IfOk result (λ o. Built (ItemsDefault table.now (DefaultsWithin depth table.now) item.0 count) (λ v b. ItemsHold (SpellsWithin depth canonical table.now item.0) count v b) left.old left.new (option_map plain o)) }
{
    let before = *left;
    let Some(value) = default_within(alloc, table, depth, item, left)? else {
        return Ok(None);
    };
    let used = u64::from(before - *left) * u64::from(count);
    if u64::from(before) < used {
        return Ok(None);
    }
    *left = before - used as u32;
    Ok(Some(Value::Items(copies(alloc, &value, count)?)))
}

/// A container with the defaults of its entries and lists.
#[cycle(defaults)]
fn default_fields(
    alloc: Global,
    table: &TypeTable,
    depth: u32,
    id: TypeId,
    left: &mut u32,
) -> Result<Option<Value>, Memory>
    requires low { IsLow table.now (depth + 1) id.0 }
    requires few { depth < 32 }
    ensures { IfOk result (λ o. Built (FieldsDefault table.now (DefaultsWithin depth table.now) id.0) (FieldsSpell table.now (SpellsWithin depth canonical table.now) id.0) left.old left.new (option_map plain o)) }
{
    if !table.is_concrete(id) {
        return Ok(None);
    }
    match default_values(alloc, table, depth, id, left)? {
        Some(values) => Ok(Some(Value::Fields(id, values))),
        None => Ok(None),
    }
}

/// The defaults of the entries and lists of a container.
#[cycle(defaults)]
fn default_values(
    alloc: Global,
    table: &TypeTable,
    depth: u32,
    id: TypeId,
    left: &mut u32,
) -> Result<Option<Vec<Value>>, Memory>
    requires low { IsLow table.now (depth + 1) id.0 }
    requires few { depth < 32 }
    ensures { IfOk result (λ o. Built (PartsDefault table.now (DefaultsWithin depth table.now) (constraints_along table.now id.0) (sequence table.now id.0)) (PartsHold (SpellsWithin depth canonical table.now) (sequence table.now id.0)) left.old left.new (option_map plain_items o)) }
{
    table.keeps_rules();
    let chain = table.chain_of(id);
    let places = table.sequence_of(alloc, id)?;
    let mut values = Vec::new(alloc);
    for place in places.as_slice() {
        if !add_default(
            alloc,
            table,
            depth,
            chain.as_slice(),
            *place,
            &mut values,
            left,
        )? {
            return Ok(None);
        }
    }
    Ok(Some(values))
}

/// Puts the default of the part at a place last, if it has a value. Answers false where it has no default.
#[cycle(defaults)]
fn add_default(
    alloc: Global,
    table: &TypeTable,
    depth: u32,
    chain: &[TypeId],
    place: (TypeId, u16),
    values: &mut Vec<Value>,
    left: &mut u32,
) -> Result<bool, Memory>
    requires nests { (name : List ℕ) (id : Id) → part_at table.now place ≡ Some (Entry name id) → Nests table.now depth id.0 }
    requires few { depth < 32 }
    ensures { (p : Placed) → address p ≡ place → part_at table.now place ≡ Some p.part → IfOk result (λ done. BuiltBehind (PartDefaults table.now (DefaultsWithin depth table.now) (flat_map (constraints_of table.now) (numbers_of chain.now)) p p.part) (PartHolds (SpellsWithin depth canonical table.now) p.part) left.old left.new (map plain values.old.items) (map plain values.new.items) done) }
{
    match table.part_at(place.0, place.1) {
        Some(part) => match part {
            Part::Plain(_, id) => {
                match default_entry(alloc, table, depth, chain, place, *id, left)? {
                    Some(value) => {
                        values.push(value)?;
                        Ok(true)
                    }
                    None => Ok(false),
                }
            }
            Part::List(_, _, _, _) => {
                values.push(Value::Items(Vec::new(alloc)))?;
                Ok(true)
            }
            _ => Ok(true),
        },
        None => Ok(true),
    }
}

/// The default of an entry: that of its type, or where constraints name it directly, the least number that they have in
/// common.
#[cycle(defaults)]
fn default_entry(
    alloc: Global,
    table: &TypeTable,
    depth: u32,
    chain: &[TypeId],
    place: (TypeId, u16),
    id: TypeId,
    left: &mut u32,
) -> Result<Option<Value>, Memory>
    requires nests { Nests table.now depth id.0 }
    requires few { depth < 32 }
    requires at { type_on table.now (place ∷ []) ≡ Some id.0 }
    ensures { (p : Placed) → address p ≡ place → IfOk result (λ o. Built (EntryDefaults table.now (DefaultsWithin depth table.now) (flat_map (constraints_of table.now) (numbers_of chain.now)) p id.0) (SpellsWithin depth canonical table.now id.0) left.old left.new (option_map plain o)) }
{
    match asked_along(alloc, table, chain, place)? {
        None => default_within(alloc, table, depth, id, left),
        Some(asked) => { asked_default(alloc, table, depth, id, &table.row(id).kind, &asked, left) }
    }
}

/// The value of a type that stands for the least number of its domain that is in a set.
#[cycle(defaults)]
fn asked_default(
    alloc: Global,
    table: &TypeTable,
    depth: u32,
    id: TypeId,
    kind: &Kind,
    asked: &Spans,
    left: &mut u32,
) -> Result<Option<Value>, Memory>
    requires row { (row : TypeRow) × (slice_get table.now id.0 ≡ Some row) × (row.kind ≡ kind.now) }
    requires nests { Nests table.now depth id.0 }
    requires few { depth < 32 }
    ensures { IfOk result (λ o. Built (AskedOf table.now (DefaultsWithin depth table.now) id.0 kind.now asked.now) (SpellsWithin depth canonical table.now id.0) left.old left.new (option_map plain o)) }
{
    table.keeps_rules();
    match kind {
        Kind::Int(_, spans) => Ok(numbered(spans.first_common(asked))),
        Kind::Enum(_, listing) => least_label(alloc, listing.as_slice(), asked),
        Kind::Bool(_) => Ok(least_truth(asked)),
        Kind::Con(_) => match least_container(table, id, asked) {
            Some(own) => default_within(alloc, table, depth, own, left),
            None => Ok(None),
        },
        _ => Ok(None),
    }
}

/// The default of a type: what a variable of the type without an initial value starts with. None exactly where there is
/// none: where the type is an abstract container, where a part of it has no default, and where the value doesn't pack.
pub fn default_of(alloc: Global, table: &TypeTable, id: TypeId) -> Result<Option<Value>, Memory>
    requires known { id.0 < length table.now }
    ensures some { IfOk result (λ o. IfSome o (λ v. IsDefault table.now id.0 (plain v))) }
    ensures none { IfOk result (λ o. IfNone o ((v : Plain) → IsDefault table.now id.0 v → ⊥)) }
{
    table.keeps_rules();
    let mut left = MOST_BITS;
    match default_within(alloc, table, MOST_NESTED, id, &mut left)? {
        Some(value) => {
            if conforms(table, id, &value) {
                Ok(Some(value))
            } else {
                Ok(None)
            }
        }
        None => Ok(None),
    }
}
