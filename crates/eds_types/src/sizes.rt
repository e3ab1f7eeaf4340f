//! Least sizes of types, in bits.

ghost use Rattle.std.specs.Prelude.{◌≡◌, ◌+◌, ◌*◌, ◌≤◌, ℕ, Some, length, map, sum_by, slice_index, if◌then◌else◌, IfOk, EachIndex};
ghost use Rattle.eds_base.specs.declared.ids.TypeId.{TypeId};
ghost use Rattle.eds_types.specs.Rows.{numbers};
ghost use Rattle.eds_types.specs.Domains.{int_domain};
ghost use Rattle.eds_types.specs.LeastSize.{capped, size_in, least_in, least_number, least_number_in, least_count, least_part, least_own, size_by, family_size, lowered, next_sizes, least_size};

use crate::look::{chain_of, domain_of, entries_of, is_concrete, part_at, trailers_of};
use crate::{Kind, Part, TypeRow};
use eds_base::{Items, Memory, Span, Spans, TypeId};
use eds_bits::TextForm;
use std::alloc::Global;

/// More bits than a packed value may have.
const NO_SIZE: u32 = 524_289;

/// A number of bits, or `NO_SIZE` where it is larger.
fn capped(n: u64) -> u32
    ensures { result ≡ capped n }
{
    n.min(NO_SIZE as u64) as u32
}

/// The size of a type by the sizes of all.
pub(crate) fn size_in(sizes: &[u32], id: TypeId) -> u32
    ensures { result ≡ size_in sizes.now id.0 }
{
    match sizes.get(id.0 as usize) {
        Some(size) => *size,
        None => NO_SIZE,
    }
}

/// The least number of an interval that has no negative ones; `NO_SIZE` for an empty one.
fn least_in(span: &Span) -> u128
    ensures { result ≡ least_in span.now }
{
    if span.low <= span.high {
        span.low.unsigned_abs()
    } else {
        u128::from(NO_SIZE)
    }
}

/// The least number of a domain that has no negative ones, or `NO_SIZE` where it is larger.
fn least_number(spans: &Spans) -> u32
    ensures { result ≡ least_number spans.now }
{
    let mut least = NO_SIZE;
    for span in spans.as_slice() {
        least = least_in(span).min(u128::from(least)) as u32;
    }
    least
}

/// The least number of an integer type or sub-range, or `NO_SIZE` where it is larger.
fn least_number_of(rows: &[TypeRow], id: TypeId) -> u32
    ensures { result ≡ least_number_in (int_domain rows.now id.0) }
{
    match domain_of(rows, id) {
        Some(spans) => least_number(spans),
        None => 0,
    }
}

/// The size of a part by the sizes of all types.
fn part_size(rows: &[TypeRow], sizes: &[u32], part: &Part) -> u32
    ensures { result ≡ capped (least_part rows.now (size_in sizes.now) part.now) }
{
    match part {
        Part::Plain(_, id) => capped(size_in(sizes, *id) as u64),
        Part::Fixed(_, id, _) => capped(size_in(sizes, *id) as u64),
        Part::Pad(n) => capped(*n as u64),
        Part::List(_, id, container, place) => {
            list_size(rows, *container, *place, size_in(sizes, *id))
        }
        Part::Length(_, id, _, _) => capped(size_in(sizes, *id) as u64),
        Part::Check(_, id, _) => capped(size_in(sizes, *id) as u64),
    }
}

/// The size of a list whose items have at least some bits, and whose number an entry tells.
fn list_size(rows: &[TypeRow], container: TypeId, place: u16, item: u32) -> u32
    ensures { result ≡ capped (least_count rows.now container place * item) }
{
    let count = least_count(rows, container, place);
    capped(count as u64 * item as u64)
}

/// The least number that an entry can tell, or `NO_SIZE` where it is larger.
fn least_count(rows: &[TypeRow], container: TypeId, place: u16) -> u32
    ensures { result ≡ least_count rows.now container place }
{
    match part_at(rows, container, place) {
        Some(part) => match part.type_id() {
            Some(id) => least_number_of(rows, id),
            None => 0,
        },
        None => 0,
    }
}

/// The size of parts by the sizes of all types.
fn parts_size(rows: &[TypeRow], sizes: &[u32], parts: &[Part]) -> u32
    ensures { result ≡ capped (sum_by (least_part rows.now (size_in sizes.now)) parts.now) }
{
    let mut sum = 0;
    for part in parts {
        sum = capped(sum as u64 + part_size(rows, sizes, part) as u64);
    }
    sum
}

/// The size of a container's own parts by the sizes of all types.
fn own_size(rows: &[TypeRow], sizes: &[u32], id: TypeId) -> u32
    ensures { result ≡ capped (least_own rows.now (size_in sizes.now) id.0) }
{
    let entries = parts_size(rows, sizes, entries_of(rows, id));
    let trailers = parts_size(rows, sizes, trailers_of(rows, id));
    capped(entries as u64 + trailers as u64)
}

/// The sizes of all containers' own parts, each at its type.
fn own_sizes(alloc: Global, rows: &[TypeRow], sizes: &[u32]) -> Result<Items<u32>, Memory>
    requires { length rows.now ≤ 4096 }
    ensures { IfOk result (λ own. own ≡ map (λ y. capped (least_own rows.now (size_in sizes.now) y)) (numbers rows.now)) }
{
    let mut own = Items::new(alloc);
    for id in 0..rows.len() as u32 {
        own.push(own_size(rows, sizes, TypeId(id)))?;
    }
    Ok(own)
}

/// The size of a type's own parts, none where there is no such type.
fn own_in(own: &[u32], id: TypeId) -> u32
    ensures { result ≡ slice_index own.now id.0 }
{
    match own.get(id.0 as usize) {
        Some(size) => *size,
        None => 0,
    }
}

/// The size of the parts of a chain.
fn chain_size(own: &[u32], chain: &[TypeId]) -> u32
    ensures { result ≡ capped (sum_by (λ (y : TypeId). slice_index own.now y.0) chain.now) }
{
    let mut sum = 0;
    for id in chain {
        sum = capped(sum as u64 + own_in(own, *id) as u64);
    }
    sum
}

/// Lowers the sizes of the types of a chain to a size, where they are larger.
fn lower(families: &mut [u32], chain: &[TypeId], size: u32)
    ensures { EachIndex families.old (λ id. slice_index families.new id ≡ lowered size chain.now id (slice_index families.old id)) }
{
    for id in chain {
        let at = id.0 as usize;
        if at < families.len() {
            families[at] = families[at].min(size);
        }
    }
}

/// The least sizes of the concrete containers at or under each type.
fn family_sizes(alloc: Global, rows: &[TypeRow], own: &[u32]) -> Result<Vec<u32>, Memory>
    requires { length rows.now ≤ 4096 }
    ensures len { IfOk result (λ f. length f.items ≡ length rows.now) }
    ensures sizes { IfOk result (λ f. EachIndex f.items (λ id. slice_index f.items id ≡ family_size rows.now own.now (length rows.now) id)) }
{
    let mut families = vec![in alloc; NO_SIZE; rows.len()]?;
    for k in 0..rows.len() as u32 {
        let id = TypeId(k);
        if is_concrete(rows, id) {
            let chain = chain_of(rows, id);
            lower(
                &mut families,
                chain.as_slice(),
                chain_size(own, chain.as_slice()),
            );
        }
    }
    Ok(families)
}

/// The size of a kind by the sizes of all types, where that of a container is given.
fn kind_size(sizes: &[u32], kind: &Kind, container: u32) -> u32
    ensures { result ≡ capped (size_by (size_in sizes.now) kind.now container) }
{
    match kind {
        Kind::Int(form, _) => capped(form.bits as u64),
        Kind::Enum(form, _) => capped(form.bits as u64),
        Kind::Bool(form) => capped(form.bits as u64),
        Kind::Str(form) => text_size(form),
        Kind::Bin(n, open) => capped(if *open { 0 } else { *n as u64 }),
        Kind::Arr(item, n) => capped(*n as u64 * size_in(sizes, *item) as u64),
        Kind::Con(_) => capped(container as u64),
    }
}

/// The size of a text.
fn text_size(form: &TextForm) -> u32
    ensures { result ≡ capped (if form.now.fixed then 8 * form.now.length else 8) }
{
    if form.fixed {
        capped(8 * form.length as u64)
    } else {
        8
    }
}

/// The sizes of all types, from those where types are nested less deep.
fn next_sizes(alloc: Global, rows: &[TypeRow], sizes: &[u32]) -> Result<Items<u32>, Memory>
    requires { length rows.now ≤ 4096 }
    ensures { IfOk result (λ next. next ≡ next_sizes rows.now sizes.now) }
{
    let own = own_sizes(alloc, rows, sizes)?;
    let families = family_sizes(alloc, rows, own.as_slice())?;
    let mut next = Items::new(alloc);
    for id in 0..rows.len() {
        next.push(kind_size(sizes, &rows[id].kind, families[id]))?;
    }
    Ok(next)
}

/// The least sizes of all types.
pub(crate) fn sizes_of(alloc: Global, rows: &[TypeRow]) -> Result<Items<u32>, Memory>
    requires { length rows.now ≤ 4096 }
    ensures { IfOk result (λ sizes. sizes ≡ map (least_size rows.now) (numbers rows.now)) }
{
    let mut sizes = Items::from_vec(vec![in alloc; NO_SIZE; rows.len()]?);
    for _ in 0..32_usize {
        let next = next_sizes(alloc, rows, sizes.as_slice())?;
        sizes = next;
    }
    Ok(sizes)
}
