//! Templates: containers all of whose parts are scalars and texts of fixed size, which so stand at fixed places.

ghost use Rattle.std.specs.Prelude.{◌≡◌, ◌==◌, ◌&&◌, ◌^◌, ◌≤◌, ◌++◌, Some, nat_abs, true, IfOk, IfSome, OnOk};
ghost use Rattle.eds_types.specs.Fields.{part_at};
ghost use Rattle.eds_types.specs.Rows.{Table, family, is_concrete};
ghost use Rattle.eds_unpack.specs.Straight.{is_only};
ghost use Rattle.eds_unpack.specs.Segments.{IsOperation};
ghost use Rattle.eds_unpack.specs.Templates.{AreKeys, AreTemplateParts, AreTemplates, IsSmall, IsOfType, IsPartAt, IsTemplateOf, IsTemplatePart, begin_of, kept, role_of, size_of, use_of};

use crate::operations::operation_of_type;
use crate::segment::Operation;
use crate::selector::Selector;
use crate::straight::is_only;
use eds_base::{Memory, TypeId};
use eds_bits::{CheckKind, TextForm};
use eds_types::{Chain, Kind, Part, TypeTable};
use std::alloc::Global;

/// What is done with the value of a part.
#[derive(Clone, Copy)]
pub(crate) enum Role {
    /// It is the value of a field.
    Field,
    /// It tells how many octets the container has: so many, and so many for each that it counts.
    Length(i64, i64),
    /// It is the check of the bits before it.
    Check(CheckKind),
}

/// An entry of a text of fixed size that begins with an octet: its type, that octet of the container, and the form of the text.
#[derive(Clone, Copy)]
pub(crate) struct TextPart {
    pub id: TypeId,
    pub first: u32,
    pub form: TextForm,
}

/// A part at a fixed place.
#[derive(Clone, Copy)]
pub(crate) enum TemplatePart {
    /// A scalar, and what is done with its value.
    Scalar(Operation, Role),
    /// A text, which is the value of a field.
    Text(TextPart),
}

impl TemplatePart {
    /// How many bits it has.
    fn bits(&self) -> u32
        ensures { result ≡ size_of self.now }
    {
        match self {
            TemplatePart::Scalar(operation, _) => operation.bits,
            TemplatePart::Text(text) => 8 * text.form.length,
        }
    }

    /// What is done with its value.
    fn role(&self) -> Role
        ensures { result ≡ use_of self.now }
    {
        match self {
            TemplatePart::Scalar(_, role) => *role,
            TemplatePart::Text(_) => Role::Field,
        }
    }

    /// The operation of a scalar.
    fn operation(&self) -> Option<Operation>
        ensures { (t : Table) → IsOfType t self.now → IfSome result (IsOperation t) }
    {
        match self {
            TemplatePart::Scalar(operation, _) => Some(*operation),
            TemplatePart::Text(_) => None,
        }
    }
}

/// A container from which no other one derives: its chain, all parts in the order of their bits, where those of them stand that
/// are fields, and how many bits all have.
#[derive(Drop)]
pub(crate) struct Template {
    pub chain: Chain,
    pub parts: Vec<TemplatePart>,
    pub places: Vec<(TypeId, u16)>,
    pub bits: u32,
}

/// The most parts that a container with a template has.
const MOST_PARTS: usize = 1024;

/// The most parts that all templates of a table have, those that are tried in vain among them: many containers may derive from one
/// of many parts.
const MOST_IN_ALL: usize = 65_536;

/// The most bits that a container with a template has, which are the most that a value has.
const MOST_BITS: u32 = 524_288;

/// Whether a number by which a length entry tells octets is small.
fn is_near(number: i64) -> bool
    ensures { result ≡ true → nat_abs number ≤ 2 ^ 32 }
{
    number.unsigned_abs() <= 1 << 32
}

/// What is done with the value of a part, where a template can do it.
fn role_of(part: &Part) -> Option<Role>
    ensures role { IfSome result (λ r. role_of part.now ≡ Some r) }
    ensures near { IfSome result IsSmall }
{
    match part {
        Part::Plain(..) => Some(Role::Field),
        Part::Length(_, _, c0, c1) if is_near(*c0) && is_near(*c1) => Some(Role::Length(*c0, *c1)),
        Part::Check(_, _, kind) => Some(Role::Check(*kind)),
        _ => None,
    }
}

/// The part of a template that is an entry, from one bit on, if that is a text of fixed size and begins with an octet.
fn text_part(table: &TypeTable, at: u32, part: &Part) -> Option<TemplatePart>
    ensures place { IfSome result (λ x. begin_of x ≡ at) }
    ensures few { IfSome result (λ x. size_of x ≤ MOST_BITS) }
    ensures is { IfSome result (IsTemplatePart table.now part.now) }
{
    let Part::Plain(_, id) = part else {
        return None;
    };
    if at % 8 != 0 || id.0 >= table.len() {
        return None;
    }
    match &table.row(*id).kind {
        Kind::Str(form) if form.fixed => Some(TemplatePart::Text(TextPart {
            id: *id,
            first: at / 8,
            form: *form,
        })),
        _ => None,
    }
}

/// The part of a template, from one bit on, that is a part of a container, if that is a scalar and eight octets hold it, or such
/// a text.
fn template_part(table: &TypeTable, at: u32, part: &Part) -> Option<TemplatePart>
    requires { at ≤ 2 ^ 24 }
    ensures place { IfSome result (λ x. begin_of x ≡ at) }
    ensures few { IfSome result (λ x. size_of x ≤ MOST_BITS) }
    ensures is { IfSome result (IsTemplatePart table.now part.now) }
{
    let role = role_of(part)?;
    match operation_of_type(table, at, part.type_id()?) {
        Some(operation) => Some(TemplatePart::Scalar(operation, role)),
        None => text_part(table, at, part),
    }
}

/// The same of the part at a place, if it is there.
fn template_part_at(table: &TypeTable, at: u32, place: (TypeId, u16)) -> Option<TemplatePart>
    requires { at ≤ 2 ^ 24 }
    ensures place { IfSome result (λ x. begin_of x ≡ at) }
    ensures few { IfSome result (λ x. size_of x ≤ MOST_BITS) }
    ensures is { IfSome result (IsPartAt table.now (part_at table.now place)) }
{
    template_part(table, at, table.part_at(place.0, place.1)?)
}

/// Puts where a part stands last, if it is a field.
fn put_place(
    places: &mut Vec<(TypeId, u16)>,
    role: Role,
    place: (TypeId, u16),
) -> Result<(), Memory>
    ensures { OnOk result (places.new.items ≡ places.old.items ++ kept role place) }
{
    match role {
        Role::Field => Ok(places.push(place)?),
        Role::Length(..) | Role::Check(_) => Ok(()),
    }
}

/// A template of a chain with the parts at some places, if each of them is a scalar that eight octets hold, or a text of fixed size
/// that begins with an octet, and they have no more bits than a value has.
fn template_by(
    alloc: Global,
    table: &TypeTable,
    chain: Chain,
    all: &[(TypeId, u16)],
) -> Result<Option<Template>, Memory>
    ensures chain { IfOk result (λ o. IfSome o (λ m. m.chain ≡ chain)) }
    ensures parts { IfOk result (λ o. IfSome o (λ m. AreTemplateParts table.now 0 m.bits all.now m.parts.items m.places.items)) }
{
    let mut parts = Vec::with_capacity(alloc, all.len())?;
    let mut places = Vec::with_capacity(alloc, all.len())?;
    let mut bits = 0;
    for place in all {
        let Some(part) = template_part_at(table, bits, *place) else {
            return Ok(None);
        };
        put_place(&mut places, part.role(), *place)?;
        bits += part.bits();
        if bits > MOST_BITS {
            return Ok(None);
        }
        parts.push(part)?;
    }
    Ok(Some(Template {
        chain,
        parts,
        places,
        bits,
    }))
}

/// How many parts a chain of containers has, as far as numbers of a word go.
fn parts_along(table: &TypeTable, chain: &[TypeId]) -> usize {
    let mut count = 0usize;
    for id in chain {
        let own = table.entries_of(*id).len() + table.trailers_of(*id).len();
        count = count.saturating_add(own);
    }
    count
}

/// Whether a container is concrete and no other one derives from it.
fn is_last(table: &TypeTable, id: TypeId) -> bool
    ensures concrete { result ≡ true → is_concrete table.now id.0 ≡ true }
    ensures last { result ≡ true → is_only id.0 (family table.now id.0) ≡ true }
{
    table.is_concrete(id) && is_only(id, table.family_of(id))
}

/// How many parts a template of a container would have. None, where it is abstract, others derive from it, or it has too many.
fn parts_to_try(table: &TypeTable, id: TypeId) -> Option<usize> {
    if !is_last(table, id) {
        return None;
    }
    let count = parts_along(table, table.chain_of(id).as_slice());
    if count <= MOST_PARTS {
        Some(count)
    } else {
        None
    }
}

/// The template of a container, if it has one.
fn template_of(alloc: Global, table: &TypeTable, id: TypeId) -> Result<Option<Template>, Memory>
    ensures { IfOk result (λ o. IfSome o (IsTemplateOf table.now id.0)) }
{
    if !is_last(table, id) {
        return Ok(None);
    }
    let all = table.sequence_of(alloc, id)?;
    if all.len() > MOST_PARTS {
        return Ok(None);
    }
    template_by(alloc, table, table.chain_of(id), all.as_slice())
}

/// The template of a container, if it has one, and is tried: where it would have no more parts than are left, which it takes.
fn template_within(
    alloc: Global,
    table: &TypeTable,
    id: TypeId,
    left: &mut usize,
) -> Result<Option<Template>, Memory>
    ensures { IfOk result (λ o. IfSome o (IsTemplateOf table.now id.0)) }
{
    match parts_to_try(table, id) {
        Some(count) if count <= *left => {
            *left -= count;
            template_of(alloc, table, id)
        }
        _ => Ok(None),
    }
}

/// The templates of the containers of a table, each at the number of its container; not every one has one.
pub(crate) fn templates_of_all(
    alloc: Global,
    table: &TypeTable,
) -> Result<Vec<Option<Template>>, Memory>
    ensures { IfOk result (λ each. AreTemplates table.now each.items) }
{
    let mut each = Vec::with_capacity(alloc, table.len() as usize)?;
    let mut left = MOST_IN_ALL;
    for number in 0..table.len() {
        let template = template_within(alloc, table, TypeId(number), &mut left)?;
        each.push(template)?;
    }
    Ok(each)
}

// ---- keys

/// Whether a place is where a step leads.
pub(crate) fn is_step(place: (TypeId, u16), step: (TypeId, u16)) -> bool
    ensures { result ≡ ((place.0).0 == (step.0).0 && place.1 == step.1) }
{
    place.0.0 == step.0.0 && place.1 == step.1
}

/// How far behind a container's first bit the entry of a key ends at most, in bits.
const FAR: u32 = 1024;

/// The operation of the entry to which a step leads, if it is a scalar and all entries of some containers before it are parts of
/// templates.
fn entry_operation(
    table: &TypeTable,
    containers: &[TypeId],
    step: (TypeId, u16),
) -> Option<Operation>
    ensures { IfSome result (IsOperation table.now) }
{
    let mut bits = 0;
    for id in containers {
        let mut place = 0;
        for part in table.entries_of(*id) {
            let part = template_part(table, bits, part)?;
            if is_step((*id, place), step) {
                return part.operation();
            }
            bits += part.bits();
            if bits > FAR {
                return None;
            }
            place += 1;
        }
    }
    None
}

/// The operation of the entry on a selector's path, if it stands at a fixed place.
fn key_of(table: &TypeTable, id: TypeId, selector: Option<&Selector>) -> Option<Operation>
    ensures { IfSome result (IsOperation table.now) }
{
    match selector?.path.as_slice() {
        [step] => entry_operation(table, table.chain_of(id).as_slice(), *step),
        _ => None,
    }
}

/// The operations of the entries by whose numbers selectors choose, each at the number of the selector's container; not every
/// one has one.
pub(crate) fn keys_of_all(
    alloc: Global,
    table: &TypeTable,
    selectors: &[Option<Selector>],
) -> Result<Vec<Option<Operation>>, Memory>
    ensures { IfOk result (λ each. AreKeys table.now each.items) }
{
    let mut each = Vec::with_capacity(alloc, selectors.len())?;
    let mut number = 0;
    for selector in selectors {
        each.push(key_of(table, TypeId(number), selector.as_ref()))?;
        number = number.checked_add(1).ok_or(Memory)?;
    }
    Ok(each)
}
