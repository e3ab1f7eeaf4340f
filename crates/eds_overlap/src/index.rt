//! An index of the containers that may overlap, by the numbers that tell them apart.

ghost use Rattle.std.specs.Prelude.{◌≡◌, ◌++◌, ◌∷◌, ◌+◌, [], ℕ, List, length, option_map, string_bytes, bytes_eq, if◌then◌else◌, IfOk, OnOk};
ghost use Rattle.eds_overlap.specs.Index.{AreListed, all_key as text_of_all, family as last_base, free_key as text_of_free, held_key as text_of_held, listed as listed_under, lone as lone_of, lone_in as lone_in_span, lone_on as lone_on_path, mark as mark_that_is, marks_on, model_of as model_that_is, numbers_text as text_of_numbers, own_key as text_of_own, sets_of as sets_that_are};

use crate::sets::SetsByPath;
use eds_base::{Items, Memory, Span, Spans, TypeId};
use eds_types::{PathSet, TypeTable};
use std::alloc::Global;
use std::collections::BTreeMap;

/// Types by the texts under which they are listed.
pub(crate) type Places = BTreeMap<String, Items<TypeId>>;

// ---- lone numbers

// The number of an interval that has no other one.
fn lone_in(span: &Span) -> Option<i128>
    ensures { result ≡ lone_in_span span.now }
{
    if span.low == span.high {
        Some(span.low)
    } else {
        None
    }
}

// The number of a set that has no other one.
fn lone(set: &Spans) -> Option<i128>
    ensures { result ≡ lone_of set.now }
{
    match set.as_slice() {
        [] => None,
        [span] => lone_in(span),
        [_, _, ..] => None,
    }
}

// The number to which the sets of a type hold a path.
fn lone_on(sets: &[SetsByPath], id: TypeId, path: &[(TypeId, u16)]) -> Option<i128>
    ensures { result ≡ lone_on_path (sets_that_are sets.now id.0) path.now }
{
    lone(sets.get(id.0 as usize)?.find(path)?)
}

// The numbers to which the sets of a type hold those paths that a model's sets hold to one number. None where they leave one
// free.
fn numbers_on(
    alloc: Global,
    model: &[PathSet],
    sets: &[SetsByPath],
    id: TypeId,
) -> Result<Option<Items<i128>>, Memory>
    ensures { IfOk result (λ numbers. numbers ≡ marks_on model.now (sets_that_are sets.now id.0)) }
{
    let mut numbers = Items::new(alloc);
    for one in model {
        if lone(&one.set).is_some() {
            let Some(number) = lone_on(sets, id, one.path.as_slice()) else {
                return Ok(None);
            };
            numbers.push(number)?;
        }
    }
    Ok(Some(numbers))
}

// ---- families

/// The last base of a type, which names its family.
pub(crate) fn family_of(table: &TypeTable, id: TypeId) -> TypeId
    ensures { result ≡ last_base table.now id.0 }
{
    let chain = table.chain_of(id);
    match chain.as_slice() {
        [root, ..] => *root,
        [] => id,
    }
}

/// The sets of a type.
pub(crate) fn sets_of(sets: &[SetsByPath], id: TypeId) -> &[PathSet]
    ensures { result.now ≡ sets_that_are sets.now id.0 }
{
    match sets.get(id.0 as usize) {
        Some(own) => own.as_slice(),
        None => &[],
    }
}

// How many paths the sets of a type hold to one number.
fn count_held(sets: &[PathSet]) -> usize {
    let mut count = 0usize;
    for one in sets {
        if count < usize::MAX && lone(&one.set).is_some() {
            count += 1;
        }
    }
    count
}

// Each type by itself.
fn all_types(alloc: Global, table: &TypeTable) -> Result<Vec<TypeId>, Memory> {
    let mut types = Vec::new(alloc);
    for id in 0..table.len() {
        types.push(TypeId(id))?;
    }
    Ok(types)
}

/// For each family, at its last base, the type whose sets hold the most paths to one number, and of several the first. Any
/// other type would do as well: it decides how many containers are told apart.
pub(crate) fn models_of(
    alloc: Global,
    table: &TypeTable,
    sets: &[SetsByPath],
) -> Result<Vec<TypeId>, Memory> {
    let mut models = all_types(alloc, table)?;
    for id in 0..table.len() {
        let family = family_of(table, TypeId(id)).0 as usize;
        if family < models.len() {
            let model = models[family];
            if count_held(sets_of(sets, model)) < count_held(sets_of(sets, TypeId(id))) {
                models[family] = TypeId(id);
            }
        }
    }
    Ok(models)
}

// The model of a family.
fn model_of(models: &[TypeId], family: TypeId) -> TypeId
    ensures { result ≡ model_that_is models.now family }
{
    match models.get(family.0 as usize) {
        Some(model) => *model,
        None => family,
    }
}

/// The numbers of a type by the model of its family. None where its sets leave a path free that those of the model hold to one
/// number.
pub(crate) fn mark_of(
    alloc: Global,
    table: &TypeTable,
    sets: &[SetsByPath],
    models: &[TypeId],
    id: TypeId,
) -> Result<Option<Items<i128>>, Memory>
    ensures { IfOk result (λ numbers. numbers ≡ mark_that_is table.now sets.now models.now id.0) }
{
    let model = model_of(models, family_of(table, id));
    numbers_on(alloc, sets_of(sets, model), sets, id)
}

// ---- texts

// ` NUMBER` for each.
fn numbers_text(alloc: Global, numbers: &[i128]) -> Result<String, Memory>
    ensures { IfOk result (λ s. string_bytes s ≡ text_of_numbers numbers.now) }
{
    let mut text = String::new(alloc);
    for one in numbers {
        let number = *one;
        let part = format!(in alloc; " {number}")?;
        text.push_str(part.as_str())?;
    }
    Ok(text)
}

/// The text under which all containers of a family are listed.
pub(crate) fn all_key(alloc: Global, family: TypeId) -> Result<String, Memory>
    ensures { IfOk result (λ s. string_bytes s ≡ text_of_all family) }
{
    let number = family.0;
    Ok(format!(in alloc; "{number} all")?)
}

/// The text under which the containers of a family are listed that have no mark.
pub(crate) fn free_key(alloc: Global, family: TypeId) -> Result<String, Memory>
    ensures { IfOk result (λ s. string_bytes s ≡ text_of_free family) }
{
    let number = family.0;
    Ok(format!(in alloc; "{number} free")?)
}

/// The text under which the containers of a family with these numbers are listed.
pub(crate) fn held_key(alloc: Global, family: TypeId, numbers: &[i128]) -> Result<String, Memory>
    ensures { IfOk result (λ s. string_bytes s ≡ text_of_held family numbers.now) }
{
    let number = family.0;
    let mut key = format!(in alloc; "{number} held")?;
    let numbers = numbers_text(alloc, numbers)?;
    key.push_str(numbers.as_str())?;
    Ok(key)
}

// The text under which a container is listed by its mark.
fn own_key(alloc: Global, family: TypeId, mark: &Option<Items<i128>>) -> Result<String, Memory>
    ensures { IfOk result (λ s. string_bytes s ≡ text_of_own family mark.now) }
{
    match mark {
        Some(numbers) => held_key(alloc, family, numbers.as_slice()),
        None => free_key(alloc, family),
    }
}

// ---- lists

/// The types that are listed under a text.
pub(crate) fn listed<'a>(places: &'a Places, key: &str) -> &'a [TypeId]
    ensures { result.now ≡ listed_under places.now key.now }
{
    match places.get(key) {
        Some(ids) => ids.as_slice(),
        None => &[],
    }
}

// Puts a type behind those that are listed under a text.
fn note(alloc: Global, places: &mut Places, key: String, id: TypeId) -> Result<(), Memory>
    ensures { OnOk result ((q : List ℕ) → listed_under places.new q ≡ (if bytes_eq q (string_bytes key) then listed_under places.old q ++ id ∷ [] else listed_under places.old q)) }
{
    let mut ids = match places.remove(key.as_str()) {
        Some(ids) => ids,
        None => Items::new(alloc),
    };
    ids.push(id)?;
    places.insert(key, ids)?;
    Ok(())
}

// Lists a type in its family and by its mark, if it is a concrete container.
fn place(
    alloc: Global,
    table: &TypeTable,
    sets: &[SetsByPath],
    models: &[TypeId],
    id: TypeId,
    places: &mut Places,
) -> Result<(), Memory>
    requires { AreListed table.now sets.now models.now id.0 places.old }
    ensures { OnOk result (AreListed table.now sets.now models.now (id.0 + 1) places.new) }
{
    if !table.is_concrete(id) {
        return Ok(());
    }
    let family = family_of(table, id);
    let mark = mark_of(alloc, table, sets, models, id)?;
    note(alloc, places, all_key(alloc, family)?, id)?;
    note(alloc, places, own_key(alloc, family, &mark)?, id)?;
    Ok(())
}

/// All concrete containers, listed.
pub(crate) fn place_all(
    alloc: Global,
    table: &TypeTable,
    sets: &[SetsByPath],
    models: &[TypeId],
) -> Result<Places, Memory>
    ensures { IfOk result (λ places. AreListed table.now sets.now models.now (length table.now) places) }
{
    let mut places = BTreeMap::new(alloc);
    for id in 0..table.len() {
        place(alloc, table, sets, models, TypeId(id), &mut places)?;
    }
    Ok(places)
}
