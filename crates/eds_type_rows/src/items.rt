//! How many items arrays have.

ghost use Rattle.std.specs.Prelude.{◌≡◌, ◌+◌, ◌∷◌, ◌≤ℤ◌, length, map, option_map, slice_get, if◌then◌else◌, IfOk, IfSome, Some};
ghost use Rattle.eds_base.specs.Spans.{bottom, top};
ghost use Rattle.eds_type_rows.specs.Listings.{value as value_in};
ghost use Rattle.eds_type_rows.specs.Bases.{all_bases};
ghost use Rattle.eds_type_rows.specs.Numbers.{numbers_within};
ghost use Rattle.eds_type_rows.specs.Items.{span_size as span_size_of, set_size as set_size_of, different as different_of, values_in as values_in_tree, values_at as values_by_place, lacks_own_form as lacks_own_form_of, is_valueless as is_valueless_of, values_of as values_by_id, values_found as values_found_by, AreKnown, size_or as size_or_of, dimension_at as dimension_by, dimensions_of as dimensions_in, items_at as items_by, few as few_of, row_items as row_items_of};

use crate::base_graph::{BaseGraph, TypeTest, base_at, holds_along, meets_cycle, type_at};
use crate::element::{attribute, name_at, push_held, tree_at};
use crate::lacking_form::lacks_form_at;
use crate::listing::{add_value, listing_of};
use crate::named_trees::NamedTrees;
use crate::numbers::{FormAndDomain, narrowed_numbers, own_numbers_at, range_at};
use crate::scalar_kind::{is_boolean, is_enumerated};
use crate::text_form::natural;
use crate::type_id::id_found;
use eds_base::{Memory, Place, Span, Spans, Text, TypeId, whole_number};
use eds_tree::Tree;
use indexmap::IndexSet;
use std::alloc::Global;

/// A sheet, what its types derive from, and how many values its index types have.
#[derive(Drop)]
pub(crate) struct ValueCounts<'a> {
    pub(crate) graph: &'a BaseGraph<'a>,
    /// For each type that a dimension names how many values it has, where that is known: as many as an array may have items, or one
    /// more. What is missing is counted when it is asked for.
    pub(crate) known: &'a [Option<Option<u32>>],
    ghost counted: { AreKnown graph.now.sheet.now.trees.now graph.now.sheet.now.types.now graph.now.bases.now known.now },
}

/// A number, or 65,537 in place of every greater one.
fn few(n: u128) -> u32
    ensures { result ≡ few_of n }
{
    if n <= 65_536 { n as u32 } else { 65_537 }
}

// ---- the values of a type

/// How many numbers an interval has.
fn span_size(span: &Span) -> u32
    requires some { span.now.low ≤ℤ span.now.high }
    requires low { bottom ≤ℤ span.now.low }
    requires high { span.now.high ≤ℤ top }
    ensures { result ≡ few_of (span_size_of span.now) }
{
    few((span.high - span.low) as u128 + 1)
}

/// How many numbers a set has.
fn set_size(spans: &Spans) -> u32
    ensures { result ≡ few_of (set_size_of spans.now) }
{
    let mut size = 0;
    let mut rest = spans.as_slice();
    while let [span, after @ ..] = rest {
        size = few(size as u128 + span_size(span) as u128);
        rest = after;
    }
    size
}

/// One more, where it is a new one.
fn counted(count: u32, fresh: bool) -> u32
    ensures { result ≡ (if fresh then few_of (count + 1) else count) }
{
    if fresh { few(count as u128 + 1) } else { count }
}

/// How many different values are listed.
fn different_values(alloc: Global, entries: &[(Text, i128)]) -> Result<u32, Memory>
    ensures { IfOk result (λ n. n ≡ few_of (different_of (map value_in entries.now))) }
{
    let mut before = IndexSet::new(alloc);
    let mut count = 0;
    for entry in entries {
        let fresh = add_value(&mut before, entry.1)?;
        count = counted(count, fresh);
    }
    Ok(count)
}

fn values_in(alloc: Global, tree: &Tree, node: u32, spans: &Spans) -> Result<u32, Memory>
    ensures { IfOk result (λ n. n ≡ few_of (values_in_tree (Some tree.now) node spans.now)) }
{
    if is_enumerated(tree, node) {
        let listing = listing_of(alloc, tree, node)?;
        different_values(alloc, listing.as_slice())
    } else if is_boolean(tree, node) {
        Ok(2)
    } else {
        Ok(set_size(spans))
    }
}

/// How many values the type at a place has: labels with different numbers, truth values, or these numbers.
fn values_at(alloc: Global, trees: &[Tree], at: Option<Place>, spans: &Spans) -> Result<u32, Memory>
    ensures { IfOk result (λ n. n ≡ few_of (values_by_place trees.now at spans.now)) }
{
    let Some(at) = at else {
        return Ok(set_size(spans));
    };
    match tree_at(trees, at.file) {
        None => Ok(set_size(spans)),
        Some(tree) => values_in(alloc, tree, at.node, spans),
    }
}

/// A type and its bases, from itself up; where they go in a circle, as many as there are types.
fn chain_above(alloc: Global, bases: &[Option<TypeId>], id: usize) -> Result<Vec<usize>, Memory>
    ensures { IfOk result (λ ids. ids.items ≡ id ∷ all_bases bases.now id) }
{
    let mut chain = Vec::new(alloc);
    chain.push(id)?;
    let mut at = id;
    let mut left = bases.len();
    while left > 0 {
        match base_at(bases, at) {
            None => return Ok(chain),
            Some(base) => {
                at = base.0 as usize;
                chain.push(at)?;
            }
        }
        left -= 1;
    }
    Ok(chain)
}

/// The numbers of a type over all its bases.
fn numbers_over_bases(alloc: Global, graph: &BaseGraph, id: usize) -> Result<FormAndDomain, Memory>
    ensures { IfOk result (λ n. n ≡ numbers_within (length graph.now.bases.now) graph.now.sheet.now.trees.now graph.now.sheet.now.types.now graph.now.bases.now id) }
{
    let trees = graph.sheet.trees;
    let chain = chain_above(alloc, graph.bases, id)?;
    let mut left = chain.len() - 1;
    let mut numbers = own_numbers_at(alloc, trees, type_at(graph, chain[left]))?;
    while left > 0 {
        left -= 1;
        let range = range_at(trees, type_at(graph, chain[left]));
        numbers = narrowed_numbers(alloc, range, numbers)?;
    }
    Ok(numbers)
}

/// A type has no form of its own.
struct Formless;

impl TypeTest for Formless {
    ghost holds = { lacks_own_form_of };

    fn holds(graph: &BaseGraph, id: usize) -> bool {
        lacks_form_at(graph.sheet.trees, type_at(graph, id))
    }
}

/// Whether a type or one of its bases is its own base, or has no form.
fn is_valueless(graph: &BaseGraph, id: usize) -> bool
    ensures { result ≡ is_valueless_of graph.now.sheet.now.trees.now graph.now.sheet.now.types.now graph.now.bases.now id }
{
    meets_cycle(graph, id) || holds_along::<Formless>(graph, id)
}

/// How many values a type has, where that is known.
fn values_of(alloc: Global, graph: &BaseGraph, id: usize) -> Result<Option<u32>, Memory>
    ensures { IfOk result (λ n. n ≡ option_map few_of (values_by_id graph.now.sheet.now.trees.now graph.now.sheet.now.types.now graph.now.bases.now id)) }
{
    if is_valueless(graph, id) {
        return Ok(None);
    }
    let numbers = numbers_over_bases(alloc, graph, id)?;
    let values = values_at(alloc, graph.sheet.trees, type_at(graph, id), &numbers.spans)?;
    Ok(Some(values))
}

/// A mark for each type, none of them set.
pub(crate) fn no_marks(alloc: Global, sheet: &NamedTrees) -> Result<Vec<bool>, Memory> {
    let mut marks = Vec::new(alloc);
    for _ in sheet.types {
        marks.push(false)?;
    }
    Ok(marks)
}

/// For each type whether a dimension names it.
fn are_named(alloc: Global, sheet: &NamedTrees) -> Result<Vec<bool>, Memory> {
    let mut named = no_marks(alloc, sheet)?;
    for at in sheet.elements {
        if name_at(sheet.trees, *at) == "Dimension" {
            let index = id_found(
                alloc,
                sheet,
                *at,
                attribute(sheet.trees, "indexTypeRef", *at),
            )?;
            mark(&mut named, index);
        }
    }
    Ok(named)
}

/// Sets the mark of a type, where there is such a type.
pub(crate) fn mark(flags: &mut [bool], id: Option<TypeId>) {
    let Some(id) = id else {
        return;
    };
    if let Some(flag) = flags.get_mut(id.0 as usize) {
        *flag = true;
    }
}

/// How many values a type has, where that is asked for.
fn values_if(
    alloc: Global,
    graph: &BaseGraph,
    asked: bool,
    id: usize,
) -> Result<Option<Option<u32>>, Memory>
    ensures { IfOk result (λ n. IfSome n (λ m. m ≡ option_map few_of (values_by_id graph.now.sheet.now.trees.now graph.now.sheet.now.types.now graph.now.bases.now id))) }
{
    if !asked {
        return Ok(None);
    }
    let values = values_of(alloc, graph, id)?;
    Ok(Some(values))
}

/// The same for each type that a dimension names.
pub(crate) fn value_counts(
    alloc: Global,
    graph: &BaseGraph,
) -> Result<Vec<Option<Option<u32>>>, Memory>
    ensures { IfOk result (λ k. AreKnown graph.now.sheet.now.trees.now graph.now.sheet.now.types.now graph.now.bases.now k.items) }
{
    let named = are_named(alloc, graph.sheet)?;
    let mut known = Vec::new(alloc);
    for id in 0..named.len() {
        let values = values_if(alloc, graph, named[id], id)?;
        known.push(values)?;
    }
    Ok(known)
}

fn known_at(known: &[Option<Option<u32>>], id: usize) -> Option<Option<u32>>
    ensures { IfSome result (λ n. slice_get known.now id ≡ Some (Some n)) }
{
    *known.get(id)?
}

/// How many values the type of a number has.
fn count_at(alloc: Global, first: &ValueCounts, id: usize) -> Result<Option<u32>, Memory>
    ensures { IfOk result (λ n. n ≡ option_map few_of (values_by_id first.now.graph.now.sheet.now.trees.now first.now.graph.now.sheet.now.types.now first.now.graph.now.bases.now id)) }
{
    match known_at(first.known, id) {
        Some(values) => Ok(values),
        None => values_of(alloc, first.graph, id),
    }
}

// ---- dimensions

/// How many values the type has that a reference finds.
fn count_found(
    alloc: Global,
    first: &ValueCounts,
    id: Option<TypeId>,
) -> Result<Option<u32>, Memory>
    ensures { IfOk result (λ n. n ≡ option_map few_of (values_found_by first.now.graph.now.sheet.now.trees.now first.now.graph.now.sheet.now.space.now id)) }
{
    match id {
        None => Ok(None),
        Some(id) => count_at(alloc, first, id.0 as usize),
    }
}

fn size_or(other: Option<u32>, text: Option<&str>) -> Option<u32>
    ensures { result ≡ option_map few_of (size_or_of other (option_map (λ t. t.now) text.entry)) }
{
    match text {
        None => Some(few(other? as u128)),
        Some(text) => Some(few(natural(whole_number(text)?)?)),
    }
}

/// The size of a dimension.
fn dimension_at(alloc: Global, first: &ValueCounts, at: Place) -> Result<Option<u32>, Memory>
    ensures { IfOk result (λ n. n ≡ option_map few_of (dimension_by first.now.graph.now.sheet.now.trees.now first.now.graph.now.sheet.now.space.now at)) }
{
    let sheet = first.graph.sheet;
    let index = id_found(alloc, sheet, at, attribute(sheet.trees, "indexTypeRef", at))?;
    let values = count_found(alloc, first, index)?;
    Ok(size_or(values, attribute(sheet.trees, "size", at)))
}

/// The dimensions of an array, in document order.
fn dimensions_of(alloc: Global, trees: &[Tree], at: Place) -> Result<Vec<Place>, Memory>
    ensures { IfOk result (λ d. d.items ≡ dimensions_in trees.now at) }
{
    let mut lists = Vec::new(alloc);
    push_held(&mut lists, trees, "DimensionList", at)?;
    let mut dimensions = Vec::new(alloc);
    for list in &lists {
        push_held(&mut dimensions, trees, "Dimension", *list)?;
    }
    Ok(dimensions)
}

/// How many items an array has, where the sizes of all its dimensions are known.
pub(crate) fn items_at(alloc: Global, first: &ValueCounts, at: Place) -> Result<Option<u32>, Memory>
    ensures { IfOk result (λ n. n ≡ option_map few_of (items_by first.now.graph.now.sheet.now.trees.now first.now.graph.now.sheet.now.space.now at)) }
{
    let dimensions = dimensions_of(alloc, first.graph.sheet.trees, at)?;
    let mut items = 1;
    for dimension in &dimensions {
        let size = dimension_at(alloc, first, *dimension)?;
        match size {
            None => return Ok(None),
            Some(size) => items = few(items as u128 * size as u128),
        }
    }
    Ok(Some(items))
}

/// The number of items as a row holds it.
pub(crate) fn row_items(items: Option<u32>) -> u32
    ensures { result ≡ row_items_of items }
{
    match items {
        None => 1,
        Some(items) => few(items as u128).max(1),
    }
}
