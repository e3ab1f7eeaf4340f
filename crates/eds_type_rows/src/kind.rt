//! The kinds of scalar types as rows hold them.

ghost use Rattle.std.specs.Prelude.{◌≡◌, slice_get, IfOk};
ghost use Rattle.eds_type_rows.specs.Places.{type_places};
ghost use Rattle.eds_type_rows.specs.Bases.{bases_of as bases_in};
ghost use Rattle.eds_type_rows.specs.Numbers.{numbers_of as numbers_by_id};
ghost use Rattle.eds_type_rows.specs.Kinds.{binary_kind as binary_kind_of, scalar_kind as scalar_kind_of, scalar_kind_in as scalar_kind_by, scalar_at as scalar_by_id, scalar_if as scalar_where, scalar_of as scalar_by_number};

use crate::base_graph::{BaseGraph, type_at};
use crate::element::{is_array, is_container, tree_at};
use crate::form::{bool_form_of, int_form_of};
use crate::listing::listing_of;
use crate::numbers::{FormAndDomain, form_or_wide, numbers_of, text_or_octet, truth_or_octet};
use crate::sort::{Sort, sort_of};
use crate::text_form::{binary_bits_of, is_open, text_form_of};
use eds_base::{Memory, Place};
use eds_tree::Tree;
use eds_types::Kind;
use std::alloc::Global;

// ---- by the element

/// A binary of the bits that it says, or of an octet where it says no good number.
fn binary_kind(tree: &Tree, node: u32) -> Kind
    ensures { result ≡ binary_kind_of tree.now node }
{
    let bits = binary_bits_of(tree, node).unwrap_or(8);
    Kind::Bin(bits, is_open(tree, node))
}

/// An enumerated or boolean type, a string, a binary, or a type of such numbers.
fn scalar_kind(
    alloc: Global,
    tree: &Tree,
    node: u32,
    numbers: FormAndDomain,
) -> Result<Kind, Memory>
    ensures { IfOk result (λ k. k ≡ scalar_kind_of tree.now node numbers) }
{
    match sort_of(tree.name_at(node)) {
        Some(Sort::Enumerated) => {
            let listing = listing_of(alloc, tree, node)?;
            Ok(Kind::Enum(form_or_wide(int_form_of(tree, node)), listing))
        }
        Some(Sort::Boolean) => Ok(Kind::Bool(truth_or_octet(bool_form_of(tree, node)))),
        Some(Sort::Text) => Ok(Kind::Str(text_or_octet(text_form_of(tree, node)))),
        Some(Sort::Binary) => Ok(binary_kind(tree, node)),
        _ => Ok(Kind::Int(numbers.form, numbers.spans)),
    }
}

/// The same of the type at a place.
fn scalar_kind_in(
    alloc: Global,
    trees: &[Tree],
    at: Place,
    numbers: FormAndDomain,
) -> Result<Kind, Memory>
    ensures { IfOk result (λ k. k ≡ scalar_kind_by (slice_get trees.now at.file) at.node numbers) }
{
    match tree_at(trees, at.file) {
        None => Ok(Kind::Int(numbers.form, numbers.spans)),
        Some(tree) => scalar_kind(alloc, tree, at.node, numbers),
    }
}

/// The form and the domain of a type.
fn numbers_in_table(alloc: Global, graph: &BaseGraph, id: usize) -> Result<FormAndDomain, Memory>
    ensures { IfOk result (λ n. n ≡ numbers_by_id graph.now.sheet.now.trees.now (type_places graph.now.sheet.now.space.now) (bases_in graph.now.sheet.now.trees.now graph.now.sheet.now.space.now) id) }
{
    numbers_of(alloc, graph, id)
}

// ---- by the number of the type

/// The kind of the scalar type at a place, of which the number among all types is given.
pub(crate) fn scalar_at(
    alloc: Global,
    graph: &BaseGraph,
    id: usize,
    at: Place,
) -> Result<Kind, Memory>
    ensures { IfOk result (λ k. k ≡ scalar_by_id graph.now.sheet.now.trees.now graph.now.sheet.now.space.now id at) }
{
    let numbers = numbers_in_table(alloc, graph, id)?;
    scalar_kind_in(alloc, graph.sheet.trees, at, numbers)
}

/// The same where the type is neither a container nor an array.
fn scalar_if(alloc: Global, graph: &BaseGraph, id: usize, at: Place) -> Result<Option<Kind>, Memory>
    ensures { IfOk result (λ k. k ≡ scalar_where graph.now.sheet.now.trees.now graph.now.sheet.now.space.now id at) }
{
    let trees = graph.sheet.trees;
    if is_container(trees, at) || is_array(trees, at) {
        return Ok(None);
    }
    let kind = scalar_at(alloc, graph, id, at)?;
    Ok(Some(kind))
}

/// The kind of the type of a number, if there is such a type and it is neither a container nor an array.
pub(crate) fn scalar_of(alloc: Global, graph: &BaseGraph, id: usize) -> Result<Option<Kind>, Memory>
    ensures { IfOk result (λ k. k ≡ scalar_by_number graph.now.sheet.now.trees.now graph.now.sheet.now.space.now id) }
{
    match type_at(graph, id) {
        None => Ok(None),
        Some(at) => scalar_if(alloc, graph, id, at),
    }
}
