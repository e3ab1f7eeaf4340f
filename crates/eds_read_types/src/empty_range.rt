//! The rule that an integer type or sub-range has numbers.

ghost use Rattle.std.specs.Prelude.{◌≡◌, IfOk};
ghost use Rattle.std.specs.List.{list_any};
ghost use Rattle.eds_base.specs.Refusals.{least};
ghost use Rattle.eds_type_rows.specs.Bases.{bases_within};
ghost use Rattle.eds_read_types.specs.EmptyRange.{lacks_numbers_by, lacks_numbers, range_breaks, is_empty_type as is_empty_type_of, is_faulty as is_faulty_of, is_empty_by_itself as is_empty_by_itself_of};

use crate::breaks::{PlaceRule, TypeRule, broken, refusal_where};
use eds_base::{Memory, Place, Refusal, Rule};
use eds_bits::IntForm;
use eds_domains::{Range, is_empty_domain};
use eds_tree::Tree;
use eds_type_rows::base_graph::{BaseGraph, base_at, type_at};
use eds_type_rows::element::{is_sub_range, tree_at};
use eds_type_rows::form::int_form_of;
use eds_type_rows::lacking_form::lacks_form_at;
use eds_type_rows::named_trees::NamedTrees;
use eds_type_rows::numbers::numbers_of;
use eds_type_rows::range::range_of;
use eds_type_rows::scalar_kind::is_integer;
use std::alloc::Global;

// ---- integer types

fn lacks_numbers_by(form: Option<IntForm>, range: Range) -> bool
    ensures { result ≡ lacks_numbers_by form range }
{
    form.is_some_and(|form| is_empty_domain(form, range))
}

/// Whether the range of an integer type admits no number of its form.
fn lacks_numbers(tree: &Tree, node: u32) -> bool
    ensures { result ≡ lacks_numbers tree.now node }
{
    is_integer(tree, node) && lacks_numbers_by(int_form_of(tree, node), range_of(tree, node))
}

/// Whether the range of an integer type admits no number of its form. The refusal is `EmptyRange` at the type; a type without a
/// form has none.
pub(crate) fn empty_range(tree: &Tree, at: Place) -> Option<Refusal>
    ensures { result ≡ least (range_breaks tree.now at) }
{
    refusal_where(lacks_numbers(tree, at.node), Rule::EmptyRange, at)
}

/// An integer type has numbers.
pub(crate) struct EmptyRange;

impl PlaceRule for EmptyRange {
    ghost use Rattle.eds_read_types.specs.EmptyRange.{range_breaks};
    ghost use Rattle.eds_read_types.specs.Breaks.{breaks_at};

    ghost breaks = { breaks_at range_breaks };

    fn least_at(_: Global, sheet: &NamedTrees, at: Place) -> Result<Option<Refusal>, Memory> {
        match tree_at(sheet.trees, at.file) {
            None => Ok(None),
            Some(tree) => Ok(empty_range(tree, at)),
        }
    }
}

// ---- sub-ranges

/// Whether a type has no numbers.
fn is_empty_type(alloc: Global, graph: &BaseGraph, id: usize) -> Result<bool, Memory>
    ensures { IfOk result (λ b. b ≡ is_empty_type_of graph.now.sheet.now.trees.now graph.now.sheet.now.types.now graph.now.bases.now id) }
{
    let numbers = numbers_of(alloc, graph, id)?;
    match numbers.spans.as_slice() {
        [] => Ok(true),
        [_, ..] => Ok(false),
    }
}

/// Whether a type breaks a rule on forms or numbers.
fn is_faulty(alloc: Global, graph: &BaseGraph, id: usize) -> Result<bool, Memory>
    ensures { IfOk result (λ b. b ≡ is_faulty_of graph.now.sheet.now.trees.now graph.now.sheet.now.types.now graph.now.bases.now id) }
{
    if lacks_form_at(graph.sheet.trees, type_at(graph, id)) {
        return Ok(true);
    }
    is_empty_type(alloc, graph, id)
}

/// Whether one of the first bases of a type does.
fn has_faulty_base(alloc: Global, graph: &BaseGraph, most: usize, id: usize) -> Result<bool, Memory>
    ensures { IfOk result (λ b. b ≡ list_any (is_faulty_of graph.now.sheet.now.trees.now graph.now.sheet.now.types.now graph.now.bases.now) (bases_within most graph.now.bases.now id)) }
{
    if most == 0 {
        return Ok(false);
    }
    match base_at(graph.bases, id) {
        None => Ok(false),
        Some(base) => {
            let base = base.0 as usize;
            let faulty = is_faulty(alloc, graph, base)?;
            if faulty {
                return Ok(true);
            }
            has_faulty_base(alloc, graph, most - 1, base)
        }
    }
}

/// Whether a type has no numbers, by no fault of a base.
fn is_empty_by_itself(alloc: Global, graph: &BaseGraph, id: usize) -> Result<bool, Memory>
    ensures { IfOk result (λ b. b ≡ is_empty_by_itself_of graph.now.sheet.now.trees.now graph.now.sheet.now.types.now graph.now.bases.now id) }
{
    let empty = is_empty_type(alloc, graph, id)?;
    if !empty {
        return Ok(false);
    }
    let faulty = has_faulty_base(alloc, graph, 16, id)?;
    Ok(!faulty)
}

/// A sub-range has numbers.
pub(crate) struct EmptySubRange;

impl TypeRule for EmptySubRange {
    ghost use Rattle.eds_read_types.specs.EmptyRange.{sub_range_at};

    ghost breaks = { sub_range_at };

    fn least_at(
        alloc: Global,
        graph: &BaseGraph,
        id: usize,
        at: Place,
    ) -> Result<Option<Refusal>, Memory> {
        if !is_sub_range(graph.sheet.trees, at) {
            return Ok(None);
        }
        let lost = is_empty_by_itself(alloc, graph, id)?;
        if lost {
            Ok(Some(broken(Rule::EmptyRange, at)))
        } else {
            Ok(None)
        }
    }
}
