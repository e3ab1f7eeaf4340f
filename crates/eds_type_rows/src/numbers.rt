//! The numbers of integer types and sub-ranges.

ghost use Rattle.std.specs.Prelude.{◌≡◌, IfOk, option_map};
ghost use Rattle.eds_type_rows.specs.Numbers.{form_or_wide as form_or_wide_of, truth_or_octet as truth_or_octet_of, text_or_octet as text_or_octet_of, numbers_with as numbers_by_form, own_numbers as own_numbers_of, own_numbers_at as own_numbers_in, range_at as range_in_tree, narrowed_numbers, all_numbers, numbers_within as numbers_up, numbers_of as numbers_by_id};

use crate::base_graph::{BaseGraph, base_at, type_at};
use crate::element::tree_at;
use crate::form::int_form_of;
use crate::range::range_of;
use crate::scalar_kind::is_integer;
use eds_base::{Memory, Place, Spans};
use eds_bits::{BoolForm, ByteOrder, Encoding, IntForm, TextForm};
use eds_domains::{NO_RANGE, Range, domain_of, narrowed};
use eds_tree::Tree;
use std::alloc::Global;

/// The form of an integer type or sub-range, and its domain.
#[derive(Drop)]
pub struct FormAndDomain {
    pub form: IntForm,
    pub spans: Spans,
}

/// 64 bits in two's complement.
const WIDE: IntForm = IntForm {
    bits: 64,
    encoding: Encoding::TwosComplement,
    order: ByteOrder::Big,
};

/// A form, or the wide one where there is none.
pub(crate) fn form_or_wide(form: Option<IntForm>) -> IntForm
    ensures { result ≡ form_or_wide_of form }
{
    form.unwrap_or(WIDE)
}

/// The form of a truth value, or 8 bits of which zero is false.
pub(crate) fn truth_or_octet(form: Option<BoolForm>) -> BoolForm
    ensures { result ≡ truth_or_octet_of form }
{
    form.unwrap_or(BoolForm {
        bits: 8,
        zero_is_false: true,
    })
}

/// The form of a string, or one octet where there is none.
pub(crate) fn text_or_octet(form: Option<TextForm>) -> TextForm
    ensures { result ≡ text_or_octet_of form }
{
    form.unwrap_or(TextForm {
        length: 1,
        fixed: true,
        ascii: false,
        stop: 0,
    })
}

/// The numbers of a form that a range admits.
fn numbers_with(alloc: Global, form: IntForm, range: Range) -> Result<FormAndDomain, Memory>
    ensures { IfOk result (λ n. n ≡ numbers_by_form form range) }
{
    let spans = domain_of(alloc, form, range)?;
    Ok(FormAndDomain { form, spans })
}

/// All numbers of the wide form.
fn all_numbers(alloc: Global) -> Result<FormAndDomain, Memory>
    ensures { IfOk result (λ n. n ≡ all_numbers) }
{
    numbers_with(alloc, form_or_wide(None), NO_RANGE)
}

/// The numbers of an integer type.
fn own_numbers(alloc: Global, tree: &Tree, node: u32) -> Result<FormAndDomain, Memory>
    ensures { IfOk result (λ n. n ≡ own_numbers_of tree.now node) }
{
    if is_integer(tree, node) {
        numbers_with(
            alloc,
            form_or_wide(int_form_of(tree, node)),
            range_of(tree, node),
        )
    } else {
        all_numbers(alloc)
    }
}

/// The numbers of the integer type at a place.
pub(crate) fn own_numbers_at(
    alloc: Global,
    trees: &[Tree],
    at: Option<Place>,
) -> Result<FormAndDomain, Memory>
    ensures { IfOk result (λ n. n ≡ own_numbers_in trees.now at) }
{
    let at = match at {
        None => return all_numbers(alloc),
        Some(at) => at,
    };
    match tree_at(trees, at.file) {
        None => all_numbers(alloc),
        Some(tree) => own_numbers(alloc, tree, at.node),
    }
}

/// The range of the type at a place.
pub(crate) fn range_at(trees: &[Tree], at: Option<Place>) -> Range
    ensures { result ≡ range_in_tree trees.now at }
{
    let Some(at) = at else {
        return NO_RANGE;
    };
    match tree_at(trees, at.file) {
        None => NO_RANGE,
        Some(tree) => range_of(tree, at.node),
    }
}

/// The numbers of a sub-range, from those of its base.
pub(crate) fn narrowed_numbers(
    alloc: Global,
    range: Range,
    base: FormAndDomain,
) -> Result<FormAndDomain, Memory>
    ensures { IfOk result (λ n. n ≡ narrowed_numbers range base) }
{
    let spans = narrowed(alloc, &base.spans, range)?;
    Ok(FormAndDomain {
        form: base.form,
        spans,
    })
}

/// The numbers of a type over at most so many bases.
#[tactic(auto, unfolding(crate::specs::Numbers::numbers_within))]
fn numbers_within(
    alloc: Global,
    graph: &BaseGraph,
    most: u32,
    id: usize,
) -> Result<FormAndDomain, Memory>
    ensures { IfOk result (λ n. n ≡ numbers_up most graph.now.sheet.now.trees.now graph.now.sheet.now.types.now graph.now.bases.now id) }
{
    let trees = graph.sheet.trees;
    let at = type_at(graph, id);
    if most == 0 {
        return own_numbers_at(alloc, trees, at);
    }
    match base_at(graph.bases, id) {
        None => own_numbers_at(alloc, trees, at),
        Some(base) => {
            let base = numbers_within(alloc, graph, most - 1, base.0 as usize)?;
            narrowed_numbers(alloc, range_at(trees, at), base)
        }
    }
}

/// The form and the domain of a type: its own, or those of its base that its range admits.
pub fn numbers_of(alloc: Global, graph: &BaseGraph, id: usize) -> Result<FormAndDomain, Memory>
    ensures { IfOk result (λ n. n ≡ numbers_by_id graph.now.sheet.now.trees.now graph.now.sheet.now.types.now graph.now.bases.now id) }
{
    numbers_within(alloc, graph, 16, id)
}
