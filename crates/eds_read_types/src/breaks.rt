//! One rule over some places of a sheet, or over its types.

ghost use Rattle.std.specs.Prelude.{◌≡◌, List, Option, ℕ, IfOk};
ghost use Rattle.std.specs.List.{flat_map};
ghost use Rattle.eds_base.specs.declared.ids.Place.{Place as place};
ghost use Rattle.eds_base.specs.declared.ids.TypeId.{TypeId as type_id};
ghost use Rattle.eds_base.specs.declared.refusal.Refusal.{Refusal as refusal};
ghost use Rattle.eds_base.specs.Refusals.{least};
ghost use Rattle.eds_tree.specs.declared.tree.Node.{Node as node};
ghost use Rattle.eds_names.specs.LookUp.{Names};
ghost use Rattle.eds_read_types.specs.Breaks.{broken_with as broken_keeping, broken as broken_bare, broken_where, breaks_over};

use eds_base::{Kept, Memory, Place, Refusal, Rule, Text};
use eds_type_rows::base_graph::BaseGraph;
use eds_type_rows::named_trees::NamedTrees;
use std::alloc::Global;

/// A rule that is judged at one element or one type at a time, by its place.
pub(crate) trait PlaceRule {
    /// All that breaks it at one place of a sheet, of which the trees and the names are given.
    ghost breaks: { List (List node) → Names → place → List refusal };

    /// The least of them.
    fn least_at(alloc: Global, sheet: &NamedTrees, at: Place) -> Result<Option<Refusal>, Memory>
        ensures { IfOk result (λ r. r ≡ least (breaks sheet.now.trees.now sheet.now.space.now at)) };
}

/// The least break of a rule at some places.
pub(crate) fn least_over<R: PlaceRule>(
    alloc: Global,
    sheet: &NamedTrees,
    places: &[Place],
) -> Result<Option<Refusal>, Memory>
    ensures { IfOk result (λ r. r ≡ least (flat_map (R.breaks sheet.now.trees.now sheet.now.space.now) places.now)) }
{
    let mut found = None;
    for at in places {
        let here = R::least_at(alloc, sheet, *at)?;
        found = Refusal::first(found, here);
    }
    Ok(found)
}

/// A rule that is judged at one type at a time, by its number and its place.
pub(crate) trait TypeRule {
    /// All that breaks it at a type, of which the trees, the places and the bases of all types are given.
    ghost breaks: { List (List node) → List place → List (Option type_id) → ℕ → place → List refusal };

    /// The least of them.
    fn least_at(
        alloc: Global,
        graph: &BaseGraph,
        id: usize,
        at: Place,
    ) -> Result<Option<Refusal>, Memory>
        ensures { IfOk result (λ r. r ≡ least (breaks graph.now.sheet.now.trees.now graph.now.sheet.now.types.now graph.now.bases.now id at)) };
}

/// The least break of a rule at all types.
pub(crate) fn least_over_types<R: TypeRule>(
    alloc: Global,
    graph: &BaseGraph,
) -> Result<Option<Refusal>, Memory>
    ensures { IfOk result (λ r. r ≡ least (breaks_over (R.breaks graph.now.sheet.now.trees.now graph.now.sheet.now.types.now graph.now.bases.now) 0 graph.now.sheet.now.types.now)) }
{
    let types = graph.sheet.types;
    let mut found = None;
    for id in 0..types.len() {
        let here = R::least_at(alloc, graph, id, types[id])?;
        found = Refusal::first(found, here);
    }
    Ok(found)
}

/// A rule is broken at a place, and a word is kept.
pub(crate) fn broken_with(
    alloc: Global,
    rule: Rule,
    at: Place,
    word: &str,
) -> Result<Refusal, Memory>
    ensures { IfOk result (λ r. r ≡ broken_keeping rule at word.now) }
{
    Ok(Refusal {
        rule,
        place: at,
        kept: Kept::Word(Text::of(alloc, word)?),
    })
}

/// A rule is broken at a place, and nothing is kept.
pub(crate) fn broken(rule: Rule, at: Place) -> Refusal
    ensures { result ≡ broken_bare rule at }
{
    Refusal {
        rule,
        place: at,
        kept: Kept::Nothing,
    }
}

/// The refusal at a place, where a rule is broken there.
pub(crate) fn refusal_where(fails: bool, rule: Rule, at: Place) -> Option<Refusal>
    ensures { result ≡ least (broken_where fails rule at) }
{
    if fails { Some(broken(rule, at)) } else { None }
}
