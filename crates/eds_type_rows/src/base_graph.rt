//! The types of a sheet, each with the type that it derives from.

ghost use Rattle.std.specs.Prelude.{◌≡◌, ◌∷◌, ℕ, Bool, List, Option, map, option_map, IfOk, length, slice_get};
ghost use Rattle.std.specs.List.{range_with_len, list_any};
ghost use Rattle.eds_base.specs.declared.ids.Place.{Place};
ghost use Rattle.eds_base.specs.declared.ids.TypeId.{TypeId};
ghost use Rattle.eds_tree.specs.declared.tree.Node.{Node};
ghost use Rattle.eds_type_rows.specs.Bases.{all_bases, may_derive as may_derive_at, base_named as base_named_in, base_found as base_found_by, bases_of as bases_in, base_at as base_in, is_in_cycle as is_in_cycle_of, bases_within, meets_cycle as meets_cycle_of};

use crate::element::{attribute, is_container, is_sub_range};
use crate::named_trees::NamedTrees;
use crate::type_id::id_found;
use eds_base::{Memory, Place, TypeId};
use eds_tree::Tree;
use std::alloc::Global;

/// A sheet, and what its types derive from.
#[derive(Drop)]
pub struct BaseGraph<'a> {
    pub sheet: &'a NamedTrees<'a>,
    /// For each type the one that it derives from.
    pub bases: &'a [Option<TypeId>],
    /// For each type whether it is its own base.
    pub cycles: &'a [bool],
    pub ghost found: { bases.now ≡ bases_in sheet.now.trees.now sheet.now.space.now },
    pub ghost judged: { cycles.now ≡ map (is_in_cycle_of bases.now) (range_with_len 0 (length bases.now)) },
}

/// Whether a type of this kind may derive from another.
fn may_derive(trees: &[Tree], at: Place) -> bool
    ensures { result ≡ may_derive_at trees.now at }
{
    is_sub_range(trees, at) || is_container(trees, at)
}

/// The reference of a sub-range or a container to its base.
pub(crate) fn base_named(trees: &[Tree], at: Place) -> Option<&str>
    ensures { option_map (λ t. t.now) result ≡ base_named_in trees.now at }
{
    if may_derive(trees, at) {
        attribute(trees, "baseType", at)
    } else {
        None
    }
}

/// The type that a sub-range or a container derives from.
pub(crate) fn base_found(
    alloc: Global,
    sheet: &NamedTrees,
    at: Place,
) -> Result<Option<TypeId>, Memory>
    ensures { IfOk result (λ id. id ≡ base_found_by sheet.now.trees.now sheet.now.space.now at) }
{
    id_found(alloc, sheet, at, base_named(sheet.trees, at))
}

/// For each type the one that it derives from.
pub fn bases_of(alloc: Global, sheet: &NamedTrees) -> Result<Vec<Option<TypeId>>, Memory>
    ensures { IfOk result (λ b. b.items ≡ bases_in sheet.now.trees.now sheet.now.space.now) }
{
    let mut bases = Vec::new(alloc);
    for at in sheet.types {
        let base = base_found(alloc, sheet, *at)?;
        bases.push(base)?;
    }
    Ok(bases)
}

/// The base of the type of a number.
pub fn base_at(bases: &[Option<TypeId>], id: usize) -> Option<TypeId>
    ensures { result ≡ base_in bases.now id }
{
    *bases.get(id)?
}

/// Whether a type is its own base over one step or more.
fn is_in_cycle(bases: &[Option<TypeId>], id: usize) -> bool
    ensures { result ≡ is_in_cycle_of bases.now id }
{
    let mut at = id;
    let mut left = bases.len();
    while left > 0 {
        match base_at(bases, at) {
            None => return false,
            Some(base) => {
                let base = base.0 as usize;
                if base == id {
                    return true;
                }
                at = base;
            }
        }
        left -= 1;
    }
    false
}

/// The element of the type of a number.
pub fn type_at(graph: &BaseGraph, id: usize) -> Option<Place>
    ensures { result ≡ slice_get graph.now.sheet.now.types.now id }
{
    graph.sheet.types.get(id).copied()
}

/// For each type whether it is its own base.
pub fn cycles_of(alloc: Global, bases: &[Option<TypeId>]) -> Result<Vec<bool>, Memory>
    ensures { IfOk result (λ c. c.items ≡ map (is_in_cycle_of bases.now) (range_with_len 0 (length bases.now))) }
{
    let mut cycles = Vec::new(alloc);
    for id in 0..bases.len() {
        cycles.push(is_in_cycle(bases, id))?;
    }
    Ok(cycles)
}

/// What is noted of a type, where there is such a type.
fn flag_at(flags: &[bool], id: usize) -> Option<bool>
    ensures { result ≡ slice_get flags.now id }
{
    flags.get(id).copied()
}

/// Whether a type is its own base over one step or more.
pub fn is_cyclic(graph: &BaseGraph, id: usize) -> bool
    ensures { result ≡ is_in_cycle_of graph.now.bases.now id }
{
    match flag_at(graph.cycles, id) {
        None => false,
        Some(cyclic) => cyclic,
    }
}

/// A test of the type of a number.
pub(crate) trait TypeTest {
    /// It holds by the trees of a sheet, the elements of its types, and what these derive from.
    ghost holds: { List (List Node) → List Place → List (Option TypeId) → ℕ → Bool };

    /// Whether it does.
    fn holds(graph: &BaseGraph, id: usize) -> bool
        ensures { result ≡ holds graph.now.sheet.now.trees.now graph.now.sheet.now.types.now graph.now.bases.now id };
}

/// A type is its own base over one step or more.
pub(crate) struct Cyclic;

impl TypeTest for Cyclic {
    ghost holds = { λ trees places bases id. is_in_cycle_of bases id };

    fn holds(graph: &BaseGraph, id: usize) -> bool {
        is_cyclic(graph, id)
    }
}

/// Whether a test holds for one of the first bases of a type.
fn holds_above<T: TypeTest>(graph: &BaseGraph, most: usize, id: usize) -> bool
    ensures { result ≡ list_any (T.holds graph.now.sheet.now.trees.now graph.now.sheet.now.types.now graph.now.bases.now) (bases_within most graph.now.bases.now id) }
{
    let mut at = id;
    let mut left = most;
    while left > 0 {
        match base_at(graph.bases, at) {
            None => return false,
            Some(base) => {
                at = base.0 as usize;
                if T::holds(graph, at) {
                    return true;
                }
            }
        }
        left -= 1;
    }
    false
}

/// Whether a test holds for a type or one of its bases.
pub(crate) fn holds_along<T: TypeTest>(graph: &BaseGraph, id: usize) -> bool
    ensures { result ≡ list_any (T.holds graph.now.sheet.now.trees.now graph.now.sheet.now.types.now graph.now.bases.now) (id ∷ all_bases graph.now.bases.now id) }
{
    T::holds(graph, id) || holds_above::<T>(graph, graph.bases.len(), id)
}

/// Whether a type or one of its bases is its own base.
pub(crate) fn meets_cycle(graph: &BaseGraph, id: usize) -> bool
    ensures { result ≡ meets_cycle_of graph.now.bases.now id }
{
    holds_along::<Cyclic>(graph, id)
}
