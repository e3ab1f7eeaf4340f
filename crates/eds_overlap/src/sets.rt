//! The numbers that the constraints of a container leave on their paths.

ghost use Rattle.std.specs.Prelude.{◌≡◌, ◌≢◌, ℤ, None, [], ◌∷◌, ◌++◌, map, List, IfOk, OnOk, IfSome};
ghost use Rattle.std.specs.Option.{option_copied};
ghost use Rattle.std.specs.List.{AllByRecursion};
ghost use Rattle.std.specs.List.Sorted.{IsPermutation};
ghost use Rattle.eds_base.specs.Spans.{IsWithin};
ghost use Rattle.eds_types.specs.declared.sets.PathSet.{PathSet as path_set};
ghost use Rattle.eds_types.specs.Fields.{constraints_along};
ghost use Rattle.eds_overlap.specs.Pairs.{AreByPath, AreSets, AreSetsInOrder, IsDeclared, TakesIn, constraints_among, int_domain_on, set_on};

use crate::paths::{is_same, path_order};
use eds_base::{Items, Memory, Spans, TypeId};
use eds_types::{Constraint, EntryPath, PathSet, Sets, TypeTable};
use std::alloc::Global;
use std::marker::Model;

/// Sets of numbers for several paths, each path once, in the order of the paths.
#[derive(Drop)]
pub(crate) struct SetsByPath {
    sets: Vec<PathSet>,
}

impl Model for SetsByPath {
    ghost use Rattle.std.specs.Prelude.{List, map};
    ghost use Rattle.eds_types.specs.declared.sets.PathSet.{PathSet as path_set};
    ghost use Rattle.eds_overlap.specs.Pairs.{AreRising};

    ghost Value = { List path_set };

    ghost view = { λ s. s.sets.items };

    ghost invariant = { λ s. AreRising (map (λ (one : path_set). one.path) s.sets.items) };
}

impl SetsByPath {
    /// The sets.
    pub(crate) fn as_slice(&self) -> &[PathSet]
        ensures { result.now ≡ self.now }
    {
        self.sets.as_slice()
    }

    /// The set on a path, found by halves.
    pub(crate) fn find(&self, path: &[(TypeId, u16)]) -> Option<&Spans>
        ensures { option_copied result ≡ set_on self.now path.now }
    {
        let found = self
            .sets
            .binary_search_by(|one| path_order(one.path.as_slice(), path));
        match found {
            Ok(at) => Some(&self.sets[at].set),
            Err(_) => None,
        }
    }
}

/// For each path that a container or one of its bases constrains the numbers that all these constraints and the path's
/// domain have in common.
pub fn solution_sets(alloc: Global, table: &TypeTable, id: TypeId) -> Result<Sets, Memory>
    ensures { IfOk result (λ sets. AreSets table.now (constraints_along table.now id.0) sets) }
{
    let SetsByPath { sets } = sets_by_path(alloc, table, id)?;
    Ok(Sets::from_vec(sets))
}

/// The same, so that the set on a path is found by halves.
pub(crate) fn sets_by_path(
    alloc: Global,
    table: &TypeTable,
    id: TypeId,
) -> Result<SetsByPath, Memory>
    ensures { IfOk result (λ sets. AreSets table.now (constraints_along table.now id.0) sets) }
{
    table.keeps_rules();
    let chain = table.chain_of(id);
    let constraints = constraints_by_path(alloc, table, chain.as_slice())?;
    let sets = gathered_sets(alloc, table, constraints.as_slice())?;
    Ok(SetsByPath { sets })
}

// The constraints of some types, those on one path next to one another.
fn constraints_by_path<'a>(
    alloc: Global,
    table: &'a TypeTable,
    ids: &[TypeId],
) -> Result<Vec<&'a Constraint>, Memory>
    ensures all { IfOk result (λ all. IsPermutation (constraints_among table.now ids.now) (map (λ c. c.now) all.items)) }
    ensures order { IfOk result (λ all. AreByPath (map (λ c. c.now) all.items)) }
{
    let mut all = Vec::new(alloc);
    for id in ids {
        push_all(table.constraints_of(*id), &mut all)?;
    }
    all.sort_by(|one, other| path_order(one.path.as_slice(), other.path.as_slice()))?;
    Ok(all)
}

// Puts some constraints behind others.
fn push_all<'a>(some: &'a [Constraint], all: &mut Vec<&'a Constraint>) -> Result<(), Memory>
    ensures { OnOk result (map (λ c. c.now) all.new.items ≡ map (λ c. c.now) all.old.items ++ some.now) }
{
    for one in some {
        all.push(one)?;
    }
    Ok(())
}

// The sets of some constraints, which are in the order of their paths.
fn gathered_sets(
    alloc: Global,
    table: &TypeTable,
    constraints: &[&Constraint],
) -> Result<Vec<PathSet>, Memory>
    requires order { AreByPath (map (λ c. c.now) constraints.now) }
    requires declared { AllByRecursion (IsDeclared table.now) (map (λ c. c.now) constraints.now) }
    ensures { IfOk result (λ sets. AreSetsInOrder table.now (map (λ c. c.now) constraints.now) sets.items) }
{
    let mut sets = Vec::new(alloc);
    for constraint in constraints {
        take_in(alloc, table, constraint, &mut sets)?;
    }
    Ok(sets)
}

// Takes in a constraint that comes behind all before it: the last set is narrowed by it, or a new one is added.
fn take_in(
    alloc: Global,
    table: &TypeTable,
    constraint: &Constraint,
    sets: &mut Vec<PathSet>,
) -> Result<(), Memory>
    requires { IsDeclared table.now constraint.now }
    ensures { OnOk result (TakesIn table.now constraint.now sets.old.items sets.new.items) }
{
    let Some(last) = sets.pop() else {
        return push_first(alloc, table, constraint, sets);
    };
    if is_same(last.path.as_slice(), constraint.path.as_slice()) {
        let set = last.set.meet(alloc, &constraint.set)?;
        let path = last.path;
        sets.push(PathSet { path, set })?;
        return Ok(());
    }
    sets.push(last)?;
    push_first(alloc, table, constraint, sets)
}

// Adds the set of a constraint on a path that no set is on.
fn push_first(
    alloc: Global,
    table: &TypeTable,
    constraint: &Constraint,
    sets: &mut Vec<PathSet>,
) -> Result<(), Memory>
    requires declared { IsDeclared table.now constraint.now }
    requires new { (before : List path_set) → (last : path_set) → sets.old.items ≡ before ++ last ∷ [] → last.path ≢ constraint.now.path }
    ensures { OnOk result (TakesIn table.now constraint.now sets.old.items sets.new.items) }
{
    table.keeps_rules();
    let set = first_set(alloc, table, constraint)?;
    let path = copied_path(alloc, constraint.path.as_slice())?;
    sets.push(PathSet { path, set })?;
    Ok(())
}

// The numbers of a constraint's set; of those of a path to an integer the ones of its domain.
fn first_set(alloc: Global, table: &TypeTable, constraint: &Constraint) -> Result<Spans, Memory>
    ensures from_set { IfOk result (λ set. (n : ℤ) → IsWithin set n → IsWithin constraint.now.set n) }
    ensures of_domain { IfOk result (λ set. (n : ℤ) → IsWithin set n → IfSome (int_domain_on table.now constraint.now.path) (λ domain. IsWithin domain n)) }
    ensures all { IfOk result (λ set. (n : ℤ) → IsWithin constraint.now.set n → IfSome (int_domain_on table.now constraint.now.path) (λ domain. IsWithin domain n) → IsWithin set n) }
{
    match domain_on(table, constraint.path.as_slice()) {
        Some(domain) => constraint.set.meet(alloc, domain),
        None => constraint.set.meet(alloc, &constraint.set),
    }
}

// The numbers of the integer that a path leads to, if it leads to one.
fn domain_on<'a>(table: &'a TypeTable, path: &[(TypeId, u16)]) -> Option<&'a Spans>
    ensures { option_copied result ≡ int_domain_on table.now path.now }
{
    let [.., last] = path else {
        return None;
    };
    let part = table.part_at(last.0, last.1)?;
    table.domain_of(part.type_id()?)
}

/// A copy of a path.
pub fn copied_path(alloc: Global, path: &[(TypeId, u16)]) -> Result<EntryPath, Memory>
    ensures { IfOk result (λ copy. copy ≡ path.now) }
{
    let mut copy = Items::new(alloc);
    for step in path {
        copy.push(*step)?;
    }
    Ok(copy)
}
