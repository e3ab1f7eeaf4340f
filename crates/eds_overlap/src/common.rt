//! The numbers that the entries of two containers can have in both.

ghost use Rattle.std.specs.Prelude.{◌≡◌, ◌++◌, string_bytes, IfOk, OnOk};
ghost use Rattle.std.specs.Cmp.Lexicographic.{slice_cmp};
ghost use Rattle.std.specs.Map.{remove_entry};
ghost use Rattle.std.specs.Ordering.{is_eq, nat_cmp};
ghost use Rattle.eds_types.specs.Fields.{constraints_along};
ghost use Rattle.eds_types.specs.Rows.{Table};
ghost use Rattle.eds_overlap.specs.Common.{AreUnderTexts, all_under, common_of, is_on as is_among, least_of_both, numbers_under, put_in_order, with_path, with_paths};
ghost use Rattle.eds_overlap.specs.Pairs.{AreSets, constraints_among};
ghost use Rattle.eds_overlap.specs.PathTexts.{path_text as text_of};

use crate::find::{Pair, starts_in};
use crate::paths::is_same;
use crate::sets::{SetsByPath, copied_path};
use crate::texts::path_text;
use eds_base::{Items, Memory, TypeId};
use eds_types::{Constraint, EntryPath, TypeTable};
use std::alloc::Global;
use std::collections::BTreeMap;

/// The least number that the entry on a path can have in both of two containers.
#[derive(Drop)]
pub struct Common {
    pub path: EntryPath,
    pub number: i128,
}

// Numbers under the texts of their paths.
type UnderTexts = BTreeMap<String, Items<Common>>;

/// The least common number of each path that starts above the choice at which two containers part and that a constraint of
/// one of them is on, in the order of the paths' texts. The sets are those of the first and of the second.
pub(crate) fn common_numbers(
    alloc: Global,
    table: &TypeTable,
    pair: Pair,
    ours: &SetsByPath,
    theirs: &SetsByPath,
) -> Result<Items<Common>, Memory>
    requires ours { AreSets table.now (constraints_along table.now pair.first.0) ours.now }
    requires theirs { AreSets table.now (constraints_along table.now pair.second.0) theirs.now }
    ensures { IfOk result (λ common. common ≡ common_of table.now pair.ancestor.0 pair.first.0 pair.second.0) }
{
    let ancestor = pair.ancestor;
    let mut gathered = BTreeMap::new(alloc);
    let first = table.chain_of(pair.first);
    let first = first.as_slice();
    add_among(alloc, table, ancestor, first, ours, theirs, &mut gathered)?;
    let second = table.chain_of(pair.second);
    let second = second.as_slice();
    add_among(alloc, table, ancestor, second, ours, theirs, &mut gathered)?;
    all_of(alloc, gathered)
}

// Adds the least numbers on the paths of the constraints of some types.
fn add_among(
    alloc: Global,
    table: &TypeTable,
    ancestor: TypeId,
    ids: &[TypeId],
    ours: &SetsByPath,
    theirs: &SetsByPath,
    gathered: &mut UnderTexts,
) -> Result<(), Memory>
    requires { AreUnderTexts table.now gathered.old.entries }
    ensures texts { OnOk result (AreUnderTexts table.now gathered.new.entries) }
    ensures added { OnOk result (all_under gathered.new.entries ≡ with_paths table.now ancestor.0 (least_of_both ours.now theirs.now) (all_under gathered.old.entries) (constraints_among table.now ids.now)) }
{
    for id in ids {
        let constraints = table.constraints_of(*id);
        add_paths(alloc, table, ancestor, constraints, ours, theirs, gathered)?;
    }
    Ok(())
}

// Adds the least numbers on the paths of some constraints.
fn add_paths(
    alloc: Global,
    table: &TypeTable,
    ancestor: TypeId,
    constraints: &[Constraint],
    ours: &SetsByPath,
    theirs: &SetsByPath,
    gathered: &mut UnderTexts,
) -> Result<(), Memory>
    requires { AreUnderTexts table.now gathered.old.entries }
    ensures texts { OnOk result (AreUnderTexts table.now gathered.new.entries) }
    ensures added { OnOk result (all_under gathered.new.entries ≡ with_paths table.now ancestor.0 (least_of_both ours.now theirs.now) (all_under gathered.old.entries) constraints.now) }
{
    for constraint in constraints {
        let path = constraint.path.as_slice();
        add_path(alloc, table, ancestor, path, ours, theirs, gathered)?;
    }
    Ok(())
}

// Adds the least number on a path, under its text, if the path starts above the choice and isn't there.
fn add_path(
    alloc: Global,
    table: &TypeTable,
    ancestor: TypeId,
    path: &[(TypeId, u16)],
    ours: &SetsByPath,
    theirs: &SetsByPath,
    gathered: &mut UnderTexts,
) -> Result<(), Memory>
    requires { AreUnderTexts table.now gathered.old.entries }
    ensures texts { OnOk result (AreUnderTexts table.now gathered.new.entries) }
    ensures added { OnOk result (all_under gathered.new.entries ≡ with_path table.now ancestor.0 (least_of_both ours.now theirs.now) (all_under gathered.old.entries) path.now) }
{
    if !starts_in(table, ancestor, path) {
        return Ok(());
    }
    let text = path_text(alloc, table, path)?;
    if is_on(under(gathered, text.as_str()), path) {
        return Ok(());
    }
    let Some(number) = least_in_both(ours, theirs, path) else {
        return Ok(());
    };
    let path = copied_path(alloc, path)?;
    put_under(alloc, gathered, text.as_str(), Common { path, number })
}

// The numbers under a text.
fn under<'a>(gathered: &'a UnderTexts, text: &str) -> &'a [Common]
    ensures { result.now ≡ numbers_under gathered.now.entries text.now }
{
    match gathered.get(text) {
        Some(numbers) => numbers.as_slice(),
        None => &[],
    }
}

// Puts a number behind those under a text.
fn put_under(
    alloc: Global,
    gathered: &mut UnderTexts,
    text: &str,
    one: Common,
) -> Result<(), Memory>
    ensures texts { OnOk result ((t : Table) → AreUnderTexts t gathered.old.entries → text_of t one.path ≡ text.now → AreUnderTexts t gathered.new.entries) }
    ensures put { OnOk result ((t : Table) → AreUnderTexts t gathered.old.entries → text_of t one.path ≡ text.now → all_under gathered.new.entries ≡ put_in_order t (all_under gathered.old.entries) one) }
{
    let key = String::from_str(alloc, text)?;
    let mut numbers = take_under(alloc, gathered, text);
    numbers.push(one)?;
    gathered.insert(key, numbers)?;
    Ok(())
}

// Takes the numbers under a text out.
fn take_under(alloc: Global, gathered: &mut UnderTexts, text: &str) -> Items<Common>
    ensures numbers { result ≡ numbers_under gathered.old.entries text.now }
    ensures entries { gathered.new.entries ≡ remove_entry (λ k. is_eq (slice_cmp nat_cmp text.now (string_bytes k))) gathered.old.entries }
{
    match gathered.remove(text) {
        Some(numbers) => numbers,
        None => Items::new(alloc),
    }
}

// All numbers, in the order of the texts.
fn all_of(alloc: Global, gathered: UnderTexts) -> Result<Items<Common>, Memory>
    ensures { IfOk result (λ all. all ≡ all_under gathered.entries) }
{
    let mut all = Items::new(alloc);
    for (_text, numbers) in gathered {
        push_each(numbers, &mut all)?;
    }
    Ok(all)
}

// Puts some numbers behind others.
fn push_each(some: Items<Common>, all: &mut Items<Common>) -> Result<(), Memory>
    ensures { OnOk result (all.new ≡ all.old ++ some) }
{
    for one in some.into_vec() {
        all.push(one)?;
    }
    Ok(())
}

// Whether one of the numbers is on a path.
fn is_on(common: &[Common], path: &[(TypeId, u16)]) -> bool
    ensures { result ≡ is_among common.now path.now }
{
    for one in common {
        if is_same(one.path.as_slice(), path) {
            return true;
        }
    }
    false
}

// The least number on a path that the sets of both lists have, or that of the one that has a set there.
fn least_in_both(ours: &SetsByPath, theirs: &SetsByPath, path: &[(TypeId, u16)]) -> Option<i128>
    ensures { result ≡ least_of_both ours.now theirs.now path.now }
{
    match (ours.find(path), theirs.find(path)) {
        (Some(set), Some(other)) => set.first_common(other),
        (Some(set), None) => set.first_common(set),
        (None, Some(set)) => set.first_common(set),
        (None, None) => None,
    }
}
