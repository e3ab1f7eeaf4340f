//! The members of an object.

ghost use Rattle.std.specs.Prelude.{◌≡◌, IfOk, codes, map};
ghost use Rattle.std.specs.Bool.{OnTrue};
ghost use Rattle.std.specs.List.Sorted.{IsPermutation};
ghost use Rattle.serde_json.specs.Data.{Data, no_members, put, string};
ghost use Rattle.eds_types.specs.Plain.{plain};
ghost use Rattle.eds_types.specs.Rows.{Table};
ghost use Rattle.eds_value.specs.Seen.{seen};
ghost use Rattle.eds_value.specs.JsonOfValue.{json_of_value, with_values};
ghost use Rattle.eds_value.specs.Members.{ascends as ascends_in, entries_in_order, in_order, in_order_by, is_below as is_below_first, put_all as put_each, put_all_by};

use crate::entry::Entry;
use eds_base::Memory;
use eds_types::{Value, Values};
use std::alloc::Global;
use std::collections::BTreeMap;

/// What stands at a name in an object.
#[derive(Clone, Copy)]
pub(crate) enum Content<'a> {
    /// The qualified name of the object's container.
    TypeName(&'a str),
    /// A value.
    Held(&'a Value),
}

/// A member of an object: a name, and what stands there or where that comes from.
#[derive(Clone, Copy)]
pub(crate) struct Member<'a, C> {
    pub(crate) name: &'a str,
    pub(crate) content: C,
}

/// A member with its content.
pub(crate) type Filled<'a> = Member<'a, Content<'a>>;

/// The members of a container's object: its name, and a value for each entry, in the order of the entries.
pub(crate) fn members_of_fields<'a>(
    alloc: Global,
    container: &'a str,
    entries: &[Entry<'a>],
    values: &'a [Value],
) -> Result<Vec<Filled<'a>>, Memory>
    ensures { IfOk result (λ ms. (t : Table) → put_each t ms.items no_members ≡ with_values (map seen entries.now) (map (json_of_value t) (map plain values.now)) (put (codes "$type") (string container.now) no_members)) }
{
    let count = entries.len().min(values.len());
    let mut members = Vec::with_capacity(alloc, count.saturating_add(1))?;
    members.push(Member {
        name: "$type",
        content: Content::TypeName(container),
    })?;
    for i in 0..count {
        members.push(Member {
            name: entries[i].name,
            content: Content::Held(&values[i]),
        })?;
    }
    Ok(members)
}

/// A member for each argument, in the order of the arguments.
pub(crate) fn members_of_arguments<'a>(
    alloc: Global,
    entries: &[Entry<'a>],
    values: &'a Values,
) -> Result<Vec<Filled<'a>>, Memory>
    ensures { IfOk result (λ ms. (t : Table) → put_each t ms.items no_members ≡ with_values (map seen entries.now) (map (json_of_value t) values.now) no_members) }
{
    let count = entries.len().min(values.len());
    let mut members = Vec::with_capacity(alloc, count)?;
    for i in 0..count {
        if let Some(value) = values.get(i) {
            members.push(Member {
                name: entries[i].name,
                content: Content::Held(value),
            })?;
        }
    }
    Ok(members)
}

// Whether the first name, where there is one, is above this one.
fn is_below<C>(name: &str, members: &[Member<'_, C>]) -> bool
    ensures { result ≡ is_below_first name.now members.now }
{
    match members {
        [] => true,
        [next, ..] => name.cmp(next.name).is_lt(),
    }
}

// Whether each name is above the one before it.
fn ascends<C>(members: &[Member<'_, C>]) -> bool
    ensures { result ≡ ascends_in members.now }
{
    let mut rest = members;
    while let [member, after @ ..] = rest {
        if !is_below(member.name, after) {
            return false;
        }
        rest = after;
    }
    true
}

/// Puts the members in byte order of their names. `false` where a name stands twice.
pub(crate) fn sort<C>(members: &mut Vec<Member<'_, C>>) -> bool
    ensures same { OnTrue result ((data_of : C → Data) → in_order_by data_of members.new.items ≡ put_all_by data_of members.old.items no_members) }
    ensures permutation { IsPermutation members.old.items members.new.items }
{
    members.sort_unstable_by(|a, b| a.name.cmp(b.name));
    ascends(members.as_slice())
}

// What stands at each name: of several members of one name the last counts.
fn last_of_each<'a>(
    alloc: Global,
    members: &[Filled<'a>],
) -> Result<BTreeMap<&'a str, Content<'a>>, Memory>
    ensures { IfOk result (λ found. (t : Table) → entries_in_order t found.entries ≡ put_each t members.now no_members) }
{
    let mut found = BTreeMap::new(alloc);
    for member in members {
        found.insert(member.name, member.content)?;
    }
    Ok(found)
}

// The members in byte order of their names, the last of each name.
fn merged<'a>(alloc: Global, members: &[Filled<'a>]) -> Result<Vec<Filled<'a>>, Memory>
    ensures { IfOk result (λ ms. (t : Table) → in_order t ms.items ≡ put_each t members.now no_members) }
{
    let found = last_of_each(alloc, members)?;
    let mut merged = Vec::new(alloc);
    for (name, content) in found.iter() {
        merged.push(Member {
            name: *name,
            content: *content,
        })?;
    }
    Ok(merged)
}

/// The members in byte order of their names, the last of each name. In a sheet no name stands twice.
pub(crate) fn arranged<'a>(alloc: Global, members: &[Filled<'a>]) -> Result<Vec<Filled<'a>>, Memory>
    ensures { IfOk result (λ ms. (t : Table) → in_order t ms.items ≡ put_each t members.now no_members) }
{
    let mut sorted = members.to_vec(alloc)?;
    if sort(&mut sorted) {
        Ok(sorted)
    } else {
        merged(alloc, members)
    }
}
