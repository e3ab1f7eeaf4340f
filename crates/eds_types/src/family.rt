//! The families of containers: the concrete ones at or under each type.

ghost use Rattle.std.specs.Prelude.{◌≡◌, ◌++◌, ◌∷◌, ◌<◌, ◌≤◌, ℕ, [], List, Some, length, map, option_map, replicate, slice_get, slice_set, OnOk, IfOk};
ghost use Rattle.eds_base.specs.declared.ids.TypeId.{TypeId as Id};
ghost use Rattle.eds_types.specs.Families.{IsFamilies, with_member};
ghost use Rattle.eds_types.specs.Rows.{id_of, family};

use crate::TypeRow;
use crate::look::{chain_of, is_concrete};
use crate::under::is_among;
use eds_base::{Items, Memory, TypeId};
use std::alloc::Global;

/// Puts a type last in the list at a place.
fn put_last(lists: &mut [Items<TypeId>], at: usize, id: TypeId) -> Result<(), Memory>
    requires { at < length lists.old }
    ensures { (list : List Id) → slice_get lists.old at ≡ Some list → OnOk result (lists.new ≡ slice_set lists.old at (list ++ id ∷ [])) }
{
    lists[at].push(id)
}

/// Puts a type last in the lists of the types of a chain, once in each.
fn put_along(lists: &mut [Items<TypeId>], chain: &[TypeId], id: TypeId) -> Result<(), Memory>
    ensures same { OnOk result (length lists.new ≡ length lists.old) }
    ensures lists { OnOk result ((x : ℕ) → slice_get lists.new x ≡ option_map (with_member id chain.now x) (slice_get lists.old x)) }
{
    let mut rest = chain;
    while let [above, after @ ..] = rest {
        let at = above.0 as usize;
        if at < lists.len() && !is_among(after, *above) {
            put_last(lists, at, id)?;
        }
        rest = after;
    }
    Ok(())
}

/// So many empty lists.
fn empty_lists(alloc: Global, count: usize) -> Result<Vec<Items<TypeId>>, Memory>
    ensures { IfOk result (λ lists. lists.items ≡ replicate count []) }
{
    let mut lists = Vec::with_capacity(alloc, count)?;
    for _ in 0..count {
        lists.push(Items::new(alloc))?;
    }
    Ok(lists)
}

/// The family of each type.
pub(crate) fn families_of(alloc: Global, rows: &[TypeRow]) -> Result<Items<Items<TypeId>>, Memory>
    requires { length rows.now ≤ 4096 }
    ensures { IfOk result (IsFamilies rows.now) }
{
    let mut lists = empty_lists(alloc, rows.len())?;
    for number in 0..rows.len() as u32 {
        let id = TypeId(number);
        if is_concrete(rows, id) {
            let chain = chain_of(rows, id);
            put_along(&mut lists, chain.as_slice(), id)?;
        }
    }
    Ok(Items::from_vec(lists))
}
