//! Types and the families that they belong to.

ghost use Rattle.std.specs.Prelude.{◌≡◌, option_map, IfOk, is_some};
ghost use Rattle.eds_base.specs.declared.ids.TypeId.{TypeId as type_id};
ghost use Rattle.eds_types.specs.Rows.{base_of};
ghost use Rattle.eds_nesting.specs.Families.{topmost as topmost_of, families as families_of, family as family_among, is_container as is_container_kind, containers as containers_in, family_sizes as sizes_of};

use eds_base::{Memory, TypeId};
use eds_types::{Kind, TypeRow};
use std::alloc::Global;

/// The type that one derives from.
pub(crate) fn base(rows: &[TypeRow], id: usize) -> Option<TypeId>
    ensures { option_map (λ (b : type_id). b.0) result ≡ base_of rows.now id }
{
    rows.get(id)?.base
}

/// Whether a type has a base.
pub(crate) fn has_base(rows: &[TypeRow], id: usize) -> bool
    ensures { result ≡ is_some (base_of rows.now id) }
{
    base(rows, id).is_some()
}

/// The last of the bases of a type.
fn topmost(rows: &[TypeRow], id: usize) -> usize
    ensures { result ≡ topmost_of rows.now id }
{
    let mut at = id;
    let mut left = rows.len();
    while left > 0 {
        match base(rows, at) {
            None => return at,
            Some(next) => at = next.0 as usize,
        }
        left -= 1;
    }
    at
}

/// For each type the family that it belongs to, which is named by the last of its bases, or by the type itself where it has none.
pub fn families(alloc: Global, rows: &[TypeRow]) -> Result<Vec<usize>, Memory>
    ensures { IfOk result (λ f. f.items ≡ families_of rows.now) }
{
    let mut families = Vec::new(alloc);
    for id in 0..rows.len() {
        families.push(topmost(rows, id))?;
    }
    Ok(families)
}

/// The family of the type of a number.
pub(crate) fn family(families: &[usize], id: usize) -> usize
    ensures { result ≡ family_among families.now id }
{
    match families.get(id) {
        None => id,
        Some(name) => *name,
    }
}

fn is_container(kind: &Kind) -> bool
    ensures { result ≡ is_container_kind kind.now }
{
    match kind {
        Kind::Int(_, _) => false,
        Kind::Enum(_, _) => false,
        Kind::Bool(_) => false,
        Kind::Str(_) => false,
        Kind::Bin(_, _) => false,
        Kind::Arr(_, _) => false,
        Kind::Con(_) => true,
    }
}

/// How many containers a family has.
fn containers(rows: &[TypeRow], families: &[usize], name: usize) -> usize
    ensures { result ≡ containers_in rows.now families.now name }
{
    let mut count = 0;
    for id in 0..rows.len() {
        if is_container(&rows[id].kind) && family(families, id) == name {
            count += 1;
        }
    }
    count
}

/// For each type how many containers its family has.
pub fn family_sizes(
    alloc: Global,
    rows: &[TypeRow],
    families: &[usize],
) -> Result<Vec<usize>, Memory>
    ensures { IfOk result (λ s. s.items ≡ sizes_of rows.now families.now) }
{
    let mut sizes = Vec::new(alloc);
    for name in families {
        sizes.push(containers(rows, families, *name))?;
    }
    Ok(sizes)
}
