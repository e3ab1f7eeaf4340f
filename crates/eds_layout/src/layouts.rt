//! The layouts of a type.

ghost use Rattle.std.specs.Prelude.{◌≡◌, ℕ, [], ◌∷◌, is_some, IfOk};
ghost use Rattle.std.specs.List.{AllByRecursion};
ghost use Rattle.eds_base.specs.Spans.{Rises};
ghost use Rattle.eds_types.specs.declared.sets.PathSet.{PathSet as path_set};
ghost use Rattle.eds_types.specs.Rows.{container_of, numbers_of};
ghost use Rattle.eds_layout.specs.Fixed.{fixed_size};
ghost use Rattle.eds_layout.specs.AllFixed.{fix_in};
ghost use Rattle.eds_layout.specs.Laws.{TellsAll};
ghost use Rattle.eds_layout.specs.Layouts.{AreContainerLayouts, IsContainerLayout, IsLayout, plain_layout as plain_of};

use crate::fixes::{fixes_of, size_in};
use crate::law::layouts_tell;
use crate::layout::{Layout, TypeLayout};
use crate::rows::{Laid, rows_of};
use eds_base::{Items, Memory, TypeId};
use eds_overlap::solution_sets;
use eds_types::{PathSet, TypeTable};
use std::alloc::Global;

// Whether the type is a container.
pub(crate) fn is_container(table: &TypeTable, id: TypeId) -> bool
    ensures { result ≡ is_some (container_of table.now id.0) }
{
    match table.container_of(id) {
        Some(_) => true,
        None => false,
    }
}

// The intervals of each set rise.
pub(crate) fn keep_rising(sets: &[PathSet])
    ensures { AllByRecursion (λ (s : path_set). Rises s.set) sets.now }
{
    for set in sets {
        let _ = set.set.as_slice();
    }
}

// The layout of a container, by the fixed sizes of all types.
pub(crate) fn container_layout(
    alloc: Global,
    table: &TypeTable,
    fixes: &[Option<u32>],
    id: TypeId,
) -> Result<TypeLayout, Memory>
    requires { (x : ℕ) → fix_in fixes.now x ≡ fixed_size table.now x }
    ensures { IfOk result (IsContainerLayout table.now id.0) }
{
    let Laid { rows, bits } = rows_of(alloc, table, fixes, id)?;
    let sets = solution_sets(alloc, table, id)?;
    keep_rising(sets.as_slice());
    Ok(TypeLayout {
        id,
        bits,
        rows,
        sets,
    })
}

// The layouts of some containers.
fn container_layouts(
    alloc: Global,
    table: &TypeTable,
    fixes: &[Option<u32>],
    ids: &[TypeId],
) -> Result<Layout, Memory>
    requires { (x : ℕ) → fix_in fixes.now x ≡ fixed_size table.now x }
    ensures { IfOk result (AreContainerLayouts table.now (numbers_of ids.now)) }
{
    let mut layout = Items::new(alloc);
    for id in ids {
        layout.push(container_layout(alloc, table, fixes, *id)?)?;
    }
    Ok(layout)
}

// The layout of a type that is no container.
pub(crate) fn plain_layouts(
    alloc: Global,
    table: &TypeTable,
    fixes: &[Option<u32>],
    id: TypeId,
) -> Result<Layout, Memory>
    requires { (x : ℕ) → fix_in fixes.now x ≡ fixed_size table.now x }
    ensures { IfOk result (λ layout. layout ≡ plain_of table.now id.0 ∷ []) }
{
    let mut layout = Items::new(alloc);
    layout.push(TypeLayout {
        id,
        bits: size_in(fixes, id),
        rows: Items::new(alloc),
        sets: Items::new(alloc),
    })?;
    Ok(layout)
}

// The layouts of a type, by whether it is a container.
fn layouts_by_kind(alloc: Global, table: &TypeTable, id: TypeId) -> Result<Layout, Memory>
    ensures { IfOk result (IsLayout table.now id.0) }
{
    let fixes = fixes_of(alloc, table)?;
    if is_container(table, id) {
        container_layouts(alloc, table, fixes.as_slice(), table.family_of(id))
    } else {
        plain_layouts(alloc, table, fixes.as_slice(), id)
    }
}

/// How the values of a type are laid out: for each concrete container at or under it, in the order of their numbers, where
/// its parts stand, how many bits they and the container have, and the numbers that its constraints leave; for a type that is
/// no container how many bits it has. A number is there where the definition of fixed sizes gives one, and it is that of every
/// spelling.
pub fn layout_of(alloc: Global, table: &TypeTable, id: TypeId) -> Result<Layout, Memory>
    ensures layout { IfOk result (IsLayout table.now id.0) }
    ensures tells { IfOk result (TellsAll table.now id.0) }
{
    table.keeps_rules();
    layouts_tell();
    let layout = layouts_by_kind(alloc, table, id)?;
    Ok(layout)
}
