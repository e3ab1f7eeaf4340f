//! The layouts of the containers of a table.

ghost use Rattle.std.specs.Prelude.{◌≡◌, IfOk, IfSome, Some, slice_get};
ghost use Rattle.eds_value.specs.Layouts.{IsLayoutOf};

use crate::layout::{Layout, layout_of};
use eds_base::{Memory, TypeId};
use eds_types::TypeTable;
use std::alloc::Global;
use std::marker::Model;

/// With how many names no further container is laid out: where many derive from one of many entries, they have more names
/// together than the sheet has octets.
const MOST_NAMES: usize = 262_144;

/// The layout at the number of a type, if there is one.
fn layout_at(each: &[Option<Layout>], id: TypeId) -> Option<&Layout>
    ensures { IfSome result (λ l. slice_get each.now id.0 ≡ Some (Some l.now)) }
{
    match each.get(id.0 as usize) {
        Some(Some(layout)) => Some(layout),
        _ => None,
    }
}

/// How many names an object has that is written so.
fn names_in(layout: Option<&Layout>) -> usize {
    match layout {
        Some(layout) => layout.count.saturating_add(1),
        None => 0,
    }
}

/// The layout of a type, where no more than so many names are laid out before it.
fn layout_after(
    alloc: Global,
    table: &TypeTable,
    id: TypeId,
    names: usize,
) -> Result<Option<Layout>, Memory>
    ensures { IfOk result (λ o. IfSome o (IsLayoutOf table.now id.0)) }
{
    if names >= MOST_NAMES {
        return Ok(None);
    }
    layout_of(alloc, table, id)
}

/// The containers of a table as objects whose names are in order, made ready to write many values of any of its types
/// (`put_json`): those whose names are all different. It refers to its table.
#[derive(Drop)]
pub struct Layouts<'a> {
    table: &'a TypeTable,
    // each at the number of its type; not every container has one
    each: Vec<Option<Layout>>,
}

impl<'a> Model for Layouts<'a> {
    ghost use Rattle.std.specs.Prelude.{List};
    ghost use Rattle.eds_types.specs.declared.row.TypeRow.{TypeRow};
    ghost use Rattle.eds_types.specs.contracts.value.Value as value;
    ghost use Rattle.eds_value.specs.Layouts.{AreLayouts};
    ghost use Rattle.std.specs.Coded.{codes};

    ghost Value = { List TypeRow };

    ghost coded = { Prim.hlevel (codes, value.the_row.coded) };

    ghost view = { λ l. l.table.now };

    ghost invariant = { λ l. AreLayouts l.table.now l.each.items };
}

impl<'a> Layouts<'a> {
    /// Those of the containers of a table, up to the one with which they have 262,144 names or more, in time and memory by
    /// the size of the table and these names.
    pub fn of(alloc: Global, table: &'a TypeTable) -> Result<Layouts<'a>, Memory>
        ensures { IfOk result (λ l. l ≡ table.now) }
    {
        let mut each = Vec::with_capacity(alloc, table.len() as usize)?;
        let mut names = 0usize;
        for number in 0..table.len() {
            let layout = layout_after(alloc, table, TypeId(number), names)?;
            names = names.saturating_add(names_in(layout.as_ref()));
            each.push(layout)?;
        }
        Ok(Layouts { table, each })
    }

    /// The table that they are of.
    pub fn table(&self) -> &'a TypeTable
        ensures { result.now ≡ self.now }
    {
        self.table
    }

    /// The layout of a container for so many values, if it has one.
    pub fn find(&self, id: TypeId, count: usize) -> Option<&Layout>
        ensures layout { IfSome result (λ l. IsLayoutOf self.now id.0 l.now) }
        ensures count { IfSome result (λ l. l.now.count ≡ count) }
    {
        match layout_at(self.each.as_slice(), id) {
            Some(layout) if layout.count == count => Some(layout),
            _ => None,
        }
    }
}
