//! Rows of types, and what their containers ask.

ghost use Rattle.std.specs.Prelude.{◌≡◌, ◌≤◌, length, map, IfOk};
ghost use Rattle.eds_types.specs.Rows.{base_of as base_in_rows, number_of_id, numbers};
ghost use Rattle.eds_constraints.specs.Breaks.{asked_of, posed_by, aim_at as aim_of_posed, admitted as admitted_by};
ghost use Rattle.eds_constraints.specs.ConstrainedRows.{AreRead};
ghost use Rattle.eds_constraints.specs.Sets.{concrete_under, set_of as set_of_test};

use crate::asked::{Aim, Asked, AskedOf};
use crate::paths::aim_of;
use crate::rows::{NamedRows, base_of};
use crate::sets::{concrete_sets, set_of};
use eds_base::{Items, Memory, Spans, TypeId};
use eds_types::TypeRow;
use std::alloc::Global;

/// The rows of all types without constraints, and for each type the constraints that its container asks for. Beside them stand the
/// names of their parts, and for each type the concrete containers at or under it.
#[derive(Drop)]
pub struct AskedRows<'a> {
    pub(crate) rows: &'a [TypeRow],
    pub(crate) lists: &'a [AskedOf],
    names: NamedRows<'a>,
    sets: Items<Spans>,
    ghost named: { names.rows.now ≡ rows.now },
    ghost few: { length lists.now ≤ length rows.now },
    ghost sets_are: { sets ≡ map (concrete_under rows.now) (numbers rows.now) },
}

impl<'a> AskedRows<'a> {
    /// Rows that the stages before have judged, with what their containers ask, each at the number of its type.
    pub fn of(
        alloc: Global,
        rows: &'a [TypeRow],
        lists: &'a [AskedOf],
    ) -> Result<AskedRows<'a>, Memory>
        requires read { AreRead rows.now }
        requires few { length lists.now ≤ length rows.now }
        ensures rows { IfOk result (λ a. a.rows.now ≡ rows.now) }
        ensures lists { IfOk result (λ a. a.lists.now ≡ lists.now) }
    {
        let names = NamedRows::of(alloc, rows)?;
        let sets = concrete_sets(alloc, rows)?;
        Ok(AskedRows {
            rows,
            lists,
            names,
            sets,
        })
    }

    /// The base of a type.
    pub(crate) fn base_of(&self, id: TypeId) -> Option<TypeId>
        ensures { number_of_id result ≡ base_in_rows self.now.rows.now id.0 }
    {
        base_of(self.rows, id)
    }

    /// What the container of a number asks.
    pub(crate) fn asked_of(&self, id: usize) -> &[Asked]
        ensures { result.now ≡ asked_of self.now.lists.now id }
    {
        match self.lists.get(id) {
            None => &[],
            Some(asked) => asked.as_slice(),
        }
    }

    /// Where a constraint leads that stands in a container with this base, None exactly where it leads nowhere.
    pub(crate) fn aim_at(
        &self,
        alloc: Global,
        base: Option<TypeId>,
        asked: &Asked,
    ) -> Result<Option<Aim>, Memory>
        ensures { IfOk result (λ a. a ≡ aim_of_posed self.now.rows.now (posed_by (number_of_id base) asked.now)) }
    {
        aim_of(alloc, &self.names, base, asked)
    }

    /// What it admits of an entry to which it leads.
    pub(crate) fn set_at(
        &self,
        alloc: Global,
        aim: &Aim,
        asked: &Asked,
    ) -> Result<Option<Spans>, Memory>
        requires { AreRead self.now.rows.now }
        ensures { IfOk result (λ s. s ≡ set_of_test self.now.rows.now aim.now.target.0 asked.now.test) }
    {
        set_of(
            alloc,
            &self.names,
            self.sets.as_slice(),
            aim.target,
            &asked.test,
        )
    }

    /// The numbers that it admits, None exactly where it leads nowhere, or stands for nothing.
    pub(crate) fn admitted(
        &self,
        alloc: Global,
        base: Option<TypeId>,
        asked: &Asked,
    ) -> Result<Option<Spans>, Memory>
        requires { AreRead self.now.rows.now }
        ensures { IfOk result (λ s. s ≡ admitted_by self.now.rows.now (posed_by (number_of_id base) asked.now)) }
    {
        match self.aim_at(alloc, base, asked)? {
            None => Ok(None),
            Some(aim) => self.set_at(alloc, &aim, asked),
        }
    }
}
