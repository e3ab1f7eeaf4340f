//! The constraints of containers as rows hold them.

ghost use Rattle.std.specs.Prelude.{◌≡◌, map, IfOk};
ghost use Rattle.eds_types.specs.Rows.{number_of_id, numbers};
ghost use Rattle.eds_constraints.specs.Breaks.{Lists, posed_by};
ghost use Rattle.eds_constraints.specs.ConstrainedRows.{AreRead, is_on_kind as is_kind_test, constraint_by as constraint_with, constraint_of as constraint_at, constraints_for, kind_with as constrained_kind, row_with as constrained_row, rows_each, constrained};

use crate::asked::{Aim, Asked, Test};
use crate::asked_rows::AskedRows;
use eds_base::{Items, Memory, Spans, TypeId};
use eds_types::{Constraint, Constraints, Container, Kind, TypeRow, TypeRows};
use std::alloc::Global;

fn is_on_kind(test: &Test) -> bool
    ensures { result ≡ is_kind_test test.now }
{
    matches!(test, Test::Under(_))
}

fn constraint_by(test: &Test, aim: Aim, set: Option<Spans>) -> Option<Constraint>
    ensures { result ≡ constraint_with test.now aim set }
{
    let set = set?;
    Some(Constraint {
        path: aim.path,
        set,
        on_kind: is_on_kind(test),
    })
}

// A constraint as a row holds it, None exactly where it breaks a rule by itself.
fn constraint_of(
    alloc: Global,
    rows: &AskedRows,
    base: Option<TypeId>,
    asked: &Asked,
) -> Result<Option<Constraint>, Memory>
    requires { AreRead rows.now.rows.now }
    ensures { IfOk result (λ c. c ≡ constraint_at rows.now.rows.now (posed_by (number_of_id base) asked.now)) }
{
    match rows.aim_at(alloc, base, asked)? {
        None => Ok(None),
        Some(aim) => {
            let set = rows.set_at(alloc, &aim, asked)?;
            Ok(constraint_by(&asked.test, aim, set))
        }
    }
}

// The constraints of a container.
fn own_constraints(alloc: Global, rows: &AskedRows, id: TypeId) -> Result<Constraints, Memory>
    requires { AreRead rows.now.rows.now }
    ensures { IfOk result (λ cs. cs ≡ constraints_for rows.now.rows.now rows.now.lists.now id.0) }
{
    let base = rows.base_of(id);
    let mut constraints = Items::new(alloc);
    for one in rows.asked_of(id.0 as usize) {
        if let Some(constraint) = constraint_of(alloc, rows, base, one)? {
            constraints.push(constraint)?;
        }
    }
    Ok(constraints)
}

/// For each type the constraints of its container as rows hold them, without those that break a rule by themselves.
pub fn constraints_of_all(alloc: Global, rows: &AskedRows) -> Result<Items<Constraints>, Memory>
    requires { AreRead rows.now.rows.now }
    ensures { IfOk result (λ cs. cs ≡ map (constraints_for rows.now.rows.now rows.now.lists.now) (numbers rows.now.rows.now)) }
{
    let mut all = Items::new(alloc);
    for id in 0..rows.rows.len() {
        all.push(own_constraints(alloc, rows, TypeId(id as u32))?)?;
    }
    Ok(all)
}

fn kind_with(constraints: Constraints, kind: Kind) -> Kind
    ensures { result ≡ constrained_kind constraints kind }
{
    match kind {
        Kind::Con(container) => Kind::Con(Container {
            hidden: container.hidden,
            constraints,
            entries: container.entries,
            trailers: container.trailers,
        }),
        kind => kind,
    }
}

fn row_with(constraints: Constraints, row: TypeRow) -> TypeRow
    ensures { result ≡ constrained_row constraints row }
{
    TypeRow {
        name: row.name,
        base: row.base,
        kind: kind_with(constraints, row.kind),
    }
}

/// The rows with the constraints of their containers, which are given for each type. Where some are given for fewer types, there are
/// no more rows.
pub fn constrained_rows(
    alloc: Global,
    rows: TypeRows,
    constraints: Items<Constraints>,
) -> Result<TypeRows, Memory>
    ensures each { IfOk result (λ t. t ≡ rows_each constraints rows) }
    ensures constrained { IfOk result (λ t. (lists : Lists) → constraints ≡ map (constraints_for rows lists) (numbers rows) → t ≡ constrained rows lists) }
{
    let mut whole = Items::new(alloc);
    let mut each = constraints.into_vec().into_iter();
    for row in rows.into_vec() {
        match each.next() {
            None => return Ok(whole),
            Some(own) => whole.push(row_with(own, row))?,
        }
    }
    Ok(whole)
}
