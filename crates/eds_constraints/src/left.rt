//! What the constraints of a chain leave on their paths, and those that leave nothing.

ghost use Rattle.std.specs.Prelude.{◌≡◌, ◌++◌, List, [], ◌∷◌, map, length, slice_get, IfOk, OnOk};
ghost use Rattle.std.specs.Option.{option_copied};
ghost use Rattle.std.specs.List.{flat_map};
ghost use Rattle.eds_base.specs.Refusals.{least};
ghost use Rattle.eds_names.specs.Positions.{place_among};
ghost use Rattle.eds_types.specs.Rows.{chain_within, number_of_id};
ghost use Rattle.eds_constraints.specs.Breaks.{Posed, posed_by, posed_of, some_of as some_of_set, left_by as left_by_set, left_on, is_emptied as is_emptied_set, empty_by, empty_at, empties_after, empties_of, breaks_empty};
ghost use Rattle.eds_constraints.specs.ConstrainedRows.{AreRead};
ghost use Rattle.eds_constraints.specs.Lefts.{path_of, every_number_on, left_on_path, posed_over, IsPlaced, IsLeft, IsLeftOf, AreAllLeft, RiseIn, AreRising};

use crate::asked::Asked;
use crate::asked_rows::AskedRows;
use crate::breaks::broken;
use crate::sets::{all_numbers, met};
use eds_base::{Items, Memory, Refusal, Rule, Spans, Text, TypeId};
use eds_domains::rises;
use eds_names::NameList;
use eds_types::{Kind, TypeRow};
use std::alloc::Global;

/// The paths of a container's constraints, and what is left on each, at the place of the first constraint on it.
#[derive(Drop)]
pub(crate) struct Left {
    pub(crate) paths: NameList,
    pub(crate) states: Items<Option<Spans>>,
}

fn some_of(set: Spans) -> Option<Spans>
    ensures { result ≡ some_of_set set }
{
    if set.len() == 0 { None } else { Some(set) }
}

// What is left behind one more constraint, by what it admits.
fn left_by(
    alloc: Global,
    left: &Option<Spans>,
    set: &Option<Spans>,
) -> Result<Option<Spans>, Memory>
    ensures { IfOk result (λ l. l ≡ left_by_set left.now set.now) }
{
    match left {
        None => Ok(None),
        Some(left) => match set {
            None => Ok(None),
            Some(set) => Ok(some_of(met(alloc, left, set)?)),
        },
    }
}

// Whether it leaves none of the numbers that were left.
fn is_emptied(left: &Option<Spans>, set: &Option<Spans>, after: &Option<Spans>) -> bool
    requires { after.now ≡ left_by_set left.now set.now }
    ensures { result ≡ is_emptied_set left.now set.now }
{
    left.is_some() && (set.is_some() && after.is_none())
}

fn empty_one(emptied: bool, asked: &Asked) -> Option<Refusal>
    ensures { result ≡ least (empty_by emptied asked.now) }
{
    if emptied {
        Some(broken(Rule::ConstraintEmpty, asked))
    } else {
        None
    }
}

// What is left on the path of one more constraint, and whether it leaves nothing.
fn put_one(
    alloc: Global,
    rows: &AskedRows,
    base: Option<TypeId>,
    paths: &NameList,
    states: &mut Items<Option<Spans>>,
    one: &Asked,
) -> Result<Option<Refusal>, Memory>
    requires read { AreRead rows.now.rows.now }
    requires there { IsPlaced paths.now one.now.path (length states.old) }
    ensures size { OnOk result (length states.new ≡ length states.old) }
    ensures least { IfOk result (λ r. (before : List Posed) → IsLeft rows.now.rows.now paths.now before states.old → r ≡ least (empty_at rows.now.rows.now before (posed_by (number_of_id base) one.now))) }
    ensures left { OnOk result ((before : List Posed) → IsLeft rows.now.rows.now paths.now before states.old → IsLeft rows.now.rows.now paths.now (before ++ posed_by (number_of_id base) one.now ∷ []) states.new) }
{
    let Some(at) = paths.position(one.path.as_str()) else {
        return Ok(None);
    };
    let set = rows.admitted(alloc, base, one)?;
    let after = left_by(alloc, &states.as_slice()[at], &set)?;
    let emptied = is_emptied(&states.as_slice()[at], &set, &after);
    states.set(at, after);
    Ok(empty_one(emptied, one))
}

// Goes on over the constraints of a container, of which the paths are given: what is left on these, and the least that leaves
// nothing.
fn go_on(
    alloc: Global,
    rows: &AskedRows,
    base: Option<TypeId>,
    asked: &[Asked],
    paths: &NameList,
    states: &mut Items<Option<Spans>>,
) -> Result<Option<Refusal>, Memory>
    requires read { AreRead rows.now.rows.now }
    requires paths { paths.now ≡ map path_of asked.now }
    requires size { length states.old ≡ length asked.now }
    ensures size { OnOk result (length states.new ≡ length states.old) }
    ensures least { IfOk result (λ r. (before : List Posed) → IsLeft rows.now.rows.now paths.now before states.old → r ≡ least (empties_after rows.now.rows.now before (map (posed_by (number_of_id base)) asked.now))) }
    ensures left { OnOk result ((before : List Posed) → IsLeft rows.now.rows.now paths.now before states.old → IsLeft rows.now.rows.now paths.now (before ++ map (posed_by (number_of_id base)) asked.now) states.new) }
{
    let mut found = None;
    for one in asked {
        let here = put_one(alloc, rows, base, paths, states, one)?;
        found = Refusal::first(found, here);
    }
    Ok(found)
}

// ---- what is left in a container by its own constraints

fn own_paths(alloc: Global, asked: &[Asked]) -> Result<NameList, Memory>
    ensures { IfOk result (λ l. l ≡ map path_of asked.now) }
{
    let mut paths = Vec::new(alloc);
    for one in asked {
        paths.push(Text::of(alloc, one.path.as_str())?)?;
    }
    NameList::of(alloc, paths)
}

// Every number on each path.
fn fresh(alloc: Global, asked: &[Asked]) -> Result<Items<Option<Spans>>, Memory>
    ensures { IfOk result (λ s. s ≡ map every_number_on asked.now) }
{
    let mut states = Items::new(alloc);
    for _one in asked {
        states.push(Some(all_numbers(alloc)?))?;
    }
    Ok(states)
}

// Goes on over the constraints of a container where no refusal is asked for: what is left on their paths.
fn leave(
    alloc: Global,
    rows: &AskedRows,
    base: Option<TypeId>,
    asked: &[Asked],
    paths: &NameList,
    states: &mut Items<Option<Spans>>,
) -> Result<(), Memory>
    requires read { AreRead rows.now.rows.now }
    requires paths { paths.now ≡ map path_of asked.now }
    requires size { length states.old ≡ length asked.now }
    ensures size { OnOk result (length states.new ≡ length states.old) }
    ensures left { OnOk result ((before : List Posed) → IsLeft rows.now.rows.now paths.now before states.old → IsLeft rows.now.rows.now paths.now (before ++ map (posed_by (number_of_id base)) asked.now) states.new) }
{
    let _unjudged = go_on(alloc, rows, base, asked, paths, states)?;
    Ok(())
}

fn own_left(alloc: Global, rows: &AskedRows, id: TypeId) -> Result<Left, Memory>
    requires { AreRead rows.now.rows.now }
    ensures { IfOk result (λ l. IsLeftOf rows.now.rows.now rows.now.lists.now id.0 l) }
{
    let asked = rows.asked_of(id.0 as usize);
    let base = rows.base_of(id);
    let paths = own_paths(alloc, asked)?;
    let mut states = fresh(alloc, asked)?;
    leave(alloc, rows, base, asked, &paths, &mut states)?;
    Ok(Left { paths, states })
}

pub(crate) fn all_lefts(alloc: Global, rows: &AskedRows) -> Result<Items<Left>, Memory>
    requires { AreRead rows.now.rows.now }
    ensures { IfOk result (λ l. AreAllLeft rows.now.rows.now rows.now.lists.now l) }
{
    let mut lefts = Items::new(alloc);
    for id in 0..rows.lists.len() {
        lefts.push(own_left(alloc, rows, TypeId(id as u32))?)?;
    }
    Ok(lefts)
}

// ---- along a chain

fn left_at(lefts: &[Left], id: TypeId) -> Option<&Left>
    ensures { option_copied result ≡ slice_get lefts.now id.0 }
{
    lefts.get(id.0 as usize)
}

// What is left on a path behind the constraints of one container more.
fn left_with(
    alloc: Global,
    rows: &AskedRows,
    lefts: &[Left],
    above: Option<Spans>,
    id: TypeId,
    path: &str,
) -> Result<Option<Spans>, Memory>
    requires read { AreRead rows.now.rows.now }
    requires rise { AreRising rows.now.rows.now }
    requires lefts { AreAllLeft rows.now.rows.now rows.now.lists.now lefts.now }
    ensures { IfOk result (λ l. (cs : List Posed) → above ≡ left_on rows.now.rows.now path.now cs → l ≡ left_on rows.now.rows.now path.now (cs ++ posed_of rows.now.rows.now rows.now.lists.now id.0)) }
{
    match left_at(lefts, id) {
        None => Ok(above),
        Some(own) => match own.paths.position(path) {
            None => Ok(above),
            Some(at) => match own.states.get(at) {
                None => Ok(above),
                Some(left) => left_by(alloc, &above, left),
            },
        },
    }
}

// What is left on a path by the last containers of a chain.
fn left_along(
    alloc: Global,
    rows: &AskedRows,
    lefts: &[Left],
    most: u32,
    id: TypeId,
    path: &str,
) -> Result<Option<Spans>, Memory>
    requires read { AreRead rows.now.rows.now }
    requires rise { AreRising rows.now.rows.now }
    requires lefts { AreAllLeft rows.now.rows.now rows.now.lists.now lefts.now }
    ensures { IfOk result (λ l. l ≡ left_on rows.now.rows.now path.now (flat_map (posed_of rows.now.rows.now rows.now.lists.now) (chain_within most rows.now.rows.now id.0))) }
{
    if most == 0 {
        return Ok(Some(all_numbers(alloc)?));
    }
    match rows.base_of(id) {
        None => {
            let all = all_numbers(alloc)?;
            left_with(alloc, rows, lefts, Some(all), id, path)
        }
        Some(base) => {
            let above = left_along(alloc, rows, lefts, most - 1, base, path)?;
            left_with(alloc, rows, lefts, above, id, path)
        }
    }
}

// What the constraints of the bases of a container leave on a path.
fn left_above(
    alloc: Global,
    rows: &AskedRows,
    lefts: &[Left],
    base: Option<TypeId>,
    path: &str,
) -> Result<Option<Spans>, Memory>
    requires read { AreRead rows.now.rows.now }
    requires rise { AreRising rows.now.rows.now }
    requires lefts { AreAllLeft rows.now.rows.now rows.now.lists.now lefts.now }
    ensures { IfOk result (λ l. l ≡ left_on rows.now.rows.now path.now (posed_over rows.now.rows.now rows.now.lists.now (number_of_id base))) }
{
    match base {
        None => Ok(Some(all_numbers(alloc)?)),
        Some(base) => left_along(alloc, rows, lefts, 15, base, path),
    }
}

fn seeds(
    alloc: Global,
    rows: &AskedRows,
    lefts: &[Left],
    base: Option<TypeId>,
    asked: &[Asked],
) -> Result<Items<Option<Spans>>, Memory>
    requires read { AreRead rows.now.rows.now }
    requires rise { AreRising rows.now.rows.now }
    requires lefts { AreAllLeft rows.now.rows.now rows.now.lists.now lefts.now }
    ensures { IfOk result (λ s. s ≡ map (left_on_path rows.now.rows.now (posed_over rows.now.rows.now rows.now.lists.now (number_of_id base))) asked.now) }
{
    let mut states = Items::new(alloc);
    for one in asked {
        states.push(left_above(alloc, rows, lefts, base, one.path.as_str())?)?;
    }
    Ok(states)
}

// ---- the rule

// The least constraint of a container that leaves nothing.
pub(crate) fn least_empty(
    alloc: Global,
    rows: &AskedRows,
    lefts: &[Left],
    id: TypeId,
) -> Result<Option<Refusal>, Memory>
    requires read { AreRead rows.now.rows.now }
    requires rise { AreRising rows.now.rows.now }
    requires lefts { AreAllLeft rows.now.rows.now rows.now.lists.now lefts.now }
    ensures { IfOk result (λ r. r ≡ least (empties_of rows.now.rows.now rows.now.lists.now id.0)) }
{
    let asked = rows.asked_of(id.0 as usize);
    let base = rows.base_of(id);
    let paths = own_paths(alloc, asked)?;
    let mut states = seeds(alloc, rows, lefts, base, asked)?;
    go_on(alloc, rows, base, asked, &paths, &mut states)
}

fn kind_rises(kind: &Kind)
    ensures { RiseIn kind.now }
{
    match kind {
        Kind::Int(_, spans) => rises(spans),
        _ => {}
    }
}

pub(crate) fn rows_rise(rows: &[TypeRow])
    ensures { AreRising rows.now }
{
    for row in rows {
        kind_rises(&row.kind);
    }
}

/// The least constraint that leaves no number: the numbers of its entry's domain that all constraints of the chain with the same
/// path admit, from the root down to this one, are none. Nothing is judged behind a constraint on that path that is refused.
pub fn constraint_empty(alloc: Global, rows: &AskedRows) -> Result<Option<Refusal>, Memory>
    requires { AreRead rows.now.rows.now }
    ensures { IfOk result (λ r. r ≡ least (breaks_empty rows.now.rows.now rows.now.lists.now)) }
{
    rows_rise(rows.rows);
    let lefts = all_lefts(alloc, rows)?;
    let mut found = None;
    for id in 0..rows.rows.len() {
        let here = least_empty(alloc, rows, lefts.as_slice(), TypeId(id as u32))?;
        found = Refusal::first(found, here);
    }
    Ok(found)
}
