//! Rules that are judged over the rows of a sheet: at each type, and at each part of its container.

ghost use Rattle.std.specs.Prelude.{◌≡◌, List, ℕ, Some, is_some, IfOk, IfSome, slice_get};
ghost use Rattle.std.specs.Option.{option_copied};
ghost use Rattle.eds_base.specs.declared.ids.Place.{Place as place};
ghost use Rattle.eds_base.specs.declared.refusal.Refusal.{Refusal as refusal};
ghost use Rattle.eds_base.specs.Refusals.{least};
ghost use Rattle.eds_tree.specs.declared.tree.Node.{Node as node};
ghost use Rattle.eds_types.specs.Sizes.{open_of};
ghost use Rattle.eds_types.specs.Rows.{Table, Placed, base_of as base_in, number_of_id, container_of, entries_in, trailers_in};
ghost use Rattle.eds_read_types.specs.Breaks.{breaks_over};
ghost use Rattle.eds_type_rows.specs.FixedValues.{AreRead, kind_set};
ghost use Rattle.eds_type_rows.specs.TableRows.{table_rows};
ghost use Rattle.eds_nesting.specs.Families.{families as families_of, nesting as nesting_of, family_sizes as family_sizes_of, endless_met as endless_met_of};
ghost use Rattle.eds_read_types.specs.Parts.{parts_in, judged_part, judged_parts};
ghost use Rattle.eds_read_types.specs.LimitFamily.{family_size};
ghost use Rattle.eds_read_types.specs.PartNames.{AreNames};
ghost use Rattle.eds_read_types.specs.Nesting.{course_of, meets_base_cycle};

use crate::part_names::Names;
use eds_base::{Memory, Place, Refusal, TypeId};
use eds_graph::Course;
use eds_type_rows::base_graph::BaseGraph;
use eds_type_rows::entry::own_parts_at;
use eds_type_rows::value_kind::ValueKind;
use eds_types::{Kind, Part, TypeRows};
use std::alloc::Global;
use std::marker::PhantomData;

/// A sheet, what its types derive from, a row for each type, and how the types hold one another.
#[derive(Drop)]
pub(crate) struct SheetRows<'a> {
    pub(crate) graph: &'a BaseGraph<'a>,
    pub(crate) rows: &'a TypeRows,
    /// For each type where the ways go on which its family holds others.
    pub(crate) nesting: &'a [Course],
    /// For each type whether its family has bases that go in a circle, or reaches one that has.
    pub(crate) endless: &'a [bool],
    /// For each type how many containers its family has.
    pub(crate) sizes: &'a [usize],
    /// The kind of each type that a fixed value names, if it is neither an array nor a container.
    pub(crate) kinds: &'a [Option<ValueKind>],
    /// The names of the parts of each type from which another derives.
    pub(crate) names: &'a [Names],
    ghost read: { rows.now ≡ table_rows graph.now.sheet.now.trees.now graph.now.sheet.now.space.now },
    ghost nested: { nesting.now ≡ nesting_of rows.now (families_of rows.now) },
    ghost met: { endless.now ≡ endless_met_of rows.now (families_of rows.now) },
    ghost sized: { sizes.now ≡ family_sizes_of rows.now (families_of rows.now) },
    ghost valued: { AreRead graph.now.sheet.now.trees.now graph.now.sheet.now.space.now kinds.now } by { Prim.hlevel kind_set },
    ghost named: { AreNames rows.now names.now },
}

impl<'a> SheetRows<'a> {
    /// Where the ways go on which the family of a type holds others.
    pub(crate) fn course_of(&self, id: usize) -> Course
        ensures { result ≡ course_of self.now.rows.now id }
    {
        self.nesting.get(id).copied().unwrap_or(Course::Ends(1))
    }

    /// How many containers the family of a type has.
    pub(crate) fn family_size(&self, id: usize) -> usize
        ensures { result ≡ family_size self.now.rows.now id }
    {
        self.sizes.get(id).copied().unwrap_or(0)
    }

    /// Whether the family of a type has bases that go in a circle, or reaches one that has.
    pub(crate) fn meets_base_cycle(&self, id: usize) -> bool
        ensures { result ≡ meets_base_cycle self.now.rows.now id }
    {
        self.endless.get(id).copied().unwrap_or(false)
    }
}

/// A rule that is judged at one type at a time, by its number and its place.
pub(crate) trait RowRule {
    /// All that breaks it at a type, of which the trees and the rows of all types are given.
    ghost breaks: { List (List node) → Table → ℕ → place → List refusal };

    /// The least of them.
    fn least_at(
        alloc: Global,
        sheet: &SheetRows,
        id: usize,
        at: Place,
    ) -> Result<Option<Refusal>, Memory>
        ensures { IfOk result (λ r. r ≡ least (breaks sheet.now.graph.now.sheet.now.trees.now sheet.now.rows.now id at)) };
}

/// The least break of a rule at all types.
pub(crate) fn least_over_rows<R: RowRule>(
    alloc: Global,
    sheet: &SheetRows,
) -> Result<Option<Refusal>, Memory>
    ensures { IfOk result (λ r. r ≡ least (breaks_over (R.breaks sheet.now.graph.now.sheet.now.trees.now sheet.now.rows.now) 0 sheet.now.graph.now.sheet.now.types.now)) }
{
    let types = sheet.graph.sheet.types;
    let mut found = None;
    for id in 0..types.len() {
        let here = R::least_at(alloc, sheet, id, types[id])?;
        found = Refusal::first(found, here);
    }
    Ok(found)
}

// ---- the types of parts

/// Whether a type is an open binary.
pub(crate) fn is_open(rows: &TypeRows, id: TypeId) -> bool
    ensures { result ≡ is_some (open_of rows.now id.0) }
{
    match rows.get(id.0 as usize) {
        None => false,
        Some(row) => match &row.kind {
            Kind::Bin(_, open) => *open,
            _ => false,
        },
    }
}

// ---- at each part

/// A part of a container: the container's number, the part's position, and the place of its element.
#[derive(Drop)]
pub(crate) struct PartAt<'a> {
    pub(crate) rows: &'a TypeRows,
    pub(crate) container: usize,
    pub(crate) index: usize,
    pub(crate) part: &'a Part,
    pub(crate) place: Place,
}

/// A rule that is judged at one part of a container at a time.
pub(crate) trait PartRule {
    /// All that breaks it at a part, of which the rows of all types and the place of its element are given.
    ghost breaks: { Table → Placed → place → List refusal };

    /// The least of them.
    fn least_at(alloc: Global, at: &PartAt) -> Result<Option<Refusal>, Memory>
        ensures { IfOk result (λ r. r ≡ least (breaks at.now.rows.now (record { container = at.now.container; place = at.now.index; part = at.now.part.now }) at.now.place)) };
}

/// The type that a type derives from.
pub(crate) fn base_of(rows: &TypeRows, id: usize) -> Option<TypeId>
    ensures { number_of_id result ≡ base_in rows.now id }
{
    rows.get(id)?.base
}

/// The entries of a type, none where it is no container.
pub(crate) fn entries_of(rows: &TypeRows, id: usize) -> &[Part]
    ensures { result.now ≡ entries_in (container_of rows.now id) }
{
    match rows.get(id) {
        None => &[],
        Some(row) => match &row.kind {
            Kind::Con(container) => container.entries.as_slice(),
            _ => &[],
        },
    }
}

/// Its trailers.
pub(crate) fn trailers_of(rows: &TypeRows, id: usize) -> &[Part]
    ensures { result.now ≡ trailers_in (container_of rows.now id) }
{
    match rows.get(id) {
        None => &[],
        Some(row) => match &row.kind {
            Kind::Con(container) => container.trailers.as_slice(),
            _ => &[],
        },
    }
}

/// A part of a type, by its position among the entries and then the trailers.
pub(crate) fn part_of(rows: &TypeRows, id: usize, index: usize) -> Option<&Part>
    ensures { option_copied result ≡ slice_get (parts_in (container_of rows.now id)) index }
{
    let entries = entries_of(rows, id);
    if index < entries.len() {
        entries.get(index)
    } else {
        trailers_of(rows, id).get(index - entries.len())
    }
}

fn least_part<R: PartRule>(
    alloc: Global,
    rows: &TypeRows,
    container: usize,
    index: usize,
    place: Place,
) -> Result<Option<Refusal>, Memory>
    ensures { IfOk result (λ r. r ≡ least (judged_part R.breaks rows.now container index place)) }
{
    match part_of(rows, container, index) {
        None => Ok(None),
        Some(part) => R::least_at(
            alloc,
            &PartAt {
                rows,
                container,
                index,
                part,
                place,
            },
        ),
    }
}

fn least_over_parts<R: PartRule>(
    alloc: Global,
    rows: &TypeRows,
    container: usize,
    places: &[Place],
) -> Result<Option<Refusal>, Memory>
    ensures { IfOk result (λ r. r ≡ least (breaks_over (judged_part R.breaks rows.now container) 0 places.now)) }
{
    let mut found = None;
    for index in 0..places.len() {
        let here = least_part::<R>(alloc, rows, container, index, places[index])?;
        found = Refusal::first(found, here);
    }
    Ok(found)
}

/// A rule that is judged at the parts of a type.
pub(crate) struct AtParts<R>(PhantomData<R>);

impl<R: PartRule> RowRule for AtParts<R> {
    ghost use Rattle.eds_read_types.specs.Parts.{judged_parts};

    ghost breaks = { judged_parts R.breaks };

    fn least_at(
        alloc: Global,
        sheet: &SheetRows,
        id: usize,
        at: Place,
    ) -> Result<Option<Refusal>, Memory> {
        let places = own_parts_at(alloc, sheet.graph.sheet.trees, at)?;
        least_over_parts::<R>(alloc, sheet.rows, id, &places)
    }
}
