//! The rule on length entries, and on open binaries, which take their sizes from them.

ghost use Rattle.std.specs.Prelude.{◌≡◌, is_some, map, filter, drop, codes, IfOk};
ghost use Rattle.std.specs.List.{list_any};
ghost use Rattle.eds_base.specs.declared.rule.Rule.TheVariants.{LengthField as length_rule};
ghost use Rattle.eds_base.specs.Refusals.{least};
ghost use Rattle.eds_types.specs.Rows.{number_of_id, chain_within};
ghost use Rattle.eds_types.specs.Sizes.{size_within, kind_size, part_size};
ghost use Rattle.eds_types.specs.Rules.{is_length as is_length_part};
ghost use Rattle.eds_type_rows.specs.Places.{is_element as is_named};
ghost use Rattle.eds_read_types.specs.Breaks.{broken as broken_at};
ghost use Rattle.eds_read_types.specs.LengthField.{is_int as is_int_row, is_base as is_base_of, has_derived as has_derived_row, is_last as is_last_of, tells_length as tells_length_row, lacks_size as lacks_size_row, is_tail as is_tail_of, is_astray as is_astray_of, lengths_at as lengths_of, has_length as has_length_row, has_length_above as has_length_in_chain};

use crate::breaks::{PlaceRule, broken, refusal_where};
use crate::sheet_rows::{
    PartAt, PartRule, RowRule, SheetRows, base_of, entries_of, is_open, trailers_of,
};
use eds_base::{Memory, Place, Refusal, Rule, TypeId};
use eds_tree::Tree;
use eds_type_rows::calibrator::has_scale;
use eds_type_rows::element::is_element;
use eds_type_rows::entry::parts_at;
use eds_type_rows::named_trees::NamedTrees;
use eds_types::{Kind, Part, TypeRows};
use std::alloc::Global;

/// The most types in a chain of bases.
const LONGEST: u32 = 16;

/// The most types that are nested in one another.
const DEEPEST: u32 = 32;

// ---- rows

/// Whether a type is an integer type or a sub-range.
fn is_int(rows: &TypeRows, id: TypeId) -> bool
    ensures { result ≡ is_int_row rows.now id.0 }
{
    rows.get(id.0 as usize)
        .is_some_and(|row| matches!(row.kind, Kind::Int(_, _)))
}

fn is_length(part: &Part) -> bool
    ensures { result ≡ is_length_part part.now }
{
    match part {
        Part::Plain(_, _) => false,
        Part::Fixed(_, _, _) => false,
        Part::Pad(_) => false,
        Part::List(_, _, _, _) => false,
        Part::Length(_, _, _, _) => true,
        Part::Check(_, _, _) => false,
    }
}

/// Whether one of some parts is a length entry.
fn holds_length(parts: &[Part]) -> bool
    ensures { result ≡ list_any is_length_part parts.now }
{
    parts.iter().any(|part| is_length(part))
}

// ---- open binaries

fn is_base(id: usize, other: Option<TypeId>) -> bool
    ensures { result ≡ is_base_of id (number_of_id other) }
{
    other.is_some_and(|other| other.0 as usize == id)
}

/// Whether some type derives from this one.
fn has_derived(rows: &TypeRows, id: usize) -> bool
    ensures { result ≡ has_derived_row rows.now id }
{
    rows.as_slice().iter().any(|row| is_base(id, row.base))
}

/// Whether a length entry stands among the entries of a container.
fn tells_length(rows: &TypeRows, id: usize) -> bool
    ensures { result ≡ tells_length_row rows.now id }
{
    holds_length(entries_of(rows, id))
}

/// Whether one stands among those of a chain, of at most so many types.
fn is_told(rows: &TypeRows, most: u32, id: usize) -> bool
    ensures { result ≡ list_any (tells_length_row rows.now) (chain_within most rows.now id) }
{
    if most == 0 {
        return false;
    }
    if tells_length(rows, id) {
        return true;
    }
    match base_of(rows, id) {
        None => false,
        Some(base) => is_told(rows, most - 1, base.0 as usize),
    }
}

/// Whether all spellings of a type have one size, where at most so many types are nested in each other.
#[cycle(size)]
#[tactic(auto, unfolding(eds_types::specs::Sizes::size_within))]
fn has_size(rows: &TypeRows, depth: u32, id: TypeId) -> bool
    ensures { result ≡ is_some (size_within depth rows.now id.0) }
{
    if depth == 0 {
        return false;
    }
    match rows.get(id.0 as usize) {
        Some(row) => kind_has_size(rows, depth - 1, &row.kind),
        None => false,
    }
}

#[cycle(size)]
#[tactic(auto, using(crate::proofs::NoBreaks::same_presence))]
fn kind_has_size(rows: &TypeRows, depth: u32, kind: &Kind) -> bool
    ensures { result ≡ is_some (kind_size (size_within depth rows.now) kind.now) }
{
    match kind {
        Kind::Int(_, _) => true,
        Kind::Enum(_, _) => true,
        Kind::Bool(_) => true,
        Kind::Str(form) if form.fixed => true,
        Kind::Bin(_, false) => true,
        Kind::Arr(item, _) => has_size(rows, depth, *item),
        _ => false,
    }
}

/// Whether a part has a size.
fn is_sized(rows: &TypeRows, part: &Part) -> bool
    ensures { result ≡ is_some (part_size rows.now part.now) }
{
    match part {
        Part::Plain(_, id) => has_size(rows, DEEPEST, *id),
        Part::Fixed(_, id, _) => has_size(rows, DEEPEST, *id),
        Part::Pad(_) => true,
        Part::List(_, _, _, _) => false,
        Part::Length(_, id, _, _) => has_size(rows, DEEPEST, *id),
        Part::Check(_, id, _) => has_size(rows, DEEPEST, *id),
    }
}

/// Whether a trailer of a container has no size.
fn lacks_size(rows: &TypeRows, id: usize) -> bool
    ensures { result ≡ lacks_size_row rows.now id }
{
    trailers_of(rows, id)
        .iter()
        .any(|part| !is_sized(rows, part))
}

/// Whether one of a chain has none, of at most so many types.
fn is_unsized(rows: &TypeRows, most: u32, id: usize) -> bool
    ensures { result ≡ list_any (lacks_size_row rows.now) (chain_within most rows.now id) }
{
    if most == 0 {
        return false;
    }
    if lacks_size(rows, id) {
        return true;
    }
    match base_of(rows, id) {
        None => false,
        Some(base) => is_unsized(rows, most - 1, base.0 as usize),
    }
}

/// Whether nothing follows a part among the entries of its container.
fn is_last(at: &PartAt) -> bool
    ensures { result ≡ is_last_of at.now.rows.now (record { container = at.now.container; place = at.now.index; part = at.now.part.now }) }
{
    let entries = entries_of(at.rows, at.container).len();
    at.index < entries && at.index + 1 == entries
}

/// Whether a part may be an open binary.
fn is_tail(at: &PartAt) -> bool
    ensures { result ≡ is_tail_of at.now.rows.now (record { container = at.now.container; place = at.now.index; part = at.now.part.now }) }
{
    is_last(at)
        && !has_derived(at.rows, at.container)
        && is_told(at.rows, LONGEST, at.container)
        && !is_unsized(at.rows, LONGEST, at.container)
}

/// Whether the type of a part is an open binary at a wrong place, or no number for a length.
fn is_astray(at: &PartAt) -> bool
    ensures { result ≡ is_astray_of at.now.rows.now (record { container = at.now.container; place = at.now.index; part = at.now.part.now }) at.now.part.now }
{
    match at.part {
        Part::Plain(_, id) => is_open(at.rows, *id) && !is_tail(at),
        Part::Fixed(_, id, _) => is_open(at.rows, *id),
        Part::Pad(_) => false,
        Part::List(_, id, _, _) => is_open(at.rows, *id),
        Part::Length(_, id, _, _) => !is_int(at.rows, *id),
        Part::Check(_, id, _) => is_open(at.rows, *id),
    }
}

/// The type of a length entry is an integer type or a sub-range, and an open binary ends a container whose length is told.
pub(crate) struct LengthField;

impl PartRule for LengthField {
    ghost use Rattle.eds_read_types.specs.LengthField.{length_field_at};

    ghost breaks = { length_field_at };

    fn least_at(_: Global, at: &PartAt) -> Result<Option<Refusal>, Memory> {
        Ok(refusal_where(is_astray(at), Rule::LengthField, at.place))
    }
}

// ---- scales

/// A length entry has a scale.
pub(crate) struct LengthScale;

impl PlaceRule for LengthScale {
    ghost use Rattle.eds_read_types.specs.LengthField.{scale_at};

    ghost breaks = { scale_at };

    fn least_at(alloc: Global, sheet: &NamedTrees, at: Place) -> Result<Option<Refusal>, Memory> {
        if !is_length_entry(sheet.trees, at) {
            return Ok(None);
        }
        let scaled = has_scale(alloc, sheet.trees, at)?;
        Ok(refusal_where(!scaled, Rule::LengthField, at))
    }
}

// ---- one length entry in a chain

fn is_length_entry(trees: &[Tree], at: Place) -> bool
    ensures { result ≡ is_named trees.now (codes "LengthEntry") at }
{
    is_element(trees, "LengthEntry", at)
}

/// The length entries among some parts.
fn lengths_among(alloc: Global, trees: &[Tree], parts: &[Place]) -> Result<Vec<Place>, Memory>
    ensures { IfOk result (λ p. p.items ≡ filter (is_named trees.now (codes "LengthEntry")) parts.now) }
{
    let mut lengths = Vec::new(alloc);
    for at in parts {
        if is_length_entry(trees, *at) {
            lengths.push(*at)?;
        }
    }
    Ok(lengths)
}

/// The length entries of a container in document order.
fn lengths_at(alloc: Global, trees: &[Tree], at: Place) -> Result<Vec<Place>, Memory>
    ensures { IfOk result (λ p. p.items ≡ lengths_of trees.now at) }
{
    let parts = parts_at(alloc, trees, at)?;
    lengths_among(alloc, trees, &parts)
}

/// Whether a part of a container is a length entry.
fn has_length(rows: &TypeRows, id: usize) -> bool
    ensures { result ≡ has_length_row rows.now id }
{
    holds_length(entries_of(rows, id)) || holds_length(trailers_of(rows, id))
}

/// Whether one stands in a chain, of at most so many types.
fn is_measured(rows: &TypeRows, most: u32, id: usize) -> bool
    ensures { result ≡ list_any (has_length_row rows.now) (chain_within most rows.now id) }
{
    if most == 0 {
        return false;
    }
    if has_length(rows, id) {
        return true;
    }
    match base_of(rows, id) {
        None => false,
        Some(base) => is_measured(rows, most - 1, base.0 as usize),
    }
}

/// Whether one stands in the chain of a base.
fn has_length_above(rows: &TypeRows, base: Option<TypeId>) -> bool
    ensures { result ≡ has_length_in_chain rows.now (number_of_id base) }
{
    base.is_some_and(|base| is_measured(rows, LONGEST, base.0 as usize))
}

/// The first refusal of some length entries.
fn least_length(places: &[Place]) -> Option<Refusal>
    ensures { result ≡ least (map (broken_at length_rule) places.now) }
{
    let mut found = None;
    for at in places {
        found = Refusal::first(found, Some(broken(Rule::LengthField, *at)));
    }
    found
}

/// The first refusal of all of some length entries but the first.
fn least_further(places: &[Place]) -> Option<Refusal>
    ensures { result ≡ least (map (broken_at length_rule) (drop 1 places.now)) }
{
    match places {
        [] => None,
        [_, rest @ ..] => least_length(rest),
    }
}

/// A length entry is the only one of its container's chain.
pub(crate) struct SecondLength;

impl RowRule for SecondLength {
    ghost use Rattle.eds_read_types.specs.LengthField.{second_length_at};

    ghost breaks = { second_length_at };

    fn least_at(
        alloc: Global,
        sheet: &SheetRows,
        id: usize,
        at: Place,
    ) -> Result<Option<Refusal>, Memory> {
        let lengths = lengths_at(alloc, sheet.graph.sheet.trees, at)?;
        if has_length_above(sheet.rows, base_of(sheet.rows, id)) {
            Ok(least_length(&lengths))
        } else {
            Ok(least_further(&lengths))
        }
    }
}
