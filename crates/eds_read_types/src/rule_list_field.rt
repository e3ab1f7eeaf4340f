//! The rule on the entry that tells the number of a list's items.

ghost use Rattle.std.specs.Prelude.{◌≡◌, slice_get};
ghost use Rattle.eds_read_types.specs.ListField.{has_negative as has_negative_in, counts_by as counts_by_kind, counts_in, is_count as is_count_of, stands_before as stands_before_at, may_tell, is_told as is_told_at};
ghost use Rattle.eds_types.specs.Rows.{chain, list_has};
ghost use Rattle.std.specs.Option.{option_copied};

use crate::breaks::broken;
use crate::sheet_rows::{PartAt, PartRule, base_of, entries_of, part_of};
use eds_base::{Memory, Refusal, Rule, Span, TypeId};
use eds_types::{Kind, Part, TypeRows};
use std::alloc::Global;

/// Whether a number among these is negative.
fn has_negative(spans: &[Span]) -> bool
    ensures { result ≡ has_negative_in spans.now }
{
    spans.iter().any(|span| span.low < 0)
}

/// Whether a kind is an integer type or a sub-range without negative numbers.
fn counts_by(kind: &Kind) -> bool
    ensures { result ≡ counts_by_kind kind.now }
{
    match kind {
        Kind::Int(_, spans) => !has_negative(spans.as_slice()),
        Kind::Enum(_, _) => false,
        Kind::Bool(_) => false,
        Kind::Str(_) => false,
        Kind::Bin(_, _) => false,
        Kind::Arr(_, _) => false,
        Kind::Con(_) => false,
    }
}

/// The same of the type of a number.
fn counts(rows: &TypeRows, id: TypeId) -> bool
    ensures { result ≡ counts_in (slice_get rows.now id.0) }
{
    rows.get(id.0 as usize)
        .is_some_and(|row| counts_by(&row.kind))
}

/// Whether a part is an entry of such a type.
fn is_count(rows: &TypeRows, part: Option<&Part>) -> bool
    ensures { result ≡ is_count_of rows.now (option_copied part.entry) }
{
    match part {
        None => false,
        Some(part) => match part {
            Part::Plain(_, id) => counts(rows, *id),
            Part::Fixed(_, _, _) => false,
            Part::Pad(_) => false,
            Part::List(_, _, _, _) => false,
            Part::Length(_, _, _, _) => false,
            Part::Check(_, _, _) => false,
        },
    }
}

/// Whether a type is another one, or one of its bases.
fn is_at_or_above(rows: &TypeRows, upper: usize, id: usize) -> bool
    ensures { result ≡ list_has (chain rows.now id) upper }
{
    let mut at = id;
    let mut left: usize = 16;
    while left > 0 {
        if at == upper {
            return true;
        }
        match base_of(rows, at) {
            None => return false,
            Some(base) => at = base.0 as usize,
        }
        left -= 1;
    }
    false
}

/// Whether the part of a position in a container stands before another.
fn stands_before(rows: &TypeRows, y: TypeId, field: u16, container: usize, place: usize) -> bool
    ensures { result ≡ stands_before_at rows.now y.0 field container place }
{
    let upper = y.0 as usize;
    if upper == container {
        (field as usize) < place
    } else {
        is_at_or_above(rows, upper, container)
    }
}

/// The part of a position in a container, among those that may stand before a list of some container.
fn telling_part(rows: &TypeRows, y: usize, container: usize, index: usize) -> Option<&Part>
    ensures { option_copied result ≡ slice_get (may_tell rows.now y container) index }
{
    if y == container {
        part_of(rows, y, index)
    } else {
        entries_of(rows, y).get(index)
    }
}

/// Whether the part of a position in a container is an entry that counts, and stands before a part.
fn is_told(rows: &TypeRows, y: TypeId, field: u16, container: usize, place: usize) -> bool
    ensures { result ≡ is_told_at rows.now y.0 field container place }
{
    stands_before(rows, y, field, container, place)
        && is_count(
            rows,
            telling_part(rows, y.0 as usize, container, field as usize),
        )
}

/// The number of a list's items is told by an entry before it, whose type has no negative numbers.
pub(crate) struct ListField;

impl PartRule for ListField {
    ghost use Rattle.eds_read_types.specs.ListField.{list_field_at};

    ghost breaks = { list_field_at };

    fn least_at(_: Global, at: &PartAt) -> Result<Option<Refusal>, Memory> {
        match at.part {
            Part::Plain(_, _) => Ok(None),
            Part::Fixed(_, _, _) => Ok(None),
            Part::Pad(_) => Ok(None),
            Part::List(_, _, y, field) => {
                if is_told(at.rows, *y, *field, at.container, at.index) {
                    Ok(None)
                } else {
                    Ok(Some(broken(Rule::ListField, at.place)))
                }
            }
            Part::Length(_, _, _, _) => Ok(None),
            Part::Check(_, _, _) => Ok(None),
        }
    }
}
