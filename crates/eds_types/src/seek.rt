//! Where the values of a container stand, and what paths lead to.

ghost use Rattle.std.specs.Prelude.{◌≡◌, ◌≤◌, ◌<◌, ◌+◌, ◌^◌, ◌*◌, length, map, reverse, IfErr, option_map};
ghost use Rattle.std.specs.Option.{option_copied};
ghost use Rattle.eds_types.specs.Fields.{fields_in, paired, value_at};
ghost use Rattle.eds_types.specs.Plain.{plain};
ghost use Rattle.eds_types.specs.Rows.{placed_from, sequence};
ghost use Rattle.eds_types.specs.Seeking.{along, seek, nth, entries_in_turn, trailers_in_turn};

use crate::{Part, TypeTable, Value};
use eds_base::TypeId;

/// Looks for an entry among parts of the container `id`, the first of which has a given place, after so many values.
fn seek_part(
    parts: &[Part],
    id: TypeId,
    first: usize,
    wanted: (TypeId, u16),
    before: usize,
) -> Result<usize, usize>
    requires few { first + length parts.now < 2 ^ 32 }
    requires before { before < 2 ^ 32 }
    ensures place { result ≡ seek (placed_from id.0 first parts.now) before wanted.0.0 wanted.1 }
    ensures few { IfErr result (λ n. n ≤ before + length parts.now) }
{
    let mut n = before;
    for (i, part) in parts.iter().enumerate() {
        if part.has_value() {
            if id.0 == wanted.0.0 && first + i == wanted.1 as usize {
                return Ok(n);
            }
            n += 1;
        }
    }
    Err(n)
}

/// Looks for an entry among the entries of containers.
fn seek_entries(
    table: &TypeTable,
    chain: &[TypeId],
    wanted: (TypeId, u16),
    before: usize,
) -> Result<usize, usize>
    requires few { length chain.now ≤ 16 }
    requires before { before < 2 ^ 31 }
    ensures place { result ≡ seek (entries_in_turn table.now chain.now) before wanted.0.0 wanted.1 }
    ensures few { IfErr result (λ n. n ≤ before + 32767 * length chain.now) }
{
    let mut n = before;
    for id in chain {
        match seek_part(table.entries_of(*id), *id, 0, wanted, n) {
            Ok(place) => return Ok(place),
            Err(more) => n = more,
        }
    }
    Err(n)
}

/// Looks for an entry among the trailers of containers, those of the last container first.
fn seek_trailers(
    table: &TypeTable,
    chain: &[TypeId],
    wanted: (TypeId, u16),
    before: usize,
) -> Result<usize, usize>
    requires few { length chain.now ≤ 16 }
    requires before { before < 2 ^ 31 }
    ensures { result ≡ seek (trailers_in_turn table.now (reverse chain.now)) before wanted.0.0 wanted.1 }
{
    let mut n = before;
    let mut rest = chain;
    while let [front @ .., id] = rest {
        let first = table.entries_of(*id).len();
        match seek_part(table.trailers_of(*id), *id, first, wanted, n) {
            Ok(place) => return Ok(place),
            Err(more) => n = more,
        }
        rest = front;
    }
    Err(n)
}

/// Where the value of a part stands among the values of the container `own`: how many stand before it. The part is told by
/// the container that has it, and its position among that container's entries and then its trailers. Err says that it is
/// no part of `own` with a value, and tells how many of these there are.
pub fn place_of(table: &TypeTable, own: TypeId, wanted: (TypeId, u16)) -> Result<usize, usize>
    ensures { result ≡ seek (sequence table.now own.0) 0 wanted.0.0 wanted.1 }
{
    let chain = table.chain_of(own);
    match seek_entries(table, chain.as_slice(), wanted, 0) {
        Ok(place) => Ok(place),
        Err(n) => seek_trailers(table, chain.as_slice(), wanted, n),
    }
}

/// The value at a place that was found.
fn nth(values: &[Value], place: Result<usize, usize>) -> Option<&Value>
    ensures { option_map plain (option_copied result) ≡ nth (map plain values.now) place }
{
    values.get(place.ok()?)
}

/// The value of a part among the values of the container `own`, None where it is no part of `own` with a value, or the
/// values end before it.
pub fn value_of<'a>(
    table: &TypeTable,
    own: TypeId,
    values: &'a [Value],
    wanted: (TypeId, u16),
) -> Option<&'a Value>
    ensures { option_map plain (option_copied result) ≡ value_at (paired (sequence table.now own.0) (map plain values.now)) wanted.0.0 wanted.1 }
{
    nth(values, place_of(table, own, wanted))
}

/// The value of a part, where a value is the fields of a container.
fn field_of<'a>(
    table: &TypeTable,
    value: Option<&'a Value>,
    wanted: (TypeId, u16),
) -> Option<&'a Value>
    ensures { option_map plain (option_copied result) ≡ value_at (fields_in table.now (option_map plain (option_copied value.entry))) wanted.0.0 wanted.1 }
{
    match value {
        Some(Value::Fields(own, values)) => value_of(table, *own, values.as_slice(), wanted),
        _ => None,
    }
}

/// The value that a path leads to: each step goes on to the value of a part in the fields of the container that was reached.
/// An empty path leads to the value itself. None where there is no value to begin with, or a step finds none.
#[inline(always)]
pub fn value_along<'a>(
    table: &TypeTable,
    value: Option<&'a Value>,
    path: &[(TypeId, u16)],
) -> Option<&'a Value>
    ensures { option_map plain (option_copied result) ≡ along table.now (option_map plain (option_copied value.entry)) path.now }
{
    let mut at = value;
    for wanted in path {
        at = field_of(table, at, *wanted);
    }
    at
}
