//! Reading the entries that a container begins with by its segment.

ghost use Rattle.std.specs.Prelude.{◌≡◌, ◌≤◌, length, drop, IfOk, OnOk};
ghost use Rattle.eds_bits.specs.Reader.{bits_left};
ghost use Rattle.eds_types.specs.Rows.{entries_of};
ghost use Rattle.eds_unpack.specs.Courses.{IsUnderWay, MovesOn, progress_of};
ghost use Rattle.eds_unpack.specs.Segments.{HeadIsPut, ReadsFirst};

use crate::progress::{Reached, keep_first_parts};
use crate::segments::Segments;
use crate::values::put_values;
use eds_base::{Memory, TypeId};
use eds_bits::BitReader;
use eds_types::{Part, TypeTable, Value};
use std::alloc::Global;

/// The parts behind the first ones.
#[inline(always)]
pub(crate) fn behind(parts: &[Part], count: usize) -> &[Part]
    requires { count ≤ length parts.now }
    ensures { result.now ≡ drop count parts.now }
{
    &parts[count..]
}

/// Puts the values of the entries that a container begins with last, by its segment, and says how many these are: none, where the
/// container has no segment, or the segment doesn't tell all of them.
#[inline(always)]
pub(crate) fn put_head(
    alloc: Global,
    table: &TypeTable,
    segments: &Segments<'_>,
    container: TypeId,
    values: &mut Vec<Value>,
    reader: &mut BitReader,
) -> Result<u16, Memory>
    requires { segments.now ≡ table.now }
    ensures few { IfOk result (λ k. k ≤ length (entries_of table.now container.0)) }
    ensures put { IfOk result (λ k. HeadIsPut table.now container.0 k (bits_left reader.old) values.old.items values.new.items (bits_left reader.new)) }
    ensures moves { MovesOn (bits_left reader.old) (bits_left reader.new) }
{
    let Some(head) = segments.head_of(container) else {
        return Ok(0);
    };
    if reader.left() < u64::from(head.bits) {
        return Ok(0);
    }
    if !put_values(alloc, table, head.operations.as_slice(), reader, values)? {
        return Ok(0);
    }
    reader.skip(u64::from(head.bits));
    Ok(head.operations.len() as u16)
}

/// Reads the entries that a container begins with by its segment, as far as that tells their values, keeps these, and says how
/// many entries it has read.
#[inline(always)]
pub(crate) fn read_head(
    alloc: Global,
    table: &TypeTable,
    segments: &Segments<'_>,
    container: TypeId,
    reached: &mut Reached<'_>,
    reader: &mut BitReader,
) -> Result<u16, Memory>
    requires right { segments.now ≡ table.now }
    requires begun { IsUnderWay reached.old (bits_left reader.old) }
    ensures few { IfOk result (λ k. k ≤ length (entries_of table.now container.0)) }
    ensures read { IfOk result (λ k. ReadsFirst table.now container.0 k (progress_of reached.old (bits_left reader.old)) (bits_left reader.old) (progress_of reached.new (bits_left reader.new)) (bits_left reader.new)) }
    ensures begun { OnOk result (IsUnderWay reached.new (bits_left reader.new)) }
{
    let count = put_head(
        alloc,
        table,
        segments,
        container,
        &mut reached.fields.values,
        reader,
    )?;
    keep_first_parts(&mut reached.fields.parts, container, count)?;
    Ok(count)
}
