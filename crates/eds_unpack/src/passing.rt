//! Passing over a container by its segment.

ghost use Rattle.std.specs.Prelude.{◌≡◌, ◌+◌, ◌≤◌, Ok, true, length, IfSome};
ghost use Rattle.std.specs.List.{All};
ghost use Rattle.eds_bits.specs.Bits.{bits_of};
ghost use Rattle.eds_bits.specs.Reader.{bits_left, view_bits};
ghost use Rattle.eds_overlap.specs.Laws.{read_type};
ghost use Rattle.eds_types.specs.Plain.{Plain};
ghost use Rattle.eds_unpack.specs.Readers.{sized};
ghost use Rattle.eds_unpack.specs.Segments.{HasValue, IsOperation};
ghost use Rattle.eds_unpack.specs.Walks.{type_of};

use crate::meaning::scalar_at;
use crate::segment::Operation;
use crate::segments::Segments;
use crate::values::{number_of_bits, octets_left};
use eds_base::TypeId;
use eds_bits::{BitReader, BitView};
use eds_types::TypeTable;

/// Whether the bits of an operation have a value. They are looked at only where they may have none.
#[inline(always)]
fn passes(table: &TypeTable, operation: &Operation, octets: &[u8], reader: &BitReader<'_>) -> bool
    requires is { IsOperation table.now operation.now }
    requires octets { 8 ≤ length octets.now → bits_left reader.now ≡ bits_of octets.now }
    requires enough { operation.now.at + operation.now.bits ≤ length (bits_left reader.now) }
    ensures { result ≡ true → HasValue table.now (bits_left reader.now) operation.now }
{
    if operation.sure {
        return true;
    }
    let number = number_of_bits(operation, octets, reader);
    scalar_at(table, operation, number).is_some()
}

/// Whether the bits of each operation have a value.
fn have_values(table: &TypeTable, operations: &[Operation], reader: &BitReader<'_>) -> bool
    requires are { All (IsOperation table.now) operations.now }
    requires within { All (λ o. o.at + o.bits ≤ length (bits_left reader.now)) operations.now }
    ensures { result ≡ true → All (HasValue table.now (bits_left reader.now)) operations.now }
{
    let octets = octets_left(reader);
    for operation in operations {
        if !passes(table, operation, octets, reader) {
            return false;
        }
    }
    true
}

/// How many bits the value of a container has with which a view begins, by the container's segment. None, where it has none, or
/// the segment doesn't tell.
pub(crate) fn pass_by_segment(
    table: &TypeTable,
    segments: &Segments<'_>,
    id: TypeId,
    view: BitView,
) -> Option<u32>
    requires { segments.now ≡ table.now }
    ensures { IfSome result (λ n. (v : Plain) × (sized (view_bits view.entry) (read_type table.now id.0 (view_bits view.entry)) ≡ Ok (v, n)) × (type_of id.0 v ≡ id.0)) }
{
    table.keeps_rules();
    let segment = segments.find(id)?;
    let reader = BitReader::new(view);
    if reader.left() < u64::from(segment.bits) {
        return None;
    }
    if have_values(table, segment.operations.as_slice(), &reader) {
        Some(segment.bits)
    } else {
        None
    }
}
