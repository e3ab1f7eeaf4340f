//! The checks of error controls.

ghost use Rattle.std.specs.Prelude.{◌≡◌, ◌+◌, ◌<◌, ◌^◌, length, IfOk};
ghost use Rattle.eds_bits.specs.Reader.{bits_left};
ghost use Rattle.eds_bits.specs.Scalars.{check_of};
ghost use Rattle.eds_types.specs.Reading.{front};
ghost use Rattle.eds_unpack.specs.Courses.{IsUnderWay, MovesOn, progress_of};

use crate::progress::{Reached, bits_before, bits_between};
use eds_base::Memory;
use eds_bits::{BitReader, CheckKind};
use eds_codec::check_next;

/// The check of the bits from where one reader is to where another is, which moved on from there.
pub(crate) fn sum_of(kind: CheckKind, start: &BitReader<'_>, reader: &BitReader<'_>) -> u64
    requires on { MovesOn (bits_left start.now) (bits_left reader.now) }
    requires few { length (bits_left start.now) < 2 ^ 32 + length (bits_left reader.now) }
    ensures { result ≡ check_of kind (front (bits_left start.now) (bits_left reader.now)) }
{
    check_next(kind, *start, bits_between(start, reader) as u32)
}

/// The check of the bits of the container before those that are left.
pub(crate) fn sum_before(
    kind: CheckKind,
    reached: &Reached<'_>,
    reader: &BitReader<'_>,
) -> Result<u64, Memory>
    requires begun { IsUnderWay reached.now (bits_left reader.now) }
    ensures { IfOk result (λ n. n ≡ check_of kind (progress_of reached.now (bits_left reader.now)).before) }
{
    if bits_before(reached, reader) > u64::from(u32::MAX) {
        return Err(Memory);
    }
    Ok(sum_of(kind, &reached.start, reader))
}
