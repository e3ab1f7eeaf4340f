//! Sequences of the parts of containers.

ghost use Rattle.std.specs.Prelude.{◌≡◌, ◌+◌, ◌^◌, ◌<◌, ◌++◌, length, map, OnOk};
ghost use Rattle.eds_types.specs.Rows.{address, placed_from};

use crate::Part;
use eds_base::{Items, Memory, TypeId};

/// Where the parts of a container stand, in the order of their bits: for each part the container that has it, and its
/// position among that container's entries and then its trailers.
pub type Sequence = Items<(TypeId, u16)>;

/// Puts the places of a container's parts last, the first of which has a given position.
pub(crate) fn push_places(
    sequence: &mut Sequence,
    id: TypeId,
    first: u16,
    parts: &[Part],
) -> Result<(), Memory>
    requires { first + length parts.now < 2 ^ 16 }
    ensures { OnOk result (sequence.new ≡ sequence.old ++ map address (placed_from id.0 first parts.now)) }
{
    for (i, _) in parts.iter().enumerate() {
        sequence.push((id, first + i as u16))?;
    }
    Ok(())
}
