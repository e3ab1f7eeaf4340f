//! PackFault a value doesn't pack, and why.

ghost use Rattle.std.specs.Prelude.{◌≡◌, []};
ghost use Rattle.eds_types.specs.Packing.{pack_fault_at};
ghost use Rattle.eds_pack.specs.Packs.{fail_at, no_room as no_room_of};

use eds_base::Path;
use eds_types::PackReason;

/// The first fault of a value that is packed.
#[derive(Drop)]
pub struct PackFail {
    pub reason: PackReason,
    pub path: Path,
    /// The octets that the value needs where the room is too small, else 0.
    pub need: u32,
}

impl PackFail {
    /// A fault at a path.
    pub(crate) fn at(reason: PackReason, path: Path) -> PackFail
        ensures { result ≡ fail_at (pack_fault_at reason path) }
    {
        PackFail {
            reason,
            path,
            need: 0,
        }
    }

    /// The fault of a room that is too small: so many octets are needed.
    pub(crate) fn no_room(octets: u32) -> PackFail
        ensures { result ≡ no_room_of octets }
    {
        PackFail {
            reason: PackReason::Room,
            path: Path::root(),
            need: octets,
        }
    }
}
