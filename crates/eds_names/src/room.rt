//! Bounds on the octets of names.

use eds_base::Memory;

/// Of the names that are joined, how many octets a sheet may keep: 64 MiB. Those of a declared item count twice, since
/// the index has its name too.
pub(crate) const MOST_KEPT: usize = 1 << 26;

/// How many octets all look-ups of a sheet may walk over and join, if each element makes one.
const MOST_READ: usize = 1 << 28;

/// How many octets each look-up may walk over and join, however many elements there are.
const LEAST_READ: usize = 1 << 10;

/// How many octets more of names may be made.
#[derive(Clone, Copy)]
pub(crate) struct Room {
    pub(crate) left: usize,
}

impl Room {
    /// Some octets more; too many find no memory.
    pub(crate) fn take(&mut self, octets: usize) -> Result<(), Memory> {
        self.left = self.left.checked_sub(octets).ok_or(Memory)?;
        Ok(())
    }
}

/// The octets that each look-up may walk over and join, in a sheet of so many elements.
pub(crate) fn most_read(elements: usize) -> usize {
    if elements > MOST_READ / LEAST_READ {
        LEAST_READ
    } else {
        MOST_READ / (elements + 1)
    }
}
