//! The plain program on all short lists of bits.

use crate::slow::{Slow, Spelling, pattern};
use eds_base::{Memory, TypeId};
use eds_types::{TypeRow, Value};
use std::alloc::Global;

/// What was found of a type, of all lists of so many bits at most.
#[derive(Clone, Copy, PartialEq, Eq)]
pub(crate) struct Found {
    /// How many values have a canonical spelling among the lists.
    pub(crate) values: u32,
    /// How many lists spell a value.
    pub(crate) spellings: u32,
    /// How many lists begin with one that spells a value.
    pub(crate) fronts: u32,
    /// How many lists spell two values, and how many values have spellings of two sizes, or no canonical spelling, or
    /// two.
    pub(crate) faults: u32,
}

// What was seen of a value: the size of its spellings, whether they have another one too, and how many of them are
// canonical.
#[derive(Clone, Copy)]
struct Seen {
    size: Option<usize>,
    sizes_differ: bool,
    canonical: u32,
}

impl Seen {
    fn note(&mut self, size: usize, is_canonical: bool) {
        self.sizes_differ = self.sizes_differ || (self.size.is_some() && self.size != Some(size));
        self.size = Some(size);
        if is_canonical {
            self.canonical = self.canonical.wrapping_add(1);
        }
    }
}

/// The number of lists of so many bits, at most of sixteen.
pub(crate) fn lists_of(size: usize) -> u64 {
    1u64 << size.min(16)
}

/// The plain program on a type, and what it has seen of the type's values.
#[derive(Drop)]
struct Trials<'a> {
    alloc: Global,
    any: Slow<'a>,
    canonical: Slow<'a>,
    id: TypeId,
    values: Vec<Value>,
    seen: Vec<Seen>,
}

impl<'a> Trials<'a> {
    fn new(alloc: Global, rows: &'a [TypeRow], id: TypeId) -> Result<Trials<'a>, Memory> {
        let any = Slow::of_rows(alloc, rows, Spelling::Any);
        let values = any.values(id)?;
        let none = Seen {
            size: None,
            sizes_differ: false,
            canonical: 0,
        };
        let seen = vec![in alloc; none; values.len()]?;
        Ok(Trials {
            alloc,
            any,
            canonical: Slow::of_rows(alloc, rows, Spelling::Canonical),
            id,
            values,
            seen,
        })
    }

    // How many of the values the bits spell; these values are noted.
    fn spelled_by(&mut self, bits: &[bool]) -> Result<u32, Memory> {
        let mut count = 0u32;
        for (value, seen) in self.values.iter().zip(self.seen.iter_mut()) {
            if self.any.spells(self.id, value, bits)? {
                count = count.wrapping_add(1);
                seen.note(bits.len(), self.canonical.spells(self.id, value, bits)?);
            }
        }
        Ok(count)
    }

    // Tries all lists of one size, given which of the lists that are a bit shorter begin with a spelling; answers which
    // of these do.
    fn try_size(
        &mut self,
        size: usize,
        shorter: &[bool],
        found: &mut Found,
    ) -> Result<Vec<bool>, Memory> {
        let mut fronts = Vec::new(self.alloc);
        for number in 0..lists_of(size) {
            let bits = pattern(self.alloc, size, number)?;
            let count = self.spelled_by(bits.as_slice())?;
            let begins = count > 0 || shorter.get(number as usize / 2) == Some(&true);
            found.spellings = found.spellings.wrapping_add(u32::from(count > 0));
            found.faults = found.faults.wrapping_add(u32::from(count > 1));
            found.fronts = found.fronts.wrapping_add(u32::from(begins));
            fronts.push(begins)?;
        }
        Ok(fronts)
    }

    // Adds what was seen of the values.
    fn judge(&self, found: &mut Found) {
        for seen in self.seen.iter() {
            if seen.size.is_some() {
                let keeps = seen.canonical == 1 && !seen.sizes_differ;
                found.values = found.values.wrapping_add(1);
                found.faults = found.faults.wrapping_add(u32::from(!keeps));
            }
        }
    }
}

/// What the plain program finds of a type, of all lists of so many bits at most.
pub(crate) fn census(
    alloc: Global,
    rows: &[TypeRow],
    id: TypeId,
    most: usize,
) -> Result<Found, Memory> {
    let mut trials = Trials::new(alloc, rows, id)?;
    let mut found = Found {
        values: 0,
        spellings: 0,
        fronts: 0,
        faults: 0,
    };
    let mut fronts = Vec::new(alloc);
    for size in 0..most.wrapping_add(1) {
        fronts = trials.try_size(size, fronts.as_slice(), &mut found)?;
    }
    trials.judge(&mut found);
    Ok(found)
}
