//! A plain, slow program of the definitions, for small inputs.
//!
//! Which bits spell a value is a relation, and here it is tried as it stands: a list of bits is cut at all places at
//! which it may be cut into the spellings of a container's parts, and each number of bits with which it begins is tried.
//! Nothing is read from left to right, no number is decoded, and no code of another crate or module is called but that
//! which looks at rows, values and sets. So whoever agrees with this program agrees with the definitions.
//!
//! Which value bits spell is found by trying all values of the type, which `Slow::values` lists for types that have few.

mod checks;
mod fields;
mod numbers;
mod places;
mod relation;
mod scalars;
mod values;

pub(crate) use checks::check_of;
use eds_types::TypeRow;
use std::alloc::Global;
pub(crate) use values::{bits_of, pattern};

/// Whether any spelling counts, or the canonical one alone.
#[derive(Clone, Copy, PartialEq, Eq)]
pub(crate) enum Spelling {
    Any,
    Canonical,
}

/// The program over the rows of a table.
#[derive(Drop)]
pub(crate) struct Slow<'a> {
    alloc: Global,
    rows: &'a [TypeRow],
    spelling: Spelling,
}

impl<'a> Slow<'a> {
    /// Over rows, which may break the rules on types.
    pub(crate) fn of_rows(alloc: Global, rows: &'a [TypeRow], spelling: Spelling) -> Slow<'a> {
        Slow {
            alloc,
            rows,
            spelling,
        }
    }
}
