//! A table of elements.

ghost use Rattle.std.specs.Prelude.{◌≡◌, List, true, length, slice_get, option_map};
ghost use Rattle.eds_tree.specs.Rows.{rising, row_of, rows_of, find_row, row_named, ElementRow};

use crate::Row;
use crate::halves::{find_among, row_among};
use std::marker::Model;

/// Descriptions of elements, which stand in five parts one after another, with names strictly rising.
#[derive(Drop)]
pub struct Rows<const N: usize> {
    parts: [&'static [Row]; 5],
}

impl<const N: usize> Model for Rows<N> {
    ghost Value = { List ElementRow };

    ghost view = { λ r. rows_of r.parts };

    ghost invariant = { λ r. (length (rows_of r.parts) ≡ N) × (rising (rows_of r.parts) ≡ true) };
}

impl<const N: usize> Rows<N> {
    /// The rows given.
    pub(crate) fn of(parts: [&'static [Row]; 5]) -> Rows<N>
        requires count { length (rows_of parts) ≡ N }
        requires rising { rising (rows_of parts) ≡ true }
        ensures { result ≡ rows_of parts.entry }
    {
        Rows { parts }
    }

    /// The row of a number.
    pub fn get(&self, i: usize) -> Option<&'static Row>
        ensures { option_map (λ r. row_of r.now) result ≡ slice_get self.now i }
    {
        row_among(&self.parts, i)
    }

    /// The number of the row of a name.
    pub fn find(&self, name: &str) -> Option<usize>
        ensures { result ≡ find_row self.now name.now }
    {
        find_among(&self.parts, N, name)
    }

    /// The row of a name.
    pub fn named(&self, name: &str) -> Option<&'static Row>
        ensures { option_map (λ r. row_of r.now) result ≡ row_named self.now name.now }
    {
        let i = self.find(name)?;
        self.get(i)
    }
}
