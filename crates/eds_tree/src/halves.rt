//! Looking up in rows that stand in parts.

ghost use Rattle.std.specs.Prelude.{◌≡◌, true, length, slice_get, option_map};
ghost use Rattle.eds_tree.specs.Rows.{rising, row_of, rows_of, find_row};

use crate::Row;

/// The row of a number.
pub(crate) fn row_among(parts: &[&'static [Row]], i: usize) -> Option<&'static Row>
    ensures { option_map (λ r. row_of r.now) result ≡ slice_get (rows_of parts.now) i }
{
    let mut left = i;
    let mut rest = parts;
    while let [part, after @ ..] = rest {
        if left < part.len() {
            return part.get(left);
        }
        left -= part.len();
        rest = after;
    }
    None
}

/// The number of the row of a name, found by halves.
pub(crate) fn find_among(parts: &[&'static [Row]], count: usize, name: &str) -> Option<usize>
    requires counted { length (rows_of parts.now) ≡ count }
    requires rising { rising (rows_of parts.now) ≡ true }
    ensures { result ≡ find_row (rows_of parts.now) name.now }
{
    let mut low = 0;
    let mut high = count;
    while low < high {
        let middle = low + (high - low) / 2;
        let row = row_among(parts, middle)?;
        let here = row.name;
        if here == name {
            return Some(middle);
        }
        if here < name {
            low = middle + 1;
        } else {
            high = middle;
        }
    }
    None
}
