//! The limit on how many items an array has.

ghost use Rattle.std.specs.Prelude.{◌≡◌, slice_get};
ghost use Rattle.eds_read_types.specs.LimitItems.{is_too_large as is_too_large_in};

use crate::breaks::broken_with;
use crate::sheet_rows::{RowRule, SheetRows};
use eds_base::{Memory, Place, Refusal, Rule};
use eds_types::{Kind, TypeRows};
use std::alloc::Global;

/// The most items of an array.
const MOST: u32 = 65_536;

/// Whether the type of a number is an array of more items.
fn is_too_large(rows: &TypeRows, id: usize) -> bool
    ensures { result ≡ is_too_large_in (slice_get rows.now id) }
{
    match rows.get(id) {
        None => false,
        Some(row) => match &row.kind {
            Kind::Arr(_, items) => *items > MOST,
            _ => false,
        },
    }
}

/// An array has at most 65,536 items.
pub(crate) struct LimitItems;

impl RowRule for LimitItems {
    ghost use Rattle.eds_read_types.specs.LimitItems.{items_limit_at};

    ghost breaks = { items_limit_at };

    fn least_at(
        alloc: Global,
        sheet: &SheetRows,
        id: usize,
        at: Place,
    ) -> Result<Option<Refusal>, Memory> {
        if is_too_large(sheet.rows, id) {
            Ok(Some(broken_with(alloc, Rule::Limit, at, "items")?))
        } else {
            Ok(None)
        }
    }
}
