//! The rule that no chain of bases is longer than 16 types.

ghost use Rattle.std.specs.Prelude.{◌≡◌, length, nat_le};
ghost use Rattle.eds_types.specs.Rows.{chain_within};
ghost use Rattle.eds_read_types.specs.LimitChain.{is_long as is_long_chain};

use crate::breaks::broken_with;
use crate::sheet_rows::{RowRule, SheetRows, base_of};
use eds_base::{Memory, Place, Refusal, Rule};
use eds_types::TypeRows;
use std::alloc::Global;

/// Whether a type and its bases are at least so many types.
fn has_chain(rows: &TypeRows, many: u32, id: usize) -> bool
    ensures { result ≡ nat_le many (length (chain_within many rows.now id)) }
{
    if many == 0 {
        return true;
    }
    match base_of(rows, id) {
        None => many == 1,
        Some(base) => has_chain(rows, many - 1, base.0 as usize),
    }
}

/// Whether a type and its bases are more than 16 types.
fn is_long(rows: &TypeRows, id: usize) -> bool
    ensures { result ≡ is_long_chain rows.now id }
{
    has_chain(rows, 17, id)
}

/// No chain is longer than 16 types.
pub(crate) struct LimitChain;

impl RowRule for LimitChain {
    ghost use Rattle.eds_read_types.specs.LimitChain.{chain_at};

    ghost breaks = { chain_at };

    fn least_at(
        alloc: Global,
        sheet: &SheetRows,
        id: usize,
        at: Place,
    ) -> Result<Option<Refusal>, Memory> {
        if is_long(sheet.rows, id) && !sheet.course_of(id).reaches_circle() {
            Ok(Some(broken_with(alloc, Rule::Limit, at, "chain")?))
        } else {
            Ok(None)
        }
    }
}
