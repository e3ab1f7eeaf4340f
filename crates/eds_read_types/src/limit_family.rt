//! The rule that no family has more than 512 containers.

use crate::breaks::broken_with;
use crate::sheet_rows::{RowRule, SheetRows};
use eds_base::{Memory, Place, Refusal, Rule};
use std::alloc::Global;

/// No family has more than 512 containers.
pub(crate) struct LimitFamily;

impl RowRule for LimitFamily {
    ghost use Rattle.eds_read_types.specs.LimitFamily.{family_at};

    ghost breaks = { family_at };

    fn least_at(
        alloc: Global,
        sheet: &SheetRows,
        id: usize,
        at: Place,
    ) -> Result<Option<Refusal>, Memory> {
        if sheet.family_size(id) > 512 && !sheet.course_of(id).reaches_circle() {
            Ok(Some(broken_with(alloc, Rule::Limit, at, "family")?))
        } else {
            Ok(None)
        }
    }
}
