//! The rule that no type reaches itself or its family.

use crate::breaks::broken;
use crate::sheet_rows::{RowRule, SheetRows};
use eds_base::{Memory, Place, Refusal, Rule};
use std::alloc::Global;

/// No type reaches itself, or a type of its family, by items and by the types of the parts of a family's containers.
pub(crate) struct TypeCycle;

impl RowRule for TypeCycle {
    ghost use Rattle.eds_read_types.specs.TypeCycle.{type_cycle_at};

    ghost breaks = { type_cycle_at };

    fn least_at(
        _: Global,
        sheet: &SheetRows,
        id: usize,
        at: Place,
    ) -> Result<Option<Refusal>, Memory> {
        if sheet.course_of(id).is_on_circle() && !sheet.meets_base_cycle(id) {
            Ok(Some(broken(Rule::TypeCycle, at)))
        } else {
            Ok(None)
        }
    }
}
