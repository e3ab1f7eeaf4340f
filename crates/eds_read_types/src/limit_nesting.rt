//! The limit on how deep types are nested.

ghost use Rattle.std.specs.Prelude.{◌≡◌};
ghost use Rattle.eds_read_types.specs.LimitNesting.{is_too_deep as is_too_deep_of};

use crate::breaks::broken_with;
use crate::sheet_rows::{RowRule, SheetRows};
use eds_base::{Memory, Place, Refusal, Rule};
use eds_graph::Course;
use std::alloc::Global;

/// The most types that are nested, both ends counted.
const MOST: usize = 32;

fn is_too_deep(course: Course) -> bool
    ensures { result ≡ is_too_deep_of course }
{
    match course {
        Course::OnCircle => false,
        Course::ToCircle => false,
        Course::Ends(types) => types > MOST,
    }
}

/// At most 32 types are nested on the longest way from a type.
pub(crate) struct LimitNesting;

impl RowRule for LimitNesting {
    ghost use Rattle.eds_read_types.specs.LimitNesting.{nesting_at};

    ghost breaks = { nesting_at };

    fn least_at(
        alloc: Global,
        sheet: &SheetRows,
        id: usize,
        at: Place,
    ) -> Result<Option<Refusal>, Memory> {
        if is_too_deep(sheet.course_of(id)) {
            Ok(Some(broken_with(alloc, Rule::Limit, at, "nesting")?))
        } else {
            Ok(None)
        }
    }
}
