//! The choice of the most derived container of a value that is passed over.

ghost use Rattle.std.specs.Prelude.{◌≡◌, ℕ, List, true};
ghost use Rattle.std.specs.List.{AllByRecursion};
ghost use Rattle.eds_types.specs.declared.row.Constraint.{Constraint};
ghost use Rattle.eds_types.specs.Fields.{Field};
ghost use Rattle.eds_types.specs.Reading.{starts_above, next};
ghost use Rattle.eds_types.specs.Rows.{constraints_of};
ghost use Rattle.eds_unpack.specs.Choices.{next_in};
ghost use Rattle.eds_unpack.specs.Index.{Among};
ghost use Rattle.eds_overlap.specs.Pairs.{Steps};
ghost use Rattle.eds_unpack.specs.Noted.{IsNoted};

use crate::choice::{Next, next_known};
use crate::known::Known;
use crate::notes::Notes;
use crate::segments::Segments;
use eds_base::TypeId;
use eds_types::TypeTable;

/// Where reading goes on behind the entries of a container, by the numbers that were noted of them.
pub(crate) fn next_noted(
    table: &TypeTable,
    segments: &Segments<'_>,
    notes: &Notes,
    numbers: &[Option<i128>],
    id: TypeId,
) -> Next
    requires segments { segments.now ≡ table.now }
    requires asked { (y : ℕ) → AllByRecursion (λ (c : Constraint). Among notes.now c.path) (constraints_of table.now y) }
    ensures { (fs : List Field) → ((path : Steps) → starts_above table.now id.0 path ≡ true → IsNoted table.now notes.now numbers.now fs path) → next_in result ≡ next table.now id.0 fs }
{
    let known = Known::Numbers(notes, numbers);
    next_known(table, segments, id, &known)
}
