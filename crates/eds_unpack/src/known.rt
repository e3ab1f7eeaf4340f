//! What is known of the entries of a container.

ghost use Rattle.std.specs.Prelude.{◌≡◌, List};
ghost use Rattle.eds_types.specs.Fields.{Field, number_on as number_of_fields};
ghost use Rattle.eds_types.specs.Reading.{holds};
ghost use Rattle.eds_unpack.specs.Choices.{Tells, TellsOn};

use crate::constraint::holds;
use crate::fields::ReadFields;
use crate::noted::{holds_noted, number_noted};
use crate::notes::Notes;
use crate::number::number_on;
use eds_base::TypeId;
use eds_types::{Constraint, TypeTable};

/// What is known of the entries of a container: the fields that were read, or the numbers that were noted of them.
#[derive(Clone, Copy)]
pub(crate) enum Known<'a> {
    Fields(&'a ReadFields),
    Numbers(&'a Notes, &'a [Option<i128>]),
}

/// Whether a constraint holds of fields of which this is known.
pub(crate) fn holds_known(table: &TypeTable, known: &Known<'_>, constraint: &Constraint) -> bool
    ensures { (fs : List Field) → Tells table.now fs known.now constraint.now → result ≡ holds table.now fs constraint.now }
{
    match known {
        Known::Fields(fields) => holds(table, fields, constraint),
        Known::Numbers(notes, numbers) => holds_noted(notes, numbers, constraint),
    }
}

/// The number on a path of fields of which this is known.
pub(crate) fn number_known(
    table: &TypeTable,
    known: &Known<'_>,
    path: &[(TypeId, u16)],
) -> Option<i128>
    ensures { (fs : List Field) → TellsOn table.now fs known.now path.now → result ≡ number_of_fields table.now fs path.now }
{
    match known {
        Known::Fields(fields) => number_on(table, fields, path),
        Known::Numbers(notes, numbers) => number_noted(notes, numbers, path),
    }
}
