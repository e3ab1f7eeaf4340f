//! The type that a command names, among those of its sheet.

ghost use Rattle.std.specs.Prelude.{◌≡◌, ◌<◌, IsSomeAnd, length};
ghost use Rattle.eds_sheet.specs.Compiled.{seen_sheet};
ghost use Rattle.eds_cmd.specs.Target.{type_in, type_of};

use eds_base::TypeId;
use eds_sheet::Sheet;
use eds_types::TypeTable;

/// A type by its number in the table of a sheet.
#[derive(Clone, Copy)]
pub struct Target<'a> {
    pub table: &'a TypeTable,
    pub id: TypeId,
}

/// The type that a command names.
pub fn target_of(sheet: &Sheet) -> Target<'_>
    requires { IsSomeAnd sheet.now.asked_type (λ id. id.0 < length sheet.now.table) }
    ensures { type_in result ≡ type_of (seen_sheet sheet.now) }
{
    match sheet.asked_type {
        Some(id) => Target {
            table: &sheet.table,
            id,
        },
        None => unreachable!(),
    }
}
