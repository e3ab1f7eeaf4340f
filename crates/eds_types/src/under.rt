//! Whether a type is among others, or derives from another one.

ghost use Rattle.std.specs.Prelude.{◌≡◌};
ghost use Rattle.eds_types.specs.Rows.{chain, list_has, numbers_of};

use crate::TypeTable;
use eds_base::TypeId;

/// Whether a type is among some.
pub fn is_among(ids: &[TypeId], id: TypeId) -> bool
    ensures { result ≡ list_has (numbers_of ids.now) id.0 }
{
    for one in ids {
        if one.0 == id.0 {
            return true;
        }
    }
    false
}

/// Whether a type is another one, or derives from it: whether that one is in its chain.
pub fn is_under(table: &TypeTable, id: TypeId, base: TypeId) -> bool
    ensures { result ≡ list_has (chain table.now id.0) base.0 }
{
    let chain = table.chain_of(id);
    is_among(chain.as_slice(), base)
}
