//! Sets of names, which are found by hash.

ghost use Rattle.std.specs.Prelude.{◌≡◌, ◌∷◌, ℕ, List, map, string_bytes, OnOk};
ghost use Rattle.eds_names.specs.Repeats.{is_among};

use eds_base::Memory;
use indexmap::IndexSet;
use std::alloc::Global;

/// Puts a name among others, where it is not there yet.
pub fn note_name(alloc: Global, names: &mut IndexSet<String>, name: &str) -> Result<(), Memory>
    ensures { OnOk result ((q : List ℕ) → is_among (map string_bytes names.new.keys) q ≡ is_among (name.now ∷ map string_bytes names.old.keys) q) }
{
    if names.contains(name) {
        return Ok(());
    }
    let name = String::from_str(alloc, name)?;
    let _added = names.insert(name)?;
    Ok(())
}
