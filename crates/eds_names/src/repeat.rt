//! Names that come a second time.

ghost use Rattle.std.specs.Prelude.{◌≡◌, ◌∷◌, ℕ, List, map, IfOk, OnOk, string_bytes};
ghost use Rattle.eds_base.specs.Refusals.{least, first_of};
ghost use Rattle.eds_names.specs.Repeats.{is_among, repeat_of};

use eds_base::{Kept, Memory, Place, Refusal, Rule, Text};
use indexmap::IndexSet;
use std::alloc::Global;

/// Puts a name among those before it. Where it was there, the first of the refusal found so far and that of the
/// element that has the name now.
pub(crate) fn note_name(
    alloc: Global,
    before: &mut IndexSet<String>,
    found: Option<Refusal>,
    key: &str,
    own: &str,
    place: Place,
) -> Result<Option<Refusal>, Memory>
    ensures found { IfOk result (λ r. r ≡ first_of found (least (repeat_of (map string_bytes before.old.keys) (record { key = key.now; own = own.now; place = place })))) }
    ensures before { OnOk result ((q : List ℕ) → is_among (map string_bytes before.new.keys) q ≡ is_among (key.now ∷ map string_bytes before.old.keys) q) }
{
    if before.contains(key) {
        let refusal = Refusal {
            rule: Rule::Duplicate,
            place,
            kept: Kept::Word(Text::of(alloc, own)?),
        };
        return Ok(Refusal::first(found, Some(refusal)));
    }
    let name = String::from_str(alloc, key)?;
    let _added = before.insert(name)?;
    Ok(found)
}
