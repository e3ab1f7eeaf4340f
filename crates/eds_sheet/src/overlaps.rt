//! The rule that no two containers of a sheet overlap.

ghost use Rattle.std.specs.Prelude.{◌≡◌};
ghost use Rattle.eds_base.specs.Answering.{Answers};
ghost use Rattle.eds_sheet.specs.Overlaps.{overlap_verdict, type_place as place_of};

use eds_base::{Fail, Place, Refusal, TypeId};
use eds_names::Space;
use eds_overlap::{find_overlap, overlap_refusal};
use eds_read_types::SheetTypes;
use std::alloc::Global;

// The element of a declared type.
fn type_place(space: &Space, id: TypeId) -> Place
    ensures { result ≡ place_of space.now id.0 }
{
    let mut before = id.0;
    let mut rest = space.declared();
    while let [one, after @ ..] = rest {
        if one.item.is_sort() {
            if before == 0 {
                return one.place;
            }
            before -= 1;
        }
        rest = after;
    }
    Place { file: 0, node: 0 }
}

/// Refuses a sheet of which two containers overlap where its used types are read, for the first two that do, at the element of
/// the later one.
pub(crate) fn check_overlaps(
    alloc: Global,
    space: &Space,
    typed: &SheetTypes,
) -> Result<(), Fail<Refusal>>
    ensures { Answers (λ done. done) result (overlap_verdict space.now typed.now) }
{
    match find_overlap(alloc, &typed.table, &typed.used)? {
        None => Ok(()),
        Some(overlap) => {
            let place = type_place(space, overlap.second);
            let refusal = overlap_refusal(alloc, &typed.table, &overlap, place)?;
            Err(Fail::Named(refusal))
        }
    }
}
