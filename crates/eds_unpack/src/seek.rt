//! Where the length entry of a container stands.

ghost use Rattle.std.specs.Prelude.{◌≡◌, ◌≤◌, ◌<◌, ◌+◌, ◌^◌, length, reverse};
ghost use Rattle.eds_types.specs.Rows.{placed_from, sequence};
ghost use Rattle.eds_types.specs.Seeking.{entries_in_turn, trailers_in_turn};
ghost use Rattle.eds_unpack.specs.Seeking.{length_among};

use eds_base::{Step, TypeId};
use eds_types::{Part, TypeTable};

/// The step to the first length entry among parts of the container `id`, the first of which has a given place.
fn length_among(parts: &[Part], id: TypeId, first: u16) -> Option<Step>
    requires few { first + length parts.now < 2 ^ 16 }
    ensures { result ≡ length_among (placed_from id.0 first parts.now) }
{
    let mut place = first;
    for part in parts {
        if let Part::Length(_, _, _, _) = part {
            return Some(Step::Part(id, place));
        }
        place += 1;
    }
    None
}

fn length_in_entries(table: &TypeTable, chain: &[TypeId]) -> Option<Step>
    ensures { result ≡ length_among (entries_in_turn table.now chain.now) }
{
    for id in chain {
        match length_among(table.entries_of(*id), *id, 0) {
            Some(step) => return Some(step),
            None => {}
        }
    }
    None
}

fn length_in_trailers(table: &TypeTable, chain: &[TypeId]) -> Option<Step>
    requires few { length chain.now ≤ 16 }
    ensures { result ≡ length_among (trailers_in_turn table.now (reverse chain.now)) }
{
    let mut rest = chain;
    while let [front @ .., id] = rest {
        let first = table.entries_of(*id).len() as u16;
        match length_among(table.trailers_of(*id), *id, first) {
            Some(step) => return Some(step),
            None => {}
        }
        rest = front;
    }
    None
}

/// The step to the length entry of a container, None where it has none.
pub(crate) fn length_step(table: &TypeTable, id: TypeId) -> Option<Step>
    ensures { result ≡ length_among (sequence table.now id.0) }
{
    let chain = table.chain_of(id);
    match length_in_entries(table, chain.as_slice()) {
        Some(step) => Some(step),
        None => length_in_trailers(table, chain.as_slice()),
    }
}
