//! Which container the front of some bits spells.

ghost use Rattle.eds_base.specs.declared.fault.Fault.{Fault};
ghost use Rattle.std.specs.Prelude.{◌≡◌, ◌<◌, ◌≤◌, length, Ok, Err, IfOk, IfErr};
ghost use Rattle.eds_bits.specs.Reader.{view_bits};
ghost use Rattle.eds_overlap.specs.Common.{each_once};
ghost use Rattle.eds_overlap.specs.Laws.{read_type};
ghost use Rattle.eds_types.specs.Overlap.{IsClear};
ghost use Rattle.eds_types.specs.Plain.{Plain};
ghost use Rattle.eds_unpack.specs.Answers.{IsOfReading};
ghost use Rattle.eds_unpack.specs.Asked.{asked};
ghost use Rattle.eds_unpack.specs.Readers.{sized};
ghost use Rattle.eds_unpack.specs.Walks.{type_of};

use crate::notes::Notes;
use crate::passing::pass_by_segment;
use crate::segments::Segments;
use crate::walk::{Walk, walk_value};
use crate::whole::NESTING;
use eds_base::{Fault, Path, TypeId};
use eds_bits::{BitReader, BitView};
use eds_overlap::law::reading_is_exact;
use eds_types::TypeTable;

/// The most derived container of the value that the bits of a view begin with, or the type, where the value is none of a
/// container, and how many bits the value takes.
pub(crate) fn recognise_front(
    table: &TypeTable,
    segments: &Segments<'_>,
    notes: &Notes,
    id: TypeId,
    numbers: &mut [Option<i128>],
    view: BitView,
) -> Result<(TypeId, u32), Fault>
    requires segments { segments.now ≡ table.now }
    requires known { id.0 < length table.now }
    requires notes { notes.now ≡ each_once (asked table.now) }
    requires room { length notes.now ≤ length numbers.old }
    requires clear { IsClear table.now id.0 }
    requires most { length (view_bits view) ≤ 524288 }
    ensures read { IfOk result (λ x. (v : Plain) × (sized (view_bits view.entry) (read_type table.now id.0 (view_bits view.entry)) ≡ Ok (v, x.1)) × (type_of id.0 v ≡ (x.0).0)) }
    ensures fault { IfErr result (λ g. read_type table.now id.0 (view_bits view.entry) ≡ Err g) }
    ensures reason { IfErr result (λ (g : Fault). IsOfReading g.reason) }
    ensures long { length numbers.new ≡ length numbers.old }
{
    table.keeps_rules();
    reading_is_exact();
    if let Some(bits) = pass_by_segment(table, segments, id, view) {
        return Ok((id, bits));
    }
    let mut reader = BitReader::new(view);
    let all = reader.left();
    let mut path = Path::root();
    let walk = Walk {
        table,
        segments,
        notes,
        depth: NESTING,
    };
    match walk_value(&walk, id, numbers, &mut path, &mut reader) {
        Ok(seen) => {
            let left = reader.left();
            let bits = (all - left) as u32;
            Ok((seen.found, bits))
        }
        Err(reason) => Err(Fault { reason, path }),
    }
}
