//! What a run stands on.

ghost use Rattle.std.specs.Prelude.{◌≡◌};

use crate::wiring::Links;
use eds_plan::Plan;
use eds_types::TypeTable;
use eds_unpack::Segments;

/// What a run stands on: the types, the segments by which frames are read, the components, and the wires between their ends.
#[derive(Clone, Copy)]
pub struct Setting<'a> {
    pub table: &'a TypeTable,
    pub segments: &'a Segments<'a>,
    pub plan: &'a Plan,
    pub links: &'a Links,
    pub ghost right: { segments.now ≡ table.now },
}
