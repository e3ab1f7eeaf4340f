//! A type of packets, with what they are read and put into lines by.

ghost use Rattle.std.specs.Prelude.{◌≡◌};
ghost use Rattle.eds_cmd.specs.Target.{IsKnown, type_in};

use crate::target::Target;
use eds_unpack::Segments;
use eds_value::Layouts;

/// A type of packets, with what they are read and put into lines by.
#[derive(Clone, Copy)]
pub struct PacketType<'t, 'a> {
    pub target: Target<'t>,
    /// Their bits are read by these.
    pub segments: &'t Segments<'a>,
    /// Their lines are laid out so.
    pub layouts: &'t Layouts<'t>,
    pub ghost read_by: { segments.now ≡ target.table.now },
    pub ghost put_by: { layouts.now ≡ target.table.now },
    pub ghost known: { IsKnown (type_in target) },
}
