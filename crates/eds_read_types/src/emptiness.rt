//! Types that may be spelled by no bits.

ghost use Rattle.std.specs.Prelude.{◌≡◌, ◌||◌, true, length, is_some, option_map};
ghost use Rattle.eds_base.specs.declared.ids.TypeId.{TypeId as type_id};
ghost use Rattle.eds_types.specs.Sizes.{open_of};
ghost use Rattle.eds_read_types.specs.Kin.{AreMarks, passes_under};
ghost use Rattle.eds_read_types.specs.Hollow.{is_void, is_hollow as is_hollow_at};
ghost use Rattle.eds_read_types.specs.Emptiness.{item_of as item_of_row, may_be_empty as may_be_empty_at, is_empty_entry as is_empty_entry_at, is_empty_part as is_empty_part_of};

use crate::kin::mark_at;
use crate::sheet_rows::is_open;
use eds_base::TypeId;
use eds_types::{Kind, Part, TypeRows};

/// The most types that are nested in one another.
const DEEPEST: u32 = 32;

/// The type of an array's items.
pub(crate) fn item_of(rows: &TypeRows, id: usize) -> Option<TypeId>
    ensures { option_map (λ (i : type_id). i.0) result ≡ item_of_row rows.now id }
{
    match &rows.get(id)?.kind {
        Kind::Arr(item, _) => Some(*item),
        _ => None,
    }
}

/// The rows of all types, and which of them are, or have under them, a container that is spelled by no bits.
#[derive(Drop)]
pub(crate) struct Emptiness<'a> {
    pub(crate) rows: &'a TypeRows,
    pub(crate) hollow: &'a [bool],
    ghost known: { AreMarks (length rows.now) (passes_under rows.now true (is_void rows.now)) hollow.now },
}

impl<'a> Emptiness<'a> {
    /// Whether a type is a container that may be spelled by no bits.
    fn is_hollow(&self, id: TypeId) -> bool
        ensures { result ≡ is_hollow_at self.now.rows.now id.0 }
    {
        (id.0 as usize) < self.rows.len() && mark_at(self.hollow, id.0 as usize)
    }

    /// Whether it is one, or an open binary.
    fn is_bare(&self, id: TypeId) -> bool
        ensures { result ≡ (is_hollow_at self.now.rows.now id.0 || is_some (open_of self.now.rows.now id.0)) }
    {
        self.is_hollow(id) || is_open(self.rows, id)
    }

    /// Whether a type may be spelled by no bits: it is such a container, an open binary, or an array of such items.
    pub(crate) fn may_be_empty(&self, id: TypeId) -> bool
        ensures { result ≡ may_be_empty_at self.now.rows.now id.0 }
    {
        let mut at = id;
        let mut left = DEEPEST;
        while left > 0 {
            if self.is_bare(at) {
                return true;
            }
            match item_of(self.rows, at.0 as usize) {
                None => return false,
                Some(item) => at = item,
            }
            left -= 1;
        }
        false
    }

    /// Whether a type may be spelled by no bits and is no open binary.
    fn is_empty_entry(&self, id: TypeId) -> bool
        ensures { result ≡ is_empty_entry_at self.now.rows.now id.0 }
    {
        !is_open(self.rows, id) && self.may_be_empty(id)
    }

    /// Whether a part is an entry or a list of such a type.
    pub(crate) fn is_empty_part(&self, part: &Part) -> bool
        ensures { result ≡ is_empty_part_of self.now.rows.now part.now }
    {
        match part {
            Part::Plain(_, id) => self.is_empty_entry(*id),
            Part::Fixed(_, _, _) => false,
            Part::Pad(_) => false,
            Part::List(_, id, _, _) => self.may_be_empty(*id),
            Part::Length(_, _, _, _) => false,
            Part::Check(_, _, _) => false,
        }
    }
}
