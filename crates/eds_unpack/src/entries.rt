//! The entries of containers of scalars alone, each of which is read where it is asked for.

ghost use Rattle.std.specs.Prelude.{◌≡◌, ◌<◌, ◌≤◌, Some, List, length, map, take, slice_get, IfSome};
ghost use Rattle.eds_bits.specs.Reader.{view_bits};
ghost use Rattle.eds_types.specs.Overlap.{IsClear};
ghost use Rattle.eds_types.specs.Plain.{Plain, fields, label, num, plains_of, truth};
ghost use Rattle.eds_types.specs.Spelling.{Spells};
ghost use Rattle.eds_unpack.specs.Scalars.{plain_of};

use crate::meaning::{listed_label, scalar_at, truth_value, whole_number};
use crate::scalar::Scalar;
use crate::segment::{Meaning, Operation};
use crate::segments::Segments;
use crate::values::{number_of_bits, octets_left};
use eds_base::TypeId;
use eds_bits::{BitReader, BitView};
use eds_overlap::law::reading_is_exact;
use eds_types::TypeTable;
use std::marker::Model;

/// The entries of a container of scalars alone, in the bits at its front. Each is read where it is asked for. Clauses see what
/// the bits of each entry say: of a readable packet all of them say something.
#[derive(Drop)]
pub struct Entries<'v, 'a> {
    table: &'a TypeTable,
    operations: &'v [Operation],
    octets: &'v [u8],
    reader: BitReader<'v>,
}

impl<'v, 'a> Model for Entries<'v, 'a> {
    ghost use Rattle.std.specs.Prelude.{◌≡◌, ◌+◌, ◌≤◌, List, Option, length, map};
    ghost use Rattle.std.specs.Coded.{coded_list, coded_option};
    ghost use Rattle.std.specs.List.{All};
    ghost use Rattle.eds_bits.specs.Bits.{bits_of};
    ghost use Rattle.eds_bits.specs.Reader.{bits_left};
    ghost use Rattle.eds_types.specs.Plain.{Plain};
    ghost use Rattle.eds_types.specs.PlainCode.{plain_code};
    ghost use Rattle.eds_unpack.specs.Segments.{IsOperation, said};

    ghost Value = { List (Option Plain) };

    ghost coded = { coded_list (coded_option plain_code) };

    ghost view = { λ e. map (said e.table.now (bits_left e.reader)) e.operations.now };

    ghost invariant = { λ e. All (IsOperation e.table.now) e.operations.now × All (λ o. o.at + o.bits ≤ length (bits_left e.reader)) e.operations.now × (1 ≤ length e.octets.now → bits_left e.reader ≡ bits_of e.octets.now) };
}

impl<'v, 'a> Entries<'v, 'a> {
    /// How many there are.
    #[inline(always)]
    pub fn len(&self) -> usize
        ensures { result ≡ length self.now }
    {
        self.operations.len()
    }

    /// The number of an entry, where its bits have one and its encoding tells it at once: then it is the scalar that `get` gives. None past the end.
    #[inline(always)]
    pub fn number(&self, position: usize) -> Option<i64>
        ensures { IfSome result (λ n. slice_get self.now position ≡ Some (Some (num n))) }
    {
        let operation = self.operations.get(position)?;
        // the bits of an entry that has no number are not loaded here
        let (Meaning::Number(_) | Meaning::Digits(_)) = operation.meaning else {
            return None;
        };
        let number = number_of_bits(operation, self.octets, &self.reader);
        whole_number(self.table, operation, number)
    }

    /// The truth value of an entry, where its type is one of truth values: then it is the scalar that `get` gives. None past the
    /// end.
    #[inline(always)]
    pub fn truth(&self, position: usize) -> Option<bool>
        ensures { IfSome result (λ b. slice_get self.now position ≡ Some (Some (truth b))) }
    {
        let operation = self.operations.get(position)?;
        let Meaning::Truth(_) = operation.meaning else {
            return None;
        };
        let number = number_of_bits(operation, self.octets, &self.reader);
        truth_value(self.table, operation, number)
    }

    /// The label of an entry, where its bits have one and its encoding tells it at once: then it is the scalar that `get` gives.
    /// None past the end.
    #[inline(always)]
    pub fn label(&self, position: usize) -> Option<&'a str>
        ensures { IfSome result (λ l. slice_get self.now position ≡ Some (Some (label l.now))) }
    {
        let operation = self.operations.get(position)?;
        let Meaning::Label(_) = operation.meaning else {
            return None;
        };
        let number = number_of_bits(operation, self.octets, &self.reader);
        listed_label(self.table, operation, number)
    }

    /// The scalar of an entry. None, where its bits have no value, and past the end.
    #[inline(always)]
    pub fn get(&self, position: usize) -> Option<Scalar<'a>>
        ensures { IfSome result (λ s. slice_get self.now position ≡ Some (Some (plain_of s))) }
    {
        let operation = self.operations.get(position)?;
        let number = number_of_bits(operation, self.octets, &self.reader);
        scalar_at(self.table, operation, number)
    }
}

/// The entries of a container, in the bits that a view begins with, and how many bits they have together. Where the bits of each
/// entry say something, this is the value of the container. None, where it isn't made of scalars at fixed places alone, others
/// derive from it, or fewer bits are there.
pub fn entries_by<'v, 'a>(
    segments: &'v Segments<'a>,
    id: TypeId,
    view: BitView<'v>,
) -> Option<(Entries<'v, 'a>, u32)>
    requires known { id.0 < length segments.now }
    requires clear { IsClear segments.now id.0 }
    ensures size { IfSome result (λ x. x.1 ≤ length (view_bits view.entry)) }
    ensures value { (vs : List Plain) → IfSome result (λ x. x.0 ≡ map Some vs → Spells segments.now id.0 (fields id.0 (plains_of vs)) (take x.1 (view_bits view.entry))) }
{
    let table = segments.table();
    table.keeps_rules();
    reading_is_exact();
    let segment = segments.find(id)?;
    let reader = BitReader::new(view);
    if reader.left() < u64::from(segment.bits) {
        return None;
    }
    let entries = Entries {
        table,
        operations: segment.operations.as_slice(),
        octets: octets_left(&reader),
        reader,
    };
    Some((entries, segment.bits))
}
