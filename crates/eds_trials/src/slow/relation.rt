//! Which bits spell a value.

use crate::slow::checks::check_of;
use crate::slow::fields::{has_value, is_in, listed, value_at};
use crate::slow::numbers::is_pattern;
use crate::slow::places::Placed;
use crate::slow::scalars::{are_octets_of, is_text, is_truth};
use crate::slow::{Slow, Spelling};
use eds_base::{Memory, Spans, TypeId};
use eds_bits::IntForm;
use eds_types::{Kind, Part, Value};

/// A container's value and all its bits.
#[derive(Drop)]
struct Whole<'w> {
    sequence: &'w [Placed<'w>],
    values: &'w [Value],
    bits: &'w [bool],
}

/// Some of the bits of a container, those before them, and the value that they may spell.
#[derive(Drop)]
struct Piece<'w> {
    before: &'w [bool],
    bits: &'w [bool],
    value: Option<&'w Value>,
}

// A binary of so many bits, or an open one of at most so many, has this number of bits.
fn fits_binary(size: u32, open: bool, count: u32) -> bool {
    if open {
        count <= size && count % 8 == 0
    } else {
        count == size
    }
}

impl<'a> Slow<'a> {
    /// Whether the bits spell the value.
    pub(crate) fn spells(&self, id: TypeId, value: &Value, bits: &[bool]) -> Result<bool, Memory> {
        self.spells_within(32, id, value, bits)
    }

    // The same, where at most so many types are nested.
    #[cycle(spells)]
    fn spells_within(
        &self,
        depth: u32,
        id: TypeId,
        value: &Value,
        bits: &[bool],
    ) -> Result<bool, Memory> {
        let Some(row) = self.row(id) else {
            return Ok(false);
        };
        if depth == 0 {
            return Ok(false);
        }
        match (&row.kind, value) {
            (Kind::Arr(item, count), Value::Items(items)) => {
                if items.len() != *count as usize {
                    return Ok(false);
                }
                self.spell_items(depth - 1, *item, items.as_slice(), bits)
            }
            (Kind::Con(_), Value::Fields(container, values)) => {
                self.spells_container(depth - 1, id, *container, values.as_slice(), bits)
            }
            (kind, value) => Ok(self.spells_scalar(kind, value, bits)),
        }
    }

    fn spells_scalar(&self, kind: &Kind, value: &Value, bits: &[bool]) -> bool {
        match (kind, value) {
            (Kind::Int(form, domain), Value::Num(n)) => self.spells_number(form, domain, *n, bits),
            (Kind::Enum(form, _), Value::Label(label)) => match listed(kind, label.as_str()) {
                Some(n) => self.is_number(form, n, bits),
                None => false,
            },
            (Kind::Bool(form), Value::Bool(truth)) => is_truth(self.spelling, *form, *truth, bits),
            (Kind::Str(form), Value::Text(text)) => {
                is_text(self.spelling, form, text.as_str().as_bytes(), bits)
            }
            (Kind::Bin(size, open), Value::Bits(count, octets)) => {
                fits_binary(*size, *open, *count)
                    && bits.len() == *count as usize
                    && are_octets_of(octets.as_slice(), bits)
            }
            _ => false,
        }
    }

    fn spells_number(&self, form: &IntForm, domain: &Spans, n: i128, bits: &[bool]) -> bool {
        is_in(domain, n) && self.is_number(form, n, bits)
    }

    // The bits are a pattern of the number; that of zero has all bits zero, where it is to be the canonical one.
    fn is_number(&self, form: &IntForm, n: i128, bits: &[bool]) -> bool {
        is_pattern(*form, n, bits)
            && (self.spelling == Spelling::Any || n != 0 || !bits.contains(&true))
    }

    // Whether the bits are one spelling for each item. The bits may be cut wherever the items before have an end.
    #[cycle(spells)]
    fn spell_items(
        &self,
        depth: u32,
        item: TypeId,
        items: &[Value],
        bits: &[bool],
    ) -> Result<bool, Memory> {
        let mut ends = Vec::new(self.alloc);
        ends.push(0usize)?;
        for value in items {
            let mut next = Vec::new(self.alloc);
            for from in ends.iter() {
                for to in *from..bits.len().wrapping_add(1) {
                    if let Some(piece) = bits.get(*from..to) {
                        if self.spells_within(depth, item, value, piece)? && !next.contains(&to) {
                            next.push(to)?;
                        }
                    }
                }
            }
            ends = next;
        }
        Ok(ends.contains(&bits.len()))
    }

    // Whether the bits spell these values of the container where the type `id` is read: the container is concrete and one
    // of the type, the bits are one spelling for each part, all constraints hold, and no container under it may be that of
    // the fields.
    #[cycle(spells)]
    fn spells_container(
        &self,
        depth: u32,
        id: TypeId,
        container: TypeId,
        values: &[Value],
        bits: &[bool],
    ) -> Result<bool, Memory> {
        if !self.is_concrete(container) || !self.is_under(id, container)? {
            return Ok(false);
        }
        let sequence = self.sequence(container)?;
        let whole = Whole {
            sequence: sequence.as_slice(),
            values,
            bits,
        };
        Ok(
            self.spell_parts(depth, &whole)?
                && self.all_hold(container, values)?
                && self.is_most_derived(container, values)?,
        )
    }

    // Whether the bits are one spelling for each part, and each value is that of one part.
    #[cycle(spells)]
    fn spell_parts(&self, depth: u32, whole: &Whole) -> Result<bool, Memory> {
        let bits = whole.bits;
        let mut values = 0usize;
        let mut ends = Vec::new(self.alloc);
        ends.push(0usize)?;
        for placed in whole.sequence {
            let mut value = None;
            if has_value(placed.part) {
                value = whole.values.get(values);
                values = values.wrapping_add(1);
            }
            let mut next = Vec::new(self.alloc);
            for from in ends.iter() {
                for to in *from..bits.len().wrapping_add(1) {
                    let (Some(before), Some(bits)) = (bits.get(..*from), bits.get(*from..to)) else {
                        return Ok(false);
                    };
                    let piece = Piece {
                        before,
                        bits,
                        value,
                    };
                    if self.spells_part(depth, placed.part, &piece, whole)? && !next.contains(&to) {
                        next.push(to)?;
                    }
                }
            }
            ends = next;
        }
        Ok(values == whole.values.len() && ends.contains(&bits.len()))
    }

    // Whether the piece is the part's.
    #[cycle(spells)]
    fn spells_part(
        &self,
        depth: u32,
        part: &Part,
        piece: &Piece,
        whole: &Whole,
    ) -> Result<bool, Memory> {
        match part {
            Part::Plain(_, id) => match piece.value {
                Some(value) => self.spells_within(depth, *id, value, piece.bits),
                None => Ok(false),
            },
            Part::Fixed(_, id, value) => self.spells_within(depth, *id, value, piece.bits),
            Part::Pad(size) => Ok(
                piece.bits.len() == *size as usize
                    && (self.spelling == Spelling::Any || !piece.bits.contains(&true)),
            ),
            Part::List(_, id, container, place) => match piece.value {
                Some(Value::Items(items)) => {
                    if !counts(whole, *container, *place, items.len()) {
                        return Ok(false);
                    }
                    self.spell_items(depth, *id, items.as_slice(), piece.bits)
                }
                _ => Ok(false),
            },
            Part::Length(_, id, offset, factor) => match told(whole.bits.len(), *offset, *factor) {
                Some(n) => self.spells_within(depth, *id, &Value::Num(n), piece.bits),
                None => Ok(false),
            },
            Part::Check(_, id, kind) => {
                let check = Value::Num(i128::from(check_of(*kind, piece.before)));
                self.spells_within(depth, *id, &check, piece.bits)
            }
        }
    }
}

// Whether the entry at this place of the container tells so many items.
fn counts(whole: &Whole, container: TypeId, place: u16, items: usize) -> bool {
    match value_at(whole.sequence, whole.values, container, place as usize) {
        Some(Value::Num(n)) => *n == items as i128,
        _ => false,
    }
}

// The number that tells the octets of so many bits, if there is one: the offset and the factor, which is at least 1, times
// the number are the octets.
fn told(bits: usize, offset: i64, factor: i64) -> Option<i128> {
    let octets = i64::try_from(bits.div_ceil(8)).ok()?;
    let scaled = octets.wrapping_sub(offset);
    if factor < 1 || scaled % factor != 0 {
        return None;
    }
    Some(i128::from(scaled / factor))
}
