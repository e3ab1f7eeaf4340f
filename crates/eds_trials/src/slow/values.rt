//! All values of a type that has few, and all patterns of a size.

use crate::slow::Slow;
use eds_base::{Items, Memory, Octets, Spans, Text, TypeId};
use eds_types::{Kind, Part, Value};
use std::alloc::Global;

/// The most items of a list in the values that are listed.
const MOST_ITEMS: usize = 3;

/// The bits of octets.
pub(crate) fn bits_of(alloc: Global, octets: &[u8]) -> Result<Vec<bool>, Memory> {
    let mut bits = Vec::new(alloc);
    for octet in octets {
        let mut place = 128u8;
        for _ in 0..8 {
            bits.push(*octet & place != 0)?;
            place /= 2;
        }
    }
    Ok(bits)
}

/// The pattern of so many bits that is this number in binary.
pub(crate) fn pattern(alloc: Global, size: usize, number: u64) -> Result<Vec<bool>, Memory> {
    let mut bits = Vec::new(alloc);
    let mut left = number;
    for _ in 0..size {
        bits.insert(0, left % 2 == 1)?;
        left /= 2;
    }
    Ok(bits)
}

/// The octets of a pattern, the last filled with zeros.
fn octets_of(alloc: Global, bits: &[bool]) -> Result<Octets, Memory> {
    let mut octets = Octets::new(alloc);
    for eight in bits.chunks(8) {
        let mut octet = 0u8;
        let mut place = 128u8;
        for bit in eight {
            if *bit {
                octet |= place;
            }
            place /= 2;
        }
        octets.push(octet)?;
    }
    Ok(octets)
}

/// The value once more.
fn copied(alloc: Global, value: &Value) -> Result<Value, Memory> {
    Ok(match value {
        Value::Num(n) => Value::Num(*n),
        Value::Label(label) => Value::Label(Text::of(alloc, label.as_str())?),
        Value::Bool(truth) => Value::Bool(*truth),
        Value::Text(text) => Value::Text(Text::of(alloc, text.as_str())?),
        Value::Bits(size, octets) => {
            Value::Bits(*size, Items::from_vec(octets.as_slice().to_vec(alloc)?))
        }
        Value::Items(items) => {
            let mut all = Vec::new(alloc);
            for item in items.iter() {
                all.push(copied(alloc, item)?)?;
            }
            Value::Items(all)
        }
        Value::Fields(id, values) => {
            let mut all = Vec::new(alloc);
            for value in values.iter() {
                all.push(copied(alloc, value)?)?;
            }
            Value::Fields(*id, all)
        }
    })
}

/// Each list of values with each of the choices behind it.
fn extended(
    alloc: Global,
    lists: &[Vec<Value>],
    choices: &[Value],
) -> Result<Vec<Vec<Value>>, Memory> {
    let mut longer = Vec::new(alloc);
    for list in lists {
        for choice in choices {
            let mut values = Vec::new(alloc);
            for value in list.iter() {
                values.push(copied(alloc, value)?)?;
            }
            values.push(copied(alloc, choice)?)?;
            longer.push(values)?;
        }
    }
    Ok(longer)
}

/// The empty list alone.
fn empty_list(alloc: Global) -> Result<Vec<Vec<Value>>, Memory> {
    let mut lists = Vec::new(alloc);
    lists.push(Vec::new(alloc))?;
    Ok(lists)
}

/// All lists of so many items.
fn lists_of(alloc: Global, items: &[Value], count: usize) -> Result<Vec<Vec<Value>>, Memory> {
    let mut lists = empty_list(alloc)?;
    for _ in 0..count {
        lists = extended(alloc, lists.as_slice(), items)?;
    }
    Ok(lists)
}

fn push_items(lists: Vec<Vec<Value>>, values: &mut Vec<Value>) -> Result<(), Memory> {
    for list in lists {
        values.push(Value::Items(list))?;
    }
    Ok(())
}

fn push_numbers(domain: &Spans, values: &mut Vec<Value>) -> Result<(), Memory> {
    for span in domain.as_slice() {
        let mut n = span.low;
        for _ in 0..65536 {
            if n > span.high {
                break;
            }
            values.push(Value::Num(n))?;
            n = n.wrapping_add(1);
        }
    }
    Ok(())
}

// The empty text, and those of one character of ASCII but of the termination octet.
fn push_texts(alloc: Global, stop: u8, values: &mut Vec<Value>) -> Result<(), Memory> {
    values.push(Value::Text(Text::new(alloc)))?;
    for octet in 0..128u8 {
        if octet == stop {
            continue;
        }
        let mut octets = Vec::new(alloc);
        octets.push(octet)?;
        if let Ok(text) = String::from_utf8(octets) {
            values.push(Value::Text(Text::from_string(text)))?;
        }
    }
    Ok(())
}

fn push_patterns(alloc: Global, size: u32, values: &mut Vec<Value>) -> Result<(), Memory> {
    for number in 0..1u64 << size.min(16) {
        let bits = pattern(alloc, size as usize, number)?;
        values.push(Value::Bits(size, octets_of(alloc, bits.as_slice())?))?;
    }
    Ok(())
}

impl<'a> Slow<'a> {
    /// All values of a type that has few of them: of lists those of at most three items, of texts those of at most one
    /// octet, of integers the first 65,536 of each interval, and the first 65,536 binaries.
    pub(crate) fn values(&self, id: TypeId) -> Result<Vec<Value>, Memory> {
        self.values_within(32, id)
    }

    #[cycle(values)]
    fn values_within(&self, depth: u32, id: TypeId) -> Result<Vec<Value>, Memory> {
        let mut values = Vec::new(self.alloc);
        let Some(row) = self.row(id) else {
            return Ok(values);
        };
        if depth == 0 {
            return Ok(values);
        }
        match &row.kind {
            Kind::Int(_, domain) => push_numbers(domain, &mut values)?,
            Kind::Enum(_, listing) => {
                for line in listing.as_slice() {
                    values.push(Value::Label(Text::of(self.alloc, line.0.as_str())?))?;
                }
            }
            Kind::Bool(_) => {
                values.push(Value::Bool(false))?;
                values.push(Value::Bool(true))?;
            }
            Kind::Str(form) => push_texts(self.alloc, form.stop, &mut values)?,
            Kind::Bin(size, false) => push_patterns(self.alloc, *size, &mut values)?,
            Kind::Bin(most, true) => {
                for octets in 0..(*most / 8).saturating_add(1) {
                    push_patterns(self.alloc, octets.wrapping_mul(8), &mut values)?;
                }
            }
            Kind::Arr(item, count) => {
                let items = self.values_within(depth - 1, *item)?;
                let lists = lists_of(self.alloc, items.as_slice(), *count as usize)?;
                push_items(lists, &mut values)?;
            }
            Kind::Con(_) => self.push_fields(depth - 1, id, &mut values)?,
        }
        Ok(values)
    }

    // The values of all concrete containers at or under the type.
    #[cycle(values)]
    fn push_fields(&self, depth: u32, id: TypeId, values: &mut Vec<Value>) -> Result<(), Memory> {
        for number in 0..self.rows.len() {
            let container = TypeId(u32::try_from(number).unwrap_or(u32::MAX));
            if self.is_concrete(container) && self.is_under(id, container)? {
                for fields in self.fields_of(depth, container)? {
                    values.push(Value::Fields(container, fields))?;
                }
            }
        }
        Ok(())
    }

    #[cycle(values)]
    fn fields_of(&self, depth: u32, container: TypeId) -> Result<Vec<Vec<Value>>, Memory> {
        let mut lists = empty_list(self.alloc)?;
        for placed in self.sequence(container)?.iter() {
            match placed.part {
                Part::Plain(_, id) => {
                    let choices = self.values_within(depth, *id)?;
                    lists = extended(self.alloc, lists.as_slice(), choices.as_slice())?;
                }
                Part::List(_, id, _, _) => {
                    let items = self.values_within(depth, *id)?;
                    let mut choices = Vec::new(self.alloc);
                    for count in 0..MOST_ITEMS + 1 {
                        let more = lists_of(self.alloc, items.as_slice(), count)?;
                        push_items(more, &mut choices)?;
                    }
                    lists = extended(self.alloc, lists.as_slice(), choices.as_slice())?;
                }
                _ => {}
            }
        }
        Ok(lists)
    }
}
