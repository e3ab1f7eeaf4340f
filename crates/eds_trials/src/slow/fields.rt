//! The fields of a container, the numbers on paths, and constraints.

use crate::slow::Slow;
use crate::slow::places::Placed;
use eds_base::{Memory, Spans, TypeId};
use eds_types::{Constraint, Kind, Part, Value};

/// Whether a part has a value among the fields.
pub(crate) fn has_value(part: &Part) -> bool {
    match part {
        Part::Plain(_, _) => true,
        Part::List(_, _, _, _) => true,
        _ => false,
    }
}

/// The value of the part at a place of a container.
pub(crate) fn value_at<'v>(
    sequence: &[Placed],
    values: &'v [Value],
    container: TypeId,
    place: usize,
) -> Option<&'v Value> {
    let mut at = 0usize;
    for placed in sequence {
        if has_value(placed.part) {
            if placed.container == container && placed.place == place {
                return values.get(at);
            }
            at = at.wrapping_add(1);
        }
    }
    None
}

/// Whether a number is one of a set.
pub(crate) fn is_in(set: &Spans, n: i128) -> bool {
    set.as_slice()
        .iter()
        .any(|span| span.low <= n && n <= span.high)
}

/// The number of a label: that of its first line.
pub(crate) fn listed(kind: &Kind, label: &str) -> Option<i128> {
    if let Kind::Enum(_, listing) = kind {
        for line in listing.as_slice() {
            if line.0.as_str() == label {
                return Some(line.1);
            }
        }
    }
    None
}

impl<'a> Slow<'a> {
    // The number that a constraint sees at the entry that has the value.
    fn number_of(&self, container: TypeId, place: usize, value: &Value) -> Option<i128> {
        match value {
            Value::Num(n) => Some(*n),
            Value::Bool(truth) => Some(if *truth { 1 } else { 0 }),
            Value::Fields(id, _) => Some(i128::from(id.0)),
            Value::Label(label) => match self.part_at(container, place) {
                Some(Part::Plain(_, id)) => match self.row(*id) {
                    Some(row) => listed(&row.kind, label.as_str()),
                    None => None,
                },
                _ => None,
            },
            _ => None,
        }
    }

    // The number on a path.
    fn number_on(
        &self,
        id: TypeId,
        values: &[Value],
        path: &[(TypeId, u16)],
    ) -> Result<Option<i128>, Memory> {
        let mut id = id;
        let mut values = values;
        let mut rest = path;
        while let [(container, place), after @ ..] = rest {
            let sequence = self.sequence(id)?;
            let found = value_at(sequence.as_slice(), values, *container, *place as usize);
            let Some(value) = found else {
                return Ok(None);
            };
            if after.is_empty() {
                return Ok(self.number_of(*container, *place as usize, value));
            }
            let Value::Fields(inner, fields) = value else {
                return Ok(None);
            };
            id = *inner;
            values = fields.as_slice();
            rest = after;
        }
        Ok(None)
    }

    /// Whether a constraint holds in the fields of a container.
    pub(crate) fn holds(
        &self,
        id: TypeId,
        values: &[Value],
        constraint: &Constraint,
    ) -> Result<bool, Memory> {
        Ok(
            match self.number_on(id, values, constraint.path.as_slice())? {
                Some(n) => is_in(&constraint.set, n),
                None => false,
            },
        )
    }

    // Whether the constraint starts in an entry, and no trailer, of the container or one of its bases.
    fn starts_above(&self, id: TypeId, constraint: &Constraint) -> Result<bool, Memory> {
        Ok(match constraint.path.get(0) {
            Some((container, place)) => {
                (*place as usize) < self.entries(*container).len() && self.is_under(*container, id)?
            }
            None => false,
        })
    }

    /// Whether all constraints along a container's chain hold in the fields.
    pub(crate) fn all_hold(&self, id: TypeId, values: &[Value]) -> Result<bool, Memory> {
        for above in self.chain(id)?.iter() {
            for constraint in self.constraints(*above) {
                if !self.holds(id, values, constraint)? {
                    return Ok(false);
                }
            }
        }
        Ok(true)
    }

    // Whether `other` is a candidate at `id` for the fields of `id`.
    fn is_candidate(&self, id: TypeId, other: TypeId, values: &[Value]) -> Result<bool, Memory> {
        if !self.is_concrete(other) || !self.is_under(id, other)? {
            return Ok(false);
        }
        for above in self.chain(other)?.iter() {
            for constraint in self.constraints(*above) {
                if self.starts_above(id, constraint)? && !self.holds(id, values, constraint)? {
                    return Ok(false);
                }
            }
        }
        Ok(true)
    }

    /// Whether no container strictly under this one is a candidate for its fields.
    pub(crate) fn is_most_derived(&self, id: TypeId, values: &[Value]) -> Result<bool, Memory> {
        for number in 0..self.rows.len() {
            let other = TypeId(u32::try_from(number).unwrap_or(u32::MAX));
            if other != id && self.is_candidate(id, other, values)? {
                return Ok(false);
            }
        }
        Ok(true)
    }
}
