//! Chains and sequences.

use crate::slow::Slow;
use eds_base::{Memory, TypeId};
use eds_types::{Constraint, Container, Kind, Part, TypeRow};

/// A part, with the container that has it and its place among that container's entries and then its trailers.
#[derive(Clone, Copy)]
pub(crate) struct Placed<'a> {
    pub container: TypeId,
    pub place: usize,
    pub part: &'a Part,
}

impl<'a> Slow<'a> {
    pub(crate) fn row(&self, id: TypeId) -> Option<&'a TypeRow> {
        self.rows.get(id.0 as usize)
    }

    pub(crate) fn container(&self, id: TypeId) -> Option<&'a Container> {
        match self.row(id) {
            Some(row) => match &row.kind {
                Kind::Con(container) => Some(container),
                _ => None,
            },
            None => None,
        }
    }

    /// A container that isn't abstract.
    pub(crate) fn is_concrete(&self, id: TypeId) -> bool {
        match self.container(id) {
            Some(container) => !container.hidden,
            None => false,
        }
    }

    pub(crate) fn entries(&self, id: TypeId) -> &'a [Part] {
        match self.container(id) {
            Some(container) => container.entries.as_slice(),
            None => &[],
        }
    }

    pub(crate) fn trailers(&self, id: TypeId) -> &'a [Part] {
        match self.container(id) {
            Some(container) => container.trailers.as_slice(),
            None => &[],
        }
    }

    pub(crate) fn constraints(&self, id: TypeId) -> &'a [Constraint] {
        match self.container(id) {
            Some(container) => container.constraints.as_slice(),
            None => &[],
        }
    }

    /// The part at a place among a container's entries and then its trailers.
    pub(crate) fn part_at(&self, id: TypeId, place: usize) -> Option<&'a Part> {
        let entries = self.entries(id);
        if place < entries.len() {
            entries.get(place)
        } else {
            self.trailers(id).get(place - entries.len())
        }
    }

    /// The containers from the root of the bases down to this one.
    pub(crate) fn chain(&self, id: TypeId) -> Result<Vec<TypeId>, Memory> {
        let mut chain = Vec::new(self.alloc);
        chain.push(id)?;
        let mut at = id;
        for _ in 0..16 {
            let Some(row) = self.row(at) else {
                return Ok(chain);
            };
            let Some(base) = row.base else {
                return Ok(chain);
            };
            chain.insert(0, base)?;
            at = base;
        }
        Ok(chain)
    }

    /// Whether the second is the first, or derives from it.
    pub(crate) fn is_under(&self, id: TypeId, derived: TypeId) -> Result<bool, Memory> {
        Ok(self.chain(derived)?.contains(&id))
    }

    /// All parts of a container: the entries of its chain from the root down, then the trailers from the container up.
    pub(crate) fn sequence(&self, id: TypeId) -> Result<Vec<Placed<'a>>, Memory> {
        let chain = self.chain(id)?;
        let mut sequence = Vec::new(self.alloc);
        for container in chain.iter() {
            push_parts(&mut sequence, *container, 0, self.entries(*container))?;
        }
        for container in chain.iter().rev() {
            let first = self.entries(*container).len();
            push_parts(&mut sequence, *container, first, self.trailers(*container))?;
        }
        Ok(sequence)
    }
}

fn push_parts<'a>(
    sequence: &mut Vec<Placed<'a>>,
    container: TypeId,
    first: usize,
    parts: &'a [Part],
) -> Result<(), Memory> {
    let mut place = first;
    for part in parts {
        sequence.push(Placed {
            container,
            place,
            part,
        })?;
        place = place.wrapping_add(1);
    }
    Ok(())
}
