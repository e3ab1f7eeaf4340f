//! Interfaces under maps of their generic names.

ghost use Rattle.std.specs.Prelude.{◌≡◌, ◌++◌, map, IfOk, OnOk};
ghost use Rattle.eds_generic.specs.Pairs.{meant as meant_in, meant_by, noted, further_of, below_by as below_by_base, same_bound as is_same_bound, same_types as are_same_types, same_further as is_same_further, all_within as are_within, same_pair as is_same_pair};
ghost use Rattle.eds_generic.specs.Sameness.{bound_input, pair_input, pairs_alike, same_pair-is, same_pair-partial};
ghost use Rattle.std.proofs.Common.{rules};
ghost use Rattle.std.specs.Cmp.Rules.{hashing};
ghost use Rattle.std.specs.List.{flat_map, list_any, range_with_len};
ghost use Rattle.eds_generic.specs.Faces.{mapped};

use crate::face::{Base, Face, Mapped, Source, bases, generics};
use eds_base::{FaceId, Items, Memory, Text, TypeId};
use std::alloc::Global;
use std::hash::{Hash, Hasher};

/// What a generic name stands for.
#[derive(Clone, Copy, PartialEq, Eq)]
pub enum Bound {
    /// It is not in the map.
    Unmapped,
    /// It was handed a generic name that no map gives a type: that of this interface, by its position there.
    Unknown(FaceId, usize),
    Sort(TypeId),
}

/// A name in a map that is no generic name of the interface.
#[derive(Drop)]
pub struct Further {
    pub name: Text,
    pub bound: Bound,
}

/// An interface under a map.
#[derive(Drop)]
pub struct Pair {
    pub face: FaceId,
    /// What its generic names stand for, in their order.
    pub types: Items<Bound>,
    /// The further names of the map, in their order.
    pub further: Items<Further>,
}

/// A type as an interface names it, where its own generic names stand for these.
fn meant(face: FaceId, types: &[Bound], source: Source) -> Bound
    ensures { result ≡ meant_in face types.now source }
{
    match source {
        Source::Sort(id) => Bound::Sort(id),
        Source::Generic(k) => match types.get(k) {
            None => Bound::Unknown(face, k),
            Some(Bound::Unmapped) => Bound::Unknown(face, k),
            Some(Bound::Unknown(first, place)) => Bound::Unknown(*first, *place),
            Some(Bound::Sort(id)) => Bound::Sort(*id),
        },
    }
}

/// Notes what a map says of a generic name.
fn note(bound: &mut Vec<Bound>, face: FaceId, types: &[Bound], one: &Mapped)
    ensures { bound.new.items ≡ noted face types.now one.now bound.old.items }
{
    match one.generic {
        None => (),
        Some(k) => {
            if k < bound.len() {
                bound[k] = meant(face, types, one.source);
            }
        }
    }
}

/// What so many generic names of a base stand for under the base's map and the outer one.
fn bound_types(
    alloc: Global,
    face: FaceId,
    types: &[Bound],
    maps: &[Mapped],
    count: usize,
) -> Result<Vec<Bound>, Memory>
    ensures { IfOk result (λ b. b.items ≡ map (λ k. meant_by face types.now (mapped maps.now k)) (range_with_len 0 count)) }
{
    let mut bound = vec![in alloc; Bound::Unmapped; count]?;
    let mut left = maps.len();
    while left > 0 {
        left -= 1;
        note(&mut bound, face, types, &maps[left]);
    }
    Ok(bound)
}

fn push_further(
    alloc: Global,
    further: &mut Vec<Further>,
    face: FaceId,
    types: &[Bound],
    one: &Mapped,
) -> Result<(), Memory>
    ensures { OnOk result (further.new.items ≡ further.old.items ++ further_of face types.now one.now) }
{
    if one.generic.is_some() {
        return Ok(());
    }
    let name = Text::of(alloc, one.name.as_str())?;
    further.push(Further {
        name,
        bound: meant(face, types, one.source),
    })?;
    Ok(())
}

fn further_names(
    alloc: Global,
    face: FaceId,
    types: &[Bound],
    maps: &[Mapped],
) -> Result<Vec<Further>, Memory>
    ensures { IfOk result (λ f. f.items ≡ flat_map (further_of face types.now) maps.now) }
{
    let mut further = Vec::new(alloc);
    for one in maps {
        push_further(alloc, &mut further, face, types, one)?;
    }
    Ok(further)
}

/// A base of an interface under its own map, whose types are first replaced by the outer map.
pub(crate) fn below_by(
    alloc: Global,
    faces: &[Face],
    face: FaceId,
    types: &[Bound],
    base: &Base,
) -> Result<Pair, Memory>
    ensures { IfOk result (λ p. p ≡ below_by_base faces.now face types.now base.now) }
{
    let count = generics(faces, base.face).len();
    let bound = bound_types(alloc, face, types, base.maps.as_slice(), count)?;
    let further = further_names(alloc, face, types, base.maps.as_slice())?;
    Ok(Pair {
        face: base.face,
        types: Items::from_vec(bound),
        further: Items::from_vec(further),
    })
}

/// How many places for types the bases of an interface have: one for each generic name and for each name of a map.
pub(crate) fn places_of(faces: &[Face], face: FaceId) -> u64 {
    let mut places = 1u64;
    for base in bases(faces, face) {
        let own = generics(faces, base.face).len() as u64;
        let named = base.maps.len() as u64;
        places = places
            .saturating_add(own)
            .saturating_add(named)
            .saturating_add(1);
    }
    places
}

fn same_bound(one: Bound, other: Bound) -> bool
    ensures { result ≡ is_same_bound one other }
{
    match one {
        Bound::Unmapped => match other {
            Bound::Unmapped => true,
            _ => false,
        },
        Bound::Unknown(face, k) => match other {
            Bound::Unknown(other_face, j) => face.0 == other_face.0 && k == j,
            _ => false,
        },
        Bound::Sort(a) => match other {
            Bound::Sort(b) => a.0 == b.0,
            _ => false,
        },
    }
}

fn same_types(one: &[Bound], other: &[Bound]) -> bool
    ensures { result ≡ are_same_types one.now other.now }
{
    let mut left = one;
    let mut right = other;
    while let [a, after @ ..] = left {
        match right {
            [] => return false,
            [b, behind @ ..] => {
                if !same_bound(*a, *b) {
                    return false;
                }
                left = after;
                right = behind;
            }
        }
    }
    match right {
        [] => true,
        [_, ..] => false,
    }
}

fn is_held(further: &[Further], one: &Further) -> bool
    ensures { result ≡ list_any (is_same_further one.now) further.now }
{
    further.iter().any(|other| {
        one.name.as_str() == other.name.as_str() && same_bound(one.bound, other.bound)
    })
}

fn all_within(more: &[Further], less: &[Further]) -> bool
    ensures { result ≡ are_within more.now less.now }
{
    less.iter().all(|one| is_held(more, one))
}

/// Whether two are one interface under one map: the order of a map's names is none of its own.
pub(crate) fn same_pair(one: &Pair, other: &Pair) -> bool
    ensures { result ≡ is_same_pair one.now other.now }
{
    one.face.0 == other.face.0
        && same_types(one.types.as_slice(), other.types.as_slice())
        && all_within(one.further.as_slice(), other.further.as_slice())
        && all_within(other.further.as_slice(), one.further.as_slice())
}

impl Hash for Bound {
    ghost hash_input = { bound_input };

    ghost respects_eq = { Prim.search (hashing, rules) };

    fn hash<H: Hasher>(&self, state: &mut H) {
        match self {
            Bound::Unmapped => state.write_u8(0),
            Bound::Unknown(face, k) => {
                state.write_u8(1);
                state.write_u32(face.0);
                state.write_usize(*k);
            }
            Bound::Sort(id) => {
                state.write_u8(2);
                state.write_u32(id.0);
            }
        }
    }
}

impl PartialEq for Pair {
    ghost eq = { is_same_pair };

    ghost laws = { same_pair-partial };

    fn eq(&self, other: &Pair) -> bool {
        same_pair(self, other)
    }
}

impl Eq for Pair {
    ghost laws = { same_pair-is };
}

impl Hash for Pair {
    ghost hash_input = { pair_input };

    ghost respects_eq = { pairs_alike };

    fn hash<H: Hasher>(&self, state: &mut H) {
        state.write_u32(self.face.0);
        self.types.as_slice().hash(state);
    }
}
