//! A rule that keeps a name, at an interface under a map and at all its bases.

ghost use Rattle.std.specs.Prelude.{◌≡◌, ◌≤◌, true, List, Option, ℕ, IfOk, OnOk};
ghost use Rattle.std.specs.List.{flat_map, list_all};
ghost use Rattle.eds_base.specs.declared.ids.TypeId.{TypeId as type_id};
ghost use Rattle.eds_generic.specs.declared.face.Base.{Base as base_of};
ghost use Rattle.eds_generic.specs.declared.face.Face.{Face as face_of};
ghost use Rattle.eds_generic.specs.declared.pair.Pair.{Pair as pair_of};
ghost use Rattle.eds_generic.specs.Faces.{bases as bases_of};
ghost use Rattle.eds_generic.specs.Pairs.{below, reached, ends_within, most};
ghost use Rattle.eds_generic.specs.NameRules.{first, names_under, AreClean, IsAlike};

use crate::face::{Face, bases};
use crate::found::Found;
use crate::pair::{Pair, below_by, places_of};
use eds_base::{Memory, Text, TypeId};
use std::alloc::Global;

/// A rule that is judged at one interface under a map at a time.
pub(crate) trait NameRule {
    /// The names by which it is broken there, in order; for each type the one is given that it derives from.
    ghost names: { List face_of → List (Option type_id) → pair_of → List (List ℕ) };

    /// The first of them.
    fn first_at(
        alloc: Global,
        faces: &[Face],
        types: &[Option<TypeId>],
        pair: &Pair,
    ) -> Result<Option<Text>, Memory>
        ensures { IfOk result (λ w. w ≡ first (names faces.now types.now pair.now)) };
}

/// The first name by which a rule is broken at an interface under a map or at its bases, in the order in which these are reached.
/// Where the rule was found to be kept it is not judged again.
#[cycle(judge)]
fn first_in<R: NameRule>(
    alloc: Global,
    clean: &mut Found,
    faces: &[Face],
    types: &[Option<TypeId>],
    depth: usize,
    pair: Pair,
) -> Result<Option<Text>, Memory>
    requires ends { ends_within depth faces.now pair.face.0 ≡ true }
    requires few { depth ≤ most faces.now }
    requires alike { IsAlike R.names }
    requires clean { AreClean R.names faces.now types.now clean.old }
    ensures first { IfOk result (λ w. w ≡ first (flat_map (R.names faces.now types.now) (reached depth faces.now pair))) }
    ensures clean { OnOk result (AreClean R.names faces.now types.now clean.new) }
{
    if clean.has(&pair) {
        return Ok(None);
    }
    if depth == 0 {
        return Ok(None);
    }
    let here = R::first_at(alloc, faces, types, &pair)?;
    if here.is_some() {
        return Ok(here);
    }
    let under = first_below::<R>(alloc, clean, faces, types, depth - 1, &pair)?;
    if under.is_some() {
        return Ok(under);
    }
    let places = places_of(faces, pair.face);
    clean.put(pair, places)?;
    Ok(None)
}

#[cycle(judge)]
fn first_below<R: NameRule>(
    alloc: Global,
    clean: &mut Found,
    faces: &[Face],
    types: &[Option<TypeId>],
    depth: usize,
    pair: &Pair,
) -> Result<Option<Text>, Memory>
    requires ends { list_all (λ (b : base_of). ends_within depth faces.now b.face.0) (bases_of faces.now pair.now.face.0) ≡ true }
    requires few { depth ≤ most faces.now }
    requires alike { IsAlike R.names }
    requires clean { AreClean R.names faces.now types.now clean.old }
    ensures first { IfOk result (λ w. w ≡ first (flat_map (R.names faces.now types.now) (flat_map (reached depth faces.now) (below faces.now pair.now)))) }
    ensures clean { OnOk result (AreClean R.names faces.now types.now clean.new) }
{
    for base in bases(faces, pair.face) {
        let under = below_by(alloc, faces, pair.face, pair.types.as_slice(), base)?;
        let found = first_in::<R>(alloc, clean, faces, types, depth, under)?;
        if found.is_some() {
            return Ok(found);
        }
    }
    Ok(None)
}

/// The first name by which a rule is broken at an interface under a map or at its bases. Where the rule was found to be kept is
/// remembered, for whatever is judged next.
pub(crate) fn first_under<R: NameRule>(
    alloc: Global,
    clean: &mut Found,
    faces: &[Face],
    types: &[Option<TypeId>],
    pair: Pair,
) -> Result<Option<Text>, Memory>
    requires ends { ends_within (most faces.now) faces.now pair.face.0 ≡ true }
    requires alike { IsAlike R.names }
    requires clean { AreClean R.names faces.now types.now clean.old }
    ensures first { IfOk result (λ w. w ≡ first (names_under R.names faces.now types.now pair)) }
    ensures clean { OnOk result (AreClean R.names faces.now types.now clean.new) }
{
    match faces.len().checked_add(2) {
        None => Err(Memory),
        Some(depth) => {
            let found = first_in::<R>(alloc, clean, faces, types, depth, pair)?;
            clean.make_room(alloc);
            Ok(found)
        }
    }
}
