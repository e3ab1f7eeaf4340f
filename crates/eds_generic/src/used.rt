//! Interfaces that are used under maps: by the ends of components.

ghost use Rattle.std.specs.Prelude.{◌≡◌, [], ℕ, true, IfOk, OnOk};
ghost use Rattle.eds_generic.specs.Clean.{AreAllClean};
ghost use Rattle.std.specs.List.{flat_map};
ghost use Rattle.eds_base.specs.Refusals.{least};
ghost use Rattle.eds_generic.specs.Every.{own_cycles};
ghost use Rattle.eds_generic.specs.Pairs.{ends_within, most};
ghost use Rattle.eds_generic.specs.Uses.{use_breaks, use_instance, breaks_with_uses};

use crate::cycle::least_own_cycle;
use crate::every::least_alone;
use crate::face::{Face, generics};
use crate::found::PLACES;
use crate::members::{members, under};
use crate::resolving::{copied_map, least_here};
use crate::rules::{Asked, Clean};
use eds_base::{FaceId, Items, Memory, Place, Refusal, TypeId};
use eds_plan::{Instance, Members, TypeMap};
use std::alloc::Global;

/// How many bases, generic names, members and arguments may be met for all that is used: past these no memory is found.
const STEPS: u64 = 4194304;

/// An interface that is used under a map of its generic names, and the element that uses it.
#[derive(Drop)]
pub struct FaceUse {
    pub place: Place,
    pub face: FaceId,
    pub map: TypeMap,
}

/// Takes so much off what is left; where it is more, no memory is found.
fn spend(left: &mut u64, count: usize) -> Result<(), Memory> {
    match left.checked_sub(count as u64) {
        None => Err(Memory),
        Some(rest) => {
            *left = rest;
            Ok(())
        }
    }
}

fn least_at(
    alloc: Global,
    clean: &mut Clean,
    faces: &[Face],
    types: &[Option<TypeId>],
    used: &FaceUse,
    left: &mut u64,
) -> Result<Option<Refusal>, Memory>
    requires ends { ends_within (most faces.now) faces.now used.now.face.0 ≡ true }
    requires clean { AreAllClean faces.now types.now clean.old }
    ensures clean { OnOk result (AreAllClean faces.now types.now clean.new) }
    ensures least { IfOk result (λ r. r ≡ least (use_breaks faces.now types.now used.now)) }
{
    // the members and each rule look for what the names of the map stand for
    spend(left, generics(faces, used.face).len().saturating_mul(4))?;
    spend(left, used.map.len().saturating_mul(4))?;
    let asked = Asked {
        faces,
        types,
        at: used.place,
        face: used.face,
        given: used.map.as_slice(),
    };
    least_here(alloc, clean, &asked, left)
}

/// The first break at an interface that is used.
fn least_used(
    alloc: Global,
    faces: &[Face],
    types: &[Option<TypeId>],
    uses: &[FaceUse],
) -> Result<Option<Refusal>, Memory>
    requires { (f : ℕ) → ends_within (most faces.now) faces.now f ≡ true }
    ensures { IfOk result (λ r. r ≡ least (flat_map (use_breaks faces.now types.now) uses.now)) }
{
    let mut clean = Clean::new(alloc);
    let mut found = None;
    let mut left = STEPS;
    for used in uses {
        let here = least_at(alloc, &mut clean, faces, types, used, &mut left)?;
        found = Refusal::first(found, here);
    }
    Ok(found)
}

/// The first rule that the interfaces of a sheet break: one of them is its own base; or, where none is, one without own generic
/// names breaks a rule under the empty map, or one that is used breaks it under its map, and the refusal stands where it is used.
/// No memory is found where more than 4,194,304 bases, generic names, members and arguments are met at what is used.
pub fn judge_uses(
    alloc: Global,
    faces: &[Face],
    types: &[Option<TypeId>],
    uses: &[FaceUse],
) -> Result<Option<Refusal>, Memory>
    ensures { IfOk result (λ r. r ≡ least (breaks_with_uses faces.now types.now uses.now)) }
{
    if faces.len() > u32::MAX as usize {
        return Err(Memory);
    }
    match least_own_cycle(alloc, faces)? {
        Some(refusal) => Ok(Some(refusal)),
        None => {
            let alone = least_alone(alloc, faces, types)?;
            let used = least_used(alloc, faces, types, uses)?;
            Ok(Refusal::first(alone, used))
        }
    }
}

/// An interface as it is used, with all its members. No interface is its own base.
pub fn instance(alloc: Global, faces: &[Face], used: &FaceUse) -> Result<Instance, Memory>
    requires { own_cycles faces.now ≡ [] }
    ensures { IfOk result (λ i. i ≡ use_instance faces.now used.now) }
{
    let given = used.map.as_slice();
    let pair = under(alloc, faces, used.face, given)?;
    let mut left = PLACES;
    let Ok(members) = members(alloc, faces, pair, &mut left) else {
        return Err(Memory);
    };
    let map = copied_map(alloc, given)?;
    let shared = Members::new(alloc, Items::from_vec(members))?;
    Ok(Instance {
        face: used.face,
        map,
        members: shared,
    })
}
