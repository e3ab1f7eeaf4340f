//! The interfaces of a sheet without own generic names.

ghost use Rattle.std.specs.Prelude.{◌≡◌, ◌<◌, ◌^◌, ℕ, length, true, IfOk, OnOk};
ghost use Rattle.eds_generic.specs.Clean.{AreAllClean};
ghost use Rattle.eds_base.specs.Refusals.{least};
ghost use Rattle.eds_generic.specs.Pairs.{ends_within, most};
ghost use Rattle.eds_generic.specs.Every.{alone_at as alone_at_in, alone_breaks};

use crate::face::Face;
use crate::found::PLACES;
use crate::resolving::least_here;
use crate::rules::{Asked, Clean};
use eds_base::{FaceId, Memory, Refusal, TypeId};
use std::alloc::Global;

fn alone_at(
    alloc: Global,
    clean: &mut Clean,
    faces: &[Face],
    types: &[Option<TypeId>],
    id: u32,
    face: &Face,
) -> Result<Option<Refusal>, Memory>
    requires ends { ends_within (most faces.now) faces.now id ≡ true }
    requires clean { AreAllClean faces.now types.now clean.old }
    ensures clean { OnOk result (AreAllClean faces.now types.now clean.new) }
    ensures least { IfOk result (λ r. r ≡ least (alone_at_in faces.now types.now id face.now)) }
{
    match face.generics.as_slice() {
        [_, ..] => Ok(None),
        [] => {
            let asked = Asked {
                faces,
                types,
                at: face.place,
                face: FaceId(id),
                given: &[],
            };
            let mut left = PLACES;
            least_here(alloc, clean, &asked, &mut left)
        }
    }
}

/// The first break at an interface without own generic names.
pub(crate) fn least_alone(
    alloc: Global,
    faces: &[Face],
    types: &[Option<TypeId>],
) -> Result<Option<Refusal>, Memory>
    requires few { length faces.now < 2 ^ 32 }
    requires ends { (f : ℕ) → ends_within (most faces.now) faces.now f ≡ true }
    ensures { IfOk result (λ r. r ≡ least (alone_breaks faces.now types.now)) }
{
    let mut clean = Clean::new(alloc);
    let mut found = None;
    for id in 0..faces.len() {
        let here = alone_at(alloc, &mut clean, faces, types, id as u32, &faces[id])?;
        found = Refusal::first(found, here);
    }
    Ok(found)
}
