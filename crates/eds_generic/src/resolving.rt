//! An interface resolved.

ghost use Rattle.std.specs.Prelude.{◌≡◌, ◌≤◌, length, codes, true, IfOk, OnOk};
ghost use Rattle.eds_generic.specs.Clean.{AreAllClean};
ghost use Rattle.eds_base.specs.Answering.{Answers};
ghost use Rattle.eds_base.specs.Refusals.{least};
ghost use Rattle.eds_base.specs.declared.rule.Rule.TheVariants.{Limit};
ghost use Rattle.eds_generic.specs.Pairs.{ends_within, most};
ghost use Rattle.eds_generic.specs.Members.{members as members_in, under as under_map};
ghost use Rattle.eds_generic.specs.NameRules.{duplicates_of, keeping as keeping_word};
ghost use Rattle.eds_generic.specs.Resolved.{breaks_given, pair_breaks, members_or_limit, unless, instance_of, resolved};

use crate::cycle::least_cycle;
use crate::face::Face;
use crate::found::PLACES;
use crate::members::{first_repeated, members, under};
use crate::rules::{
    Asked, Clean, copied, keeping, keeping_where, least_generic_base, least_unknown, least_unmapped,
};
use eds_base::{FaceId, Fail, Items, Memory, Place, Refusal, Rule, Text, TypeId};
use eds_plan::{Instance, Member, Members, TypeMap};
use std::alloc::Global;

fn limit_at(alloc: Global, at: Place) -> Result<Refusal, Memory>
    ensures { IfOk result (λ r. r ≡ keeping_word Limit at (codes "members")) }
{
    let word = Text::of(alloc, "members")?;
    Ok(keeping(Rule::Limit, at, word))
}

/// The members of what is asked, or the refusal that there are more than 1,024.
fn few_members(alloc: Global, asked: &Asked, left: &mut u64) -> Result<Vec<Member>, Fail<Refusal>>
    requires { ends_within (most asked.now.faces.now) asked.now.faces.now asked.now.face.0 ≡ true }
    ensures { Answers (λ ms. ms.items) result (members_or_limit asked.now.faces.now asked.now.at (under_map asked.now.faces.now asked.now.face asked.now.given.now)) }
{
    let pair = under(alloc, asked.faces, asked.face, asked.given)?;
    match members(alloc, asked.faces, pair, left) {
        Ok(members) => Ok(members),
        Err(Fail::Named(_)) => Err(Fail::Named(limit_at(alloc, asked.at)?)),
        Err(Fail::Memory) => Err(Fail::Memory),
    }
}

/// The first member of which a later one has the name too.
fn least_duplicate(alloc: Global, at: Place, members: &[Member]) -> Result<Option<Refusal>, Memory>
    ensures { IfOk result (λ r. r ≡ least (duplicates_of at members.now)) }
{
    let word = copied(alloc, first_repeated(alloc, members)?)?;
    Ok(keeping_where(Rule::DuplicateMember, at, word))
}

/// The first break of the rules on generic names and on the names of members, of which there are at most 1,024.
fn least_break(
    alloc: Global,
    clean: &mut Clean,
    asked: &Asked,
    members: &[Member],
) -> Result<Option<Refusal>, Memory>
    requires ends { ends_within (most asked.now.faces.now) asked.now.faces.now asked.now.face.0 ≡ true }
    requires few { length members.now ≤ 1024 }
    requires clean { AreAllClean asked.now.faces.now asked.now.types.now clean.old }
    ensures least { IfOk result (λ r. r ≡ least (breaks_given asked.now.faces.now asked.now.types.now asked.now.at (under_map asked.now.faces.now asked.now.face asked.now.given.now) members.now)) }
    ensures clean { OnOk result (AreAllClean asked.now.faces.now asked.now.types.now clean.new) }
{
    let duplicate = least_duplicate(alloc, asked.at, members)?;
    let unmapped = least_unmapped(alloc, &mut clean.unmapped, asked)?;
    let unknown = least_unknown(alloc, &mut clean.unknown, asked)?;
    let generic = least_generic_base(alloc, &mut clean.refused, asked)?;
    let found = Refusal::first(duplicate, unmapped);
    let found = Refusal::first(found, unknown);
    Ok(Refusal::first(found, generic))
}

pub(crate) fn copied_map(alloc: Global, given: &[(Text, TypeId)]) -> Result<TypeMap, Memory>
    ensures { IfOk result (λ m. m ≡ given.now) }
{
    let mut copy = Vec::new(alloc);
    for one in given {
        let name = Text::of(alloc, one.0.as_str())?;
        copy.push((name, one.1))?;
    }
    Ok(Items::from_vec(copy))
}

/// The first break of the rules on generic names and on members, at an interface whose members are not known yet. What is met is
/// taken off what is left.
pub(crate) fn least_here(
    alloc: Global,
    clean: &mut Clean,
    asked: &Asked,
    left: &mut u64,
) -> Result<Option<Refusal>, Memory>
    requires ends { ends_within (most asked.now.faces.now) asked.now.faces.now asked.now.face.0 ≡ true }
    requires clean { AreAllClean asked.now.faces.now asked.now.types.now clean.old }
    ensures clean { OnOk result (AreAllClean asked.now.faces.now asked.now.types.now clean.new) }
    ensures least { IfOk result (λ r. r ≡ least (pair_breaks asked.now.faces.now asked.now.types.now asked.now.at (under_map asked.now.faces.now asked.now.face asked.now.given.now))) }
{
    match few_members(alloc, asked, left) {
        Ok(members) => least_break(alloc, clean, asked, &members),
        Err(Fail::Named(refusal)) => Ok(Some(refusal)),
        Err(Fail::Memory) => Err(Memory),
    }
}

fn resolve_acyclic(alloc: Global, asked: &Asked) -> Result<Instance, Fail<Refusal>>
    requires { ends_within (most asked.now.faces.now) asked.now.faces.now asked.now.face.0 ≡ true }
    ensures { Answers (λ i. i) result (unless (least (pair_breaks asked.now.faces.now asked.now.types.now asked.now.at (under_map asked.now.faces.now asked.now.face asked.now.given.now))) (instance_of asked.now.faces.now asked.now.face asked.now.given.now)) }
{
    let mut left = PLACES;
    let members = few_members(alloc, asked, &mut left)?;
    let mut clean = Clean::new(alloc);
    match least_break(alloc, &mut clean, asked, &members)? {
        Some(refusal) => Err(Fail::Named(refusal)),
        None => {
            let map = copied_map(alloc, asked.given)?;
            let shared = Members::new(alloc, Items::from_vec(members))?;
            Ok(Instance {
                face: asked.face,
                map,
                members: shared,
            })
        }
    }
}

/// The members of an interface under a map of its generic names, or the first rule that is broken: an interface among it and its
/// bases is its own base; there are more than 1,024 members, two members have one name, a generic name is in no map, a map names
/// what is no generic name of its interface, or a generic name stands for a type that it does not admit. For each type the one is
/// given that it derives from. A refusal stands at the place `at`, but that of an interface which is its own base stands there.
#[tactic(auto, unfolding(crate::specs::Resolved::resolved))]
pub fn resolve_face(
    alloc: Global,
    faces: &[Face],
    types: &[Option<TypeId>],
    at: Place,
    face: FaceId,
    given: &[(Text, TypeId)],
) -> Result<Instance, Fail<Refusal>>
    ensures { Answers (λ i. i) result (resolved faces.now types.now at face given.now) }
{
    match least_cycle(alloc, faces, face)? {
        Some(refusal) => Err(Fail::Named(refusal)),
        None => {
            let asked = Asked {
                faces,
                types,
                at,
                face,
                given,
            };
            resolve_acyclic(alloc, &asked)
        }
    }
}
