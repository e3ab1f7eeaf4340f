//! The members of an interface under a map.

ghost use Rattle.std.specs.Prelude.{◌≡◌, ◌≤◌, ◌<◌, ◌++◌, ◌∷◌, [], ℕ, List, Some, if◌then◌else◌, map, length, option_map, string_bytes, true, IfOk, OnOk};
ghost use Rattle.std.specs.List.{flat_map};
ghost use Rattle.std.specs.Option.{option_copied};
ghost use Rattle.eds_names.specs.Repeats.{is_among};
ghost use Rattle.eds_plan.specs.declared.instance.Member.{Member as member};
ghost use Rattle.eds_generic.specs.Faces.{names_of as names_of_generics};
ghost use Rattle.eds_generic.specs.Pairs.{ends_within, most};
ghost use Rattle.eds_generic.specs.Members.{id_or_first as id_or_first_of, type_in as type_in_bounds, argument_of as argument_in, member_of as member_in, members_of, members as members_in, each_once as each_once_in, declared_count, mapped_given as mapped_given_in, under as under_map, name_of as name_in, repeated};
ghost use Rattle.eds_generic.specs.Stops.{OnNamed};
ghost use Rattle.eds_generic.specs.NameRules.{first};

use crate::face::{Base, Face, Generic, Mapped, OwnArgument, OwnMember, Source, generics, own};
use crate::found::Found;
use crate::gather::{Gathered, TooMany, gather};
use crate::pair::{Bound, Pair, below_by};
use eds_base::{FaceId, Fail, Items, Memory, Text, TypeId};
use eds_names::NameList;
use eds_plan::{Argument, Member};
use indexmap::IndexSet;
use std::alloc::Global;

fn id_or_first(bound: Option<&Bound>) -> TypeId
    ensures { result ≡ id_or_first_of (option_copied bound.entry) }
{
    match bound {
        Some(Bound::Sort(id)) => *id,
        _ => TypeId(0),
    }
}

fn type_in(types: &[Bound], source: Source) -> TypeId
    ensures { result ≡ type_in_bounds types.now source }
{
    match source {
        Source::Generic(k) => id_or_first(types.get(k)),
        Source::Sort(id) => id,
    }
}

fn argument_of(alloc: Global, types: &[Bound], own: &OwnArgument) -> Result<Argument, Memory>
    ensures { IfOk result (λ a. a ≡ argument_in types.now own.now) }
{
    Ok(Argument {
        name: Text::of(alloc, own.name.as_str())?,
        id: type_in(types, own.source),
        mode: own.mode,
    })
}

fn arguments_of(
    alloc: Global,
    types: &[Bound],
    own: &[OwnArgument],
) -> Result<Vec<Argument>, Memory>
    ensures { IfOk result (λ a. a.items ≡ map (argument_in types.now) own.now) }
{
    let mut arguments = Vec::new(alloc);
    for one in own {
        let argument = argument_of(alloc, types, one)?;
        arguments.push(argument)?;
    }
    Ok(arguments)
}

/// An own member, each generic name replaced.
fn member_of(alloc: Global, types: &[Bound], own: &OwnMember) -> Result<Member, Memory>
    ensures { IfOk result (λ m. m ≡ member_in types.now own.now) }
{
    match own {
        OwnMember::Parameter(name, source, read_only) => {
            let name = Text::of(alloc, name.as_str())?;
            Ok(Member::Parameter(name, type_in(types, *source), *read_only))
        }
        OwnMember::Command(name, arguments) => {
            let name = Text::of(alloc, name.as_str())?;
            let arguments = arguments_of(alloc, types, arguments.as_slice())?;
            Ok(Member::Command(name, Items::from_vec(arguments)))
        }
    }
}

fn push_members(
    alloc: Global,
    members: &mut Vec<Member>,
    faces: &[Face],
    pair: &Pair,
) -> Result<(), Memory>
    ensures { OnOk result (members.new.items ≡ members.old.items ++ members_of faces.now pair.now) }
{
    for one in own(faces, pair.face) {
        let member = member_of(alloc, pair.types.as_slice(), one)?;
        members.push(member)?;
    }
    Ok(())
}

fn each_once(
    alloc: Global,
    faces: &[Face],
    pair: Pair,
    left: &mut u64,
) -> Result<Found, Fail<TooMany>>
    requires { ends_within (most faces.now) faces.now pair.face.0 ≡ true }
    ensures found { IfOk result (λ ps. ps ≡ each_once_in faces.now pair) }
    ensures few { OnOk result (declared_count faces.now (each_once_in faces.now pair) ≤ 1024) }
    ensures many { OnNamed result (1024 < declared_count faces.now (each_once_in faces.now pair)) }
{
    let mut gathered = Gathered::new(alloc, *left);
    match faces.len().checked_add(2) {
        None => Err(Fail::Memory),
        Some(depth) => {
            let done = gather(alloc, &mut gathered, faces, depth, pair);
            *left = gathered.found.left();
            done?;
            Ok(gathered.found)
        }
    }
}

fn members_over(alloc: Global, faces: &[Face], pairs: &[Pair]) -> Result<Vec<Member>, Memory>
    ensures { IfOk result (λ ms. ms.items ≡ flat_map (members_of faces.now) pairs.now) }
{
    let mut members = Vec::new(alloc);
    for one in pairs {
        push_members(alloc, &mut members, faces, one)?;
    }
    Ok(members)
}

// One for each member and for each of its arguments.
fn weight(members: &[Member]) -> u64 {
    let mut weight = 0u64;
    for one in members {
        weight = weight.saturating_add(1);
        if let Member::Command(_, arguments) = one {
            weight = weight.saturating_add(arguments.len() as u64);
        }
    }
    weight
}

/// The members of an interface under a map: those of its bases in order, and then its own. They are not gathered where there are
/// more than 1,024. What is met is taken off what is left: the places for types of all bases, the members and their arguments;
/// where it is more, no memory is found.
#[tactic(auto, unfolding(crate::specs::Members::members))]
pub(crate) fn members(
    alloc: Global,
    faces: &[Face],
    pair: Pair,
    left: &mut u64,
) -> Result<Vec<Member>, Fail<TooMany>>
    requires { ends_within (most faces.now) faces.now pair.face.0 ≡ true }
    ensures members { IfOk result (λ ms. ms.items ≡ members_in faces.now pair) }
    ensures few { OnOk result (length (members_in faces.now pair) ≤ 1024) }
    ensures many { OnNamed result (1024 < length (members_in faces.now pair)) }
{
    let pairs = each_once(alloc, faces, pair, left)?;
    let members = members_over(alloc, faces, pairs.as_slice())?;
    match left.checked_sub(weight(&members)) {
        None => Err(Fail::Memory),
        Some(rest) => {
            *left = rest;
            Ok(members)
        }
    }
}

fn names_of(alloc: Global, generics: &[Generic]) -> Result<Vec<Text>, Memory>
    ensures { IfOk result (λ n. n.items ≡ names_of_generics generics.now) }
{
    let mut names = Vec::new(alloc);
    for generic in generics {
        names.push(Text::of(alloc, generic.name.as_str())?)?;
    }
    Ok(names)
}

fn mapped_given(alloc: Global, own: &NameList, one: &(Text, TypeId)) -> Result<Mapped, Memory>
    ensures { IfOk result (λ m. m ≡ mapped_given_in own.now one.now) }
{
    let name = Text::of(alloc, one.0.as_str())?;
    Ok(Mapped {
        name,
        generic: own.position(one.0.as_str()),
        source: Source::Sort(one.1),
    })
}

fn maps_given(
    alloc: Global,
    own: &NameList,
    given: &[(Text, TypeId)],
) -> Result<Vec<Mapped>, Memory>
    ensures { IfOk result (λ m. m.items ≡ map (mapped_given_in own.now) given.now) }
{
    let mut maps = Vec::new(alloc);
    for one in given {
        let mapped = mapped_given(alloc, own, one)?;
        maps.push(mapped)?;
    }
    Ok(maps)
}

/// An interface under a given map.
pub(crate) fn under(
    alloc: Global,
    faces: &[Face],
    face: FaceId,
    given: &[(Text, TypeId)],
) -> Result<Pair, Memory>
    ensures { IfOk result (λ p. p ≡ under_map faces.now face given.now) }
{
    let names = names_of(alloc, generics(faces, face))?;
    let own = NameList::of(alloc, names)?;
    let maps = maps_given(alloc, &own, given)?;
    let base = Base {
        face,
        maps: Items::from_vec(maps),
    };
    below_by(alloc, faces, face, &[], &base)
}

fn name_of(member: &Member) -> &str
    ensures { result.now ≡ name_in member.now }
{
    match member {
        Member::Parameter(name, _, _) => name.as_str(),
        Member::Command(name, _) => name.as_str(),
    }
}

/// Puts a name among those of later members, and says whether it was there.
fn note_later(alloc: Global, later: &mut IndexSet<String>, name: &str) -> Result<bool, Memory>
    ensures found { IfOk result (λ found. found ≡ is_among (map string_bytes later.old.keys) name.now) }
    ensures later { OnOk result ((q : List ℕ) → is_among (map string_bytes later.new.keys) q ≡ is_among (name.now ∷ map string_bytes later.old.keys) q) }
{
    if later.contains(name) {
        return Ok(true);
    }
    let name = String::from_str(alloc, name)?;
    let _added = later.insert(name)?;
    Ok(false)
}

fn first_of<'a>(repeated: bool, name: &'a str, found: Option<&'a str>) -> Option<&'a str>
    ensures { option_map (λ n. n.now) result ≡ (if repeated then Some name.now else option_map (λ n. n.now) found.entry) }
{
    if repeated { Some(name) } else { found }
}

/// The name of the first member of which a later one has the name too.
pub(crate) fn first_repeated<'a>(
    alloc: Global,
    members: &'a [Member],
) -> Result<Option<&'a str>, Memory>
    ensures { IfOk result (λ name. option_map (λ n. n.now) name ≡ first (repeated members.now)) }
{
    let mut later = IndexSet::new(alloc);
    let mut found = None;
    let mut left = members.len();
    while left > 0 {
        left -= 1;
        let name = name_of(&members[left]);
        let repeated = note_later(alloc, &mut later, name)?;
        found = first_of(repeated, name, found);
    }
    Ok(found)
}
