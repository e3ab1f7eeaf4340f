//! The members of an end, by their names, and what a command carries.

ghost use Rattle.std.specs.Prelude.{◌≡◌, ◌++◌, ◌∷◌, [], IfOk, OnOk, option_map};
ghost use Rattle.eds_plan.specs.Carried.{arriving as arriving_way, carried_fields as carried_of, goes as goes_way};
ghost use Rattle.eds_script.specs.Members.{command_place, parameter_from};
ghost use Rattle.eds_script.specs.Seen.{parameter_of};

use eds_base::{Memory, Text, TypeId};
use eds_plan::{Argument, FieldList, Member, Mode, Way};
use std::alloc::Global;

/// A parameter: its position among the members, its type, and whether it is read-only.
#[derive(Clone, Copy)]
pub(crate) struct Parametered {
    pub(crate) place: u16,
    pub(crate) id: TypeId,
    pub(crate) read_only: bool,
}

// The position of a command of the name.
fn as_command(member: &Member, place: u16, name: &str) -> Option<u16>
    ensures { result ≡ command_place name.now place (member.now ∷ []) }
{
    match member {
        Member::Parameter(_, _, _) => None,
        Member::Command(own, _) => {
            if own.as_str() == name {
                Some(place)
            } else {
                None
            }
        }
    }
}

/// The position of the first command of a name.
pub(crate) fn find_command(members: &[Member], name: &str) -> Result<Option<u16>, Memory>
    ensures { IfOk result (λ p. p ≡ command_place name.now 0 members.now) }
{
    let mut place: u16 = 0;
    for member in members {
        if let Some(found) = as_command(member, place, name) {
            return Ok(Some(found));
        }
        place = place.checked_add(1).ok_or(Memory)?;
    }
    Ok(None)
}

fn as_parameter(member: &Member, place: u16, name: &str) -> Option<Parametered>
    ensures { option_map parameter_of result ≡ parameter_from name.now place (member.now ∷ []) }
{
    match member {
        Member::Parameter(own, id, read_only) => {
            if own.as_str() == name {
                Some(Parametered {
                    place,
                    id: *id,
                    read_only: *read_only,
                })
            } else {
                None
            }
        }
        Member::Command(_, _) => None,
    }
}

/// The first parameter of a name.
pub(crate) fn find_parameter(members: &[Member], name: &str) -> Result<Option<Parametered>, Memory>
    ensures { IfOk result (λ m. option_map parameter_of m ≡ parameter_from name.now 0 members.now) }
{
    let mut place: u16 = 0;
    for member in members {
        if let Some(found) = as_parameter(member, place, name) {
            return Ok(Some(found));
        }
        place = place.checked_add(1).ok_or(Memory)?;
    }
    Ok(None)
}

/// The way in which what is sent arrives at an end, which is required or not.
pub(crate) fn arriving(required: bool) -> Way
    ensures { result ≡ arriving_way required }
{
    if required { Way::Up } else { Way::Down }
}

/// Whether an argument of a mode goes that way.
pub(crate) fn goes(way: Way, mode: Mode) -> bool
    ensures { result ≡ goes_way way mode }
{
    match way {
        Way::Down => match mode {
            Mode::In => true,
            Mode::Out => false,
            Mode::InOut => true,
            Mode::Notify => false,
        },
        Way::Up => match mode {
            Mode::In => false,
            Mode::Out => true,
            Mode::InOut => true,
            Mode::Notify => true,
        },
    }
}

fn push_field(
    alloc: Global,
    fields: &mut FieldList,
    way: Way,
    argument: &Argument,
) -> Result<(), Memory>
    ensures { OnOk result (fields.new ≡ fields.old ++ carried_of way (argument.now ∷ [])) }
{
    if goes(way, argument.mode) {
        let name = Text::of(alloc, argument.name.as_str())?;
        fields.push((name, argument.id))?;
        Ok(())
    } else {
        Ok(())
    }
}

/// The names and types of the arguments that go a way.
pub(crate) fn carried_fields(
    alloc: Global,
    way: Way,
    arguments: &[Argument],
) -> Result<FieldList, Memory>
    ensures { IfOk result (λ fs. fs ≡ carried_of way arguments.now) }
{
    let mut fields = FieldList::new(alloc);
    for argument in arguments {
        push_field(alloc, &mut fields, way, argument)?;
    }
    Ok(fields)
}
