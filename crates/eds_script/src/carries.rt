//! What arrives for the members of a plan's ends, found once, so that a line costs no walk along a command's arguments.

ghost use Rattle.std.specs.Prelude.{◌≡◌, IfOk, option_map};
ghost use Rattle.std.specs.Option.{option_copied};
ghost use Rattle.eds_script.specs.Carries.{component_fields as fields_of_component, end_fields as fields_of_end, fields_there, member_fields as fields_of_member, plan_fields as fields_of_plan};
ghost use Rattle.eds_script.specs.Members.{commanded};
ghost use Rattle.eds_script.specs.Seen.{carrying_of};

use crate::members::{arriving, carried_fields, find_command};
use eds_base::{Items, Memory};
use eds_plan::{ComponentPlan, End, EndPlan, FieldList, Member, Plan};
use std::alloc::Global;

/// The fields that arrive for each member of an end, by its position; none for a parameter.
pub(crate) type EndFields = Items<FieldList>;

/// The same of each end of each component.
pub(crate) type PlanFields = Items<Items<EndFields>>;

fn member_fields(alloc: Global, required: bool, member: &Member) -> Result<FieldList, Memory>
    ensures { IfOk result (λ fs. fs ≡ fields_of_member required member.now) }
{
    match member {
        Member::Parameter(_, _, _) => Ok(FieldList::new(alloc)),
        Member::Command(_, arguments) => {
            let fields = carried_fields(alloc, arriving(required), arguments.as_slice())?;
            Ok(fields)
        }
    }
}

fn end_fields(alloc: Global, end: &EndPlan) -> Result<EndFields, Memory>
    ensures { IfOk result (λ fs. fs ≡ fields_of_end end.now) }
{
    let mut all = Items::new(alloc);
    for member in end.instance.members.as_slice() {
        let fields = member_fields(alloc, end.required, member)?;
        all.push(fields)?;
    }
    Ok(all)
}

fn component_fields(alloc: Global, component: &ComponentPlan) -> Result<Items<EndFields>, Memory>
    ensures { IfOk result (λ fs. fs ≡ fields_of_component component.now) }
{
    let mut all = Items::new(alloc);
    for end in component.ends.as_slice() {
        let fields = end_fields(alloc, end)?;
        all.push(fields)?;
    }
    Ok(all)
}

/// What arrives for the members of all ends of a plan.
pub(crate) fn plan_fields(alloc: Global, plan: &Plan) -> Result<PlanFields, Memory>
    ensures { IfOk result (λ fs. fs ≡ fields_of_plan plan.now) }
{
    let mut all = Items::new(alloc);
    for component in plan.as_slice() {
        let fields = component_fields(alloc, component)?;
        all.push(fields)?;
    }
    Ok(all)
}

/// What arrives for the members of an end.
pub(crate) fn fields_at(fields: &PlanFields, end: End) -> Option<&EndFields>
    ensures { option_copied result ≡ fields_there fields.now end }
{
    let component = fields.get(end.comp.0 as usize)?;
    component.get(end.face as usize)
}

/// An end, what the plan has of it, and what arrives for its members.
#[derive(Clone, Copy)]
pub(crate) struct Facing<'a> {
    pub(crate) end: End,
    pub(crate) plan: &'a EndPlan,
    pub(crate) fields: &'a EndFields,
}

/// A command that arrives: its position among the members, and the fields that it carries.
#[derive(Clone, Copy)]
pub(crate) struct Carrying<'a> {
    pub(crate) place: u16,
    pub(crate) fields: &'a FieldList,
}

/// The first command of a name at an end, with what arrives there.
pub(crate) fn find_carrying<'a>(
    facing: &Facing<'a>,
    name: &str,
) -> Result<Option<Carrying<'a>>, Memory>
    requires { facing.now.fields.now ≡ fields_of_end facing.now.plan.now }
    ensures { IfOk result (λ m. option_map carrying_of m ≡ commanded facing.now.plan.now name.now) }
{
    let Some(place) = find_command(facing.plan.instance.members.as_slice(), name)? else {
        return Ok(None);
    };
    match facing.fields.get(place as usize) {
        Some(fields) => Ok(Some(Carrying { place, fields })),
        None => unreachable!(),
    }
}
