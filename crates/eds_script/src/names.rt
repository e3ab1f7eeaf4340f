//! The names by which a plan's things are told, empty where there is no such thing.

ghost use Rattle.std.specs.Prelude.{◌≡◌, ◌++◌, OnOk, Some, string_bytes};
ghost use Rattle.std.specs.Option.{option_copied};
ghost use Rattle.eds_plan.specs.Plans.{component_at};
ghost use Rattle.eds_plan.specs.Ends.{end_at as end_in};
ghost use Rattle.eds_script.specs.Places.{place_text};
ghost use Rattle.eds_script.specs.Names.{end_name as name_of_end, machine_name as name_of_machine, member_in as member_of, member_name as name_in_end, name_of_member as name_in_member, state_name as name_of_state, text_of_end as text_in, transaction_name as name_of_transaction};

use eds_base::CompId;
use eds_plan::{ComponentPlan, End, EndPlan, Machine, Member, Plan};
use std::alloc::AllocError;

// ---- of a component

/// The name of an end.
pub(crate) fn end_name(component: &ComponentPlan, face: u16) -> &str
    ensures { result.now ≡ name_of_end component.now face }
{
    match component.ends.get(face as usize) {
        Some(end) => end.name.as_str(),
        None => "",
    }
}

fn machine_in(component: &ComponentPlan, machine: u16) -> &str
    ensures { result.now ≡ name_of_machine component.now machine }
{
    match component.machines.get(machine as usize) {
        Some(machine) => machine.name.as_str(),
        None => "",
    }
}

/// The name of a state.
pub fn state_name(machine: &Machine, at: u16) -> &str
    ensures { result.now ≡ name_of_state machine.now at }
{
    match machine.states.get(at as usize) {
        Some(state) => state.name.as_str(),
        None => "",
    }
}

/// The name of a transaction.
pub(crate) fn transaction_name(component: &ComponentPlan, number: u32) -> &str
    ensures { result.now ≡ name_of_transaction component.now number }
{
    if (number as usize) < component.transactions.len() {
        component.transaction(number).as_str()
    } else {
        ""
    }
}

// ---- of members

/// The name of a parameter or command.
pub fn name_of_member(member: &Member) -> &str
    ensures { result.now ≡ name_in_member member.now }
{
    match member {
        Member::Parameter(name, _, _) => name.as_str(),
        Member::Command(name, _) => name.as_str(),
    }
}

/// The member of an end.
pub(crate) fn member_in(end: &EndPlan, member: u16) -> Option<&Member>
    ensures { option_copied result ≡ member_of (Some end.now) member }
{
    end.instance.members.get(member as usize)
}

/// The name of a member of an end.
pub(crate) fn member_name(end: &EndPlan, member: u16) -> &str
    ensures { result.now ≡ name_in_end (Some end.now) member }
{
    match member_in(end, member) {
        Some(member) => name_of_member(member),
        None => "",
    }
}

// ---- of a plan

/// The name of a component.
pub(crate) fn component_name(plan: &Plan, comp: CompId) -> &str
    ensures { result.now ≡ (component_at plan.now comp.0).name }
{
    match plan.get(comp.0 as usize) {
        Some(component) => component.name.as_str(),
        None => "",
    }
}

/// The name of a machine.
pub(crate) fn machine_name(plan: &Plan, comp: CompId, machine: u16) -> &str
    ensures { result.now ≡ name_of_machine (component_at plan.now comp.0) machine }
{
    match plan.get(comp.0 as usize) {
        Some(component) => machine_in(component, machine),
        None => "",
    }
}

/// What the plan has of an end.
pub(crate) fn end_at(plan: &Plan, end: End) -> Option<&EndPlan>
    ensures { option_copied result ≡ end_in plan.now end }
{
    let component = plan.get(end.comp.0 as usize)?;
    component.ends.get(end.face as usize)
}

/// The name of a member that stands at an end.
pub(crate) fn member_name_at(plan: &Plan, end: End, member: u16) -> &str
    ensures { result.now ≡ name_in_end (end_in plan.now end) member }
{
    match end_at(plan, end) {
        Some(end) => member_name(end, member),
        None => "",
    }
}

fn name_of_face(plan: &Plan, end: End) -> &str
    ensures { result.now ≡ name_of_end (component_at plan.now end.comp.0) end.face }
{
    match plan.get(end.comp.0 as usize) {
        Some(component) => end_name(component, end.face),
        None => "",
    }
}

/// Where something happens: at a component of a name, or at an end of one, which has its own name.
#[derive(Clone, Copy)]
pub(crate) enum Place<'a> {
    Component(&'a str),
    End(&'a str, &'a str),
}

/// The place of an end.
pub(crate) fn place_of_end(plan: &Plan, end: End) -> Place<'_>
    ensures { place_text result ≡ text_in plan.now end }
{
    Place::End(component_name(plan, end.comp), name_of_face(plan, end))
}

/// Puts `Package/Component` or `Package/Component:end` last.
pub(crate) fn push_place(text: &mut String, place: Place<'_>) -> Result<(), AllocError>
    ensures { OnOk result (string_bytes text.new ≡ string_bytes text.old ++ place_text place.entry) }
{
    match place {
        Place::Component(name) => text.push_str(name),
        Place::End(component, end) => {
            text.push_str(component)?;
            text.push_str(":")?;
            text.push_str(end)
        }
    }
}
