//! What a component declares.

ghost use Rattle.std.specs.Prelude.{◌≡◌, option_map};
ghost use Rattle.std.specs.Option.{option_copied};
ghost use Rattle.eds_fits.specs.Deciding.{is_known as is_known_in, fields_known as fields_known_in, activities_known as activities_known_in, arguments_known as arguments_known_in, member_known as member_known_in, members_known as members_known_in, ends_known as ends_known_in, variables_fit as variables_fit_in, of_one_type as of_one_type_in, map_fits as map_fits_in, maps_fit as maps_fit_in, declares_known as declares_known_in};

use crate::kinds::value_fits;
use crate::machine::Whole;
use crate::statement::member_of;
use eds_base::{Text, TypeId};
use eds_plan::{Activity, Argument, ComponentPlan, EndPlan, MapPlan, Member, VarPlan};
use eds_types::TypeTable;

fn is_known(table: &TypeTable, id: TypeId) -> bool
    ensures { result ≡ is_known_in table.now id.0 }
{
    (id.0 as usize) < table.rows().len()
}

fn fields_known(table: &TypeTable, fields: &[(Text, TypeId)]) -> bool
    ensures { result ≡ fields_known_in table.now fields.now }
{
    for (_, id) in fields {
        if !is_known(table, *id) {
            return false;
        }
    }
    true
}

fn activities_known(table: &TypeTable, activities: &[Activity]) -> bool
    ensures { result ≡ activities_known_in table.now activities.now }
{
    for activity in activities {
        if !fields_known(table, activity.arguments.as_slice()) {
            return false;
        }
    }
    true
}

fn arguments_known(table: &TypeTable, arguments: &[Argument]) -> bool
    ensures { result ≡ arguments_known_in table.now arguments.now }
{
    for argument in arguments {
        if !is_known(table, argument.id) {
            return false;
        }
    }
    true
}

fn member_known(table: &TypeTable, member: &Member) -> bool
    ensures { result ≡ member_known_in table.now member.now }
{
    match member {
        Member::Parameter(_, id, _) => is_known(table, *id),
        Member::Command(_, arguments) => arguments_known(table, arguments.as_slice()),
    }
}

fn members_known(table: &TypeTable, members: &[Member]) -> bool
    ensures { result ≡ members_known_in table.now members.now }
{
    for member in members {
        if !member_known(table, member) {
            return false;
        }
    }
    true
}

fn ends_known(table: &TypeTable, ends: &[EndPlan]) -> bool
    ensures { result ≡ ends_known_in table.now ends.now }
{
    for end in ends {
        if !members_known(table, end.instance.members.as_slice()) {
            return false;
        }
    }
    true
}

fn variables_fit(table: &TypeTable, variables: &[VarPlan]) -> bool
    ensures { result ≡ variables_fit_in table.now variables.now }
{
    for variable in variables {
        if !value_fits(table, variable.id, &variable.initial) {
            return false;
        }
    }
    true
}

// ---- parameter maps

fn of_one_type(member: Option<(bool, &Member)>, variable: Option<&VarPlan>) -> bool
    ensures { result ≡ of_one_type_in (option_map (λ m. (m.0, m.1.now)) member.entry) (option_copied variable.entry) }
{
    match member {
        None => false,
        Some((_, member)) => match variable {
            None => false,
            Some(variable) => match member {
                Member::Command(_, _) => false,
                Member::Parameter(_, id, _) => variable.id.0 == id.0,
            },
        },
    }
}

fn map_fits(component: &ComponentPlan, map: &MapPlan) -> bool
    ensures { result ≡ map_fits_in component.now map.now }
{
    of_one_type(
        member_of(component.ends.as_slice(), map.face, map.member),
        component.variables.get(map.variable as usize),
    )
}

fn maps_fit(component: &ComponentPlan, maps: &[MapPlan]) -> bool
    ensures { result ≡ maps_fit_in component.now maps.now }
{
    for map in maps {
        if !map_fits(component, map) {
            return false;
        }
    }
    true
}

/// Whether what a component declares is there.
pub(crate) fn declares_known(whole: &Whole) -> bool
    ensures { result ≡ declares_known_in whole.now.table.now whole.now.component.now }
{
    let component = whole.component;
    variables_fit(whole.table, component.variables.as_slice())
        && (activities_known(whole.table, component.activities.as_slice())
            && (ends_known(whole.table, component.ends.as_slice())
                && maps_fit(component, component.maps.as_slice())))
}
