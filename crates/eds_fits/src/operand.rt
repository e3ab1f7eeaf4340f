//! Operands, by the variables of a component and the types of arguments.

ghost use Rattle.std.specs.Prelude.{◌≡◌};
ghost use Rattle.std.specs.Option.{option_copied};
ghost use Rattle.eds_types.specs.Plain.{plain};
ghost use Rattle.eds_plan.specs.Carried.{goes as goes_in};
ghost use Rattle.eds_fits.specs.Deciding.{is_number_type as is_number_type_in, type_fits as type_fits_in, is_number_value as is_number_value_in, variable_type as variable_type_in, argument_type as argument_type_in, operand_type as operand_type_in, operand_fits as operand_fits_in, is_number as is_number_in, first_taken as first_taken_in, argument_taken as argument_taken_in, fields_taken, arguments_taken, is_all};

use crate::kinds::{fit_together, is_numeric, led, value_fits};
use eds_base::{Text, TypeId};
use eds_plan::{Argument, ComponentPlan, Mode, Operand, Way};
use eds_types::{TypeTable, Value};

/// What operands may name: the variables of a component, and arguments of types.
#[derive(Clone, Copy)]
pub(crate) struct Scope<'a> {
    pub(crate) table: &'a TypeTable,
    pub(crate) component: &'a ComponentPlan,
    pub(crate) arguments: &'a [TypeId],
}

pub(crate) fn is_number_type(table: &TypeTable, id: Option<TypeId>) -> bool
    ensures { result ≡ is_number_type_in table.now id }
{
    id.is_some_and(|id| is_numeric(table, id))
}

fn type_fits(table: &TypeTable, from: Option<TypeId>, id: TypeId) -> bool
    ensures { result ≡ type_fits_in table.now from id.0 }
{
    from.is_some_and(|from| fit_together(table, from, id))
}

fn is_number_value(value: &Value) -> bool
    ensures { result ≡ is_number_value_in (plain value.now) }
{
    match value {
        Value::Num(_) => true,
        _ => false,
    }
}

/// The type of a variable, or of an entry of it.
pub(crate) fn variable_type(scope: &Scope, at: u16, path: &[(TypeId, u16)]) -> Option<TypeId>
    ensures { result ≡ variable_type_in scope.now.table.now scope.now.component.now.variables scope.now.arguments.now at path.now }
{
    let variable = scope.component.variables.get(at as usize)?;
    led(scope.table, variable.id, path)
}

// The type of an argument, or of an entry of it.
fn argument_type(scope: &Scope, at: u16, path: &[(TypeId, u16)]) -> Option<TypeId>
    ensures { result ≡ argument_type_in scope.now.table.now scope.now.component.now.variables scope.now.arguments.now at path.now }
{
    let id = scope.arguments.get(at as usize)?;
    led(scope.table, *id, path)
}

/// The type of an operand that is no value.
pub(crate) fn operand_type(scope: &Scope, operand: &Operand) -> Option<TypeId>
    ensures { result ≡ operand_type_in scope.now.table.now scope.now.component.now.variables scope.now.arguments.now operand.now }
{
    match operand {
        Operand::Value(_) => None,
        Operand::Variable(at, path) => variable_type(scope, *at, path.as_slice()),
        Operand::Argument(at, path) => argument_type(scope, *at, path.as_slice()),
    }
}

/// Whether an operand fits a type.
pub(crate) fn operand_fits(scope: &Scope, id: TypeId, operand: &Operand) -> bool
    ensures { result ≡ operand_fits_in scope.now.table.now scope.now.component.now.variables scope.now.arguments.now id.0 operand.now }
{
    match operand {
        Operand::Value(value) => value_fits(scope.table, id, value),
        Operand::Variable(at, path) => {
            type_fits(scope.table, variable_type(scope, *at, path.as_slice()), id)
        }
        Operand::Argument(at, path) => {
            type_fits(scope.table, argument_type(scope, *at, path.as_slice()), id)
        }
    }
}

/// Whether an operand is a number.
pub(crate) fn is_number(scope: &Scope, operand: &Operand) -> bool
    ensures { result ≡ is_number_in scope.now.table.now scope.now.component.now.variables scope.now.arguments.now operand.now }
{
    match operand {
        Operand::Value(value) => is_number_value(value),
        Operand::Variable(at, path) => {
            is_number_type(scope.table, variable_type(scope, *at, path.as_slice()))
        }
        Operand::Argument(at, path) => {
            is_number_type(scope.table, argument_type(scope, *at, path.as_slice()))
        }
    }
}

// ---- operands in turn

// The operands behind the first one, which fits the type.
fn first_taken<'a>(scope: &Scope, id: TypeId, operands: &'a [Operand]) -> Option<&'a [Operand]>
    ensures { option_copied result ≡ first_taken_in scope.now.table.now scope.now.component.now.variables scope.now.arguments.now id.0 operands.now }
{
    match operands {
        [] => None,
        [operand, after @ ..] => {
            if operand_fits(scope, id, operand) {
                Some(after)
            } else {
                None
            }
        }
    }
}

/// Whether an argument of a mode goes a way.
pub(crate) fn goes(way: Way, mode: Mode) -> bool
    ensures { result ≡ goes_in way mode }
{
    match way {
        Way::Down => match mode {
            Mode::In => true,
            Mode::Out => false,
            Mode::InOut => true,
            Mode::Notify => false,
        },
        Way::Up => match mode {
            Mode::In => false,
            Mode::Out => true,
            Mode::InOut => true,
            Mode::Notify => true,
        },
    }
}

// The operands behind that for an argument of a command, if the argument goes this way.
fn argument_taken<'a>(
    scope: &Scope,
    way: Way,
    argument: &Argument,
    operands: &'a [Operand],
) -> Option<&'a [Operand]>
    ensures { option_copied result ≡ argument_taken_in scope.now.table.now scope.now.component.now.variables scope.now.arguments.now way argument.now operands.now }
{
    if goes(way, argument.mode) {
        first_taken(scope, argument.id, operands)
    } else {
        Some(operands)
    }
}

/// Whether there is one operand for each argument of an activity, which fits it.
pub(crate) fn fields_fit(scope: &Scope, fields: &[(Text, TypeId)], operands: &[Operand]) -> bool
    ensures { result ≡ is_all (fields_taken scope.now.table.now scope.now.component.now.variables scope.now.arguments.now fields.now operands.now) }
{
    let mut left = operands;
    for (_, id) in fields {
        match first_taken(scope, *id, left) {
            None => return false,
            Some(behind) => left = behind,
        }
    }
    left.is_empty()
}

/// Whether there is one operand for each argument of a command that goes this way, which fits it.
pub(crate) fn arguments_fit(
    scope: &Scope,
    way: Way,
    arguments: &[Argument],
    operands: &[Operand],
) -> bool
    ensures { result ≡ is_all (arguments_taken scope.now.table.now scope.now.component.now.variables scope.now.arguments.now way arguments.now operands.now) }
{
    let mut left = operands;
    for argument in arguments {
        match argument_taken(scope, way, argument, left) {
            None => return false,
            Some(behind) => left = behind,
        }
    }
    left.is_empty()
}
