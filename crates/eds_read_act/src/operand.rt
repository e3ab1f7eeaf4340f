//! What operands stand for, and what they fit.

ghost use Rattle.std.specs.Prelude.{◌≡◌, IfOk, option_map, is_some};
ghost use Rattle.std.specs.Option.{option_copied};
ghost use Rattle.eds_types.specs.Plain.{plain};
ghost use Rattle.eds_read_act.specs.Scopes.{scope_of};
ghost use Rattle.eds_read_act.specs.Operands.{kind_of as kind_in_table, is_number as is_number_kind, are_alike as alike, fit_together as fit_in, literal as literal_of, found_at as found_in, type_of as type_in, type_fits as type_fits_in, found_fits as found_fits_in, operand_fits as fits_in, literal_operand as literal_as, variable_operand as variable_as, argument_operand as argument_as, operand_at as operand_in, operand_if as operand_in_if};

use crate::activity_sort::{ActivitySort, sort_at};
use crate::inside::text_at;
use crate::naming::{Found, field_in, variable_in};
use crate::scope::Scope;
use eds_base::{Memory, TypeId, whole_number};
use eds_plan::Operand;
use eds_types::{Kind, TypeTable, Value, is_under, stored, text_value};
use std::alloc::Global;

/// What is wanted of an operand: a value of a type, or any number.
#[derive(Clone, Copy, PartialEq, Eq)]
pub(crate) enum Wanted {
    Type(TypeId),
    Number,
}

fn kind_of(table: &TypeTable, id: TypeId) -> Option<&Kind>
    ensures { option_copied result ≡ kind_in_table table.now id }
{
    let row = table.rows().get(id.0 as usize)?;
    Some(&row.kind)
}

/// Whether a type is of numbers.
pub(crate) fn is_number(table: &TypeTable, id: TypeId) -> bool
    ensures { result ≡ is_number_kind (kind_in_table table.now id) }
{
    match kind_of(table, id) {
        Some(Kind::Int(_, _)) => true,
        _ => false,
    }
}

fn are_alike(table: &TypeTable, a: TypeId, one: &Kind, b: TypeId, other: &Kind) -> bool
    ensures { result ≡ alike table.now a one.now b other.now }
{
    match one {
        Kind::Int(_, _) => match other {
            Kind::Int(_, _) => true,
            _ => false,
        },
        Kind::Bool(_) => match other {
            Kind::Bool(_) => true,
            _ => false,
        },
        Kind::Str(_) => match other {
            Kind::Str(_) => true,
            _ => false,
        },
        Kind::Bin(_, _) => match other {
            Kind::Bin(_, _) => true,
            _ => false,
        },
        Kind::Enum(_, _) => match other {
            Kind::Enum(_, _) => a.0 == b.0,
            _ => false,
        },
        Kind::Arr(_, _) => match other {
            Kind::Arr(_, _) => a.0 == b.0,
            _ => false,
        },
        Kind::Con(_) => match other {
            Kind::Con(_) => is_under(table, b, a) || is_under(table, a, b),
            _ => false,
        },
    }
}

/// Whether values of two types may stand for each other.
pub(crate) fn fit_together(table: &TypeTable, a: TypeId, b: TypeId) -> bool
    ensures { result ≡ fit_in table.now a b }
{
    match kind_of(table, a) {
        None => false,
        Some(one) => match kind_of(table, b) {
            None => false,
            Some(other) => are_alike(table, a, one, b, other),
        },
    }
}

/// The value of what is wanted that a text stands for.
pub(crate) fn literal(
    alloc: Global,
    table: &TypeTable,
    wanted: Wanted,
    text: &str,
) -> Result<Option<Value>, Memory>
    ensures { IfOk result (λ v. option_map plain v ≡ literal_of table.now wanted text.now) }
{
    match wanted {
        Wanted::Type(id) => match kind_of(table, id) {
            None => Ok(None),
            Some(kind) => text_value(alloc, kind, text),
        },
        Wanted::Number => match whole_number(text) {
            Some(number) => Ok(Some(Value::Num(number))),
            None => Ok(None),
        },
    }
}

fn is_literal(alloc: Global, table: &TypeTable, wanted: Wanted, text: &str) -> Result<bool, Memory>
    ensures { IfOk result (λ b. b ≡ is_some (literal_of table.now wanted text.now)) }
{
    let value = literal(alloc, table, wanted, text)?;
    Ok(value.is_some())
}

/// What a reference finds that is an operand.
pub(crate) fn found_at(alloc: Global, scope: &Scope, node: u32) -> Result<Option<Found>, Memory>
    ensures { IfOk result (λ f. f ≡ found_in (scope_of scope.now) node) }
{
    match sort_at(scope.tree, node) {
        ActivitySort::VariableRef => variable_in(
            alloc,
            scope.table,
            scope.component,
            text_at(scope.tree, node, "variableRef"),
        ),
        ActivitySort::ArgumentRef => match scope.arguments {
            None => Ok(None),
            Some(fields) => field_in(
                alloc,
                scope.table,
                fields,
                text_at(scope.tree, node, "argumentRef"),
            ),
        },
        _ => Ok(None),
    }
}

/// The type of what a reference finds.
pub(crate) fn type_of(alloc: Global, scope: &Scope, node: u32) -> Result<Option<TypeId>, Memory>
    ensures { IfOk result (λ id. id ≡ type_in (scope_of scope.now) node) }
{
    let found = found_at(alloc, scope, node)?;
    Ok(found.map(|found| found.id))
}

fn type_fits(table: &TypeTable, wanted: Wanted, from: TypeId) -> bool
    ensures { result ≡ type_fits_in table.now wanted from }
{
    match wanted {
        Wanted::Type(id) => fit_together(table, from, id),
        Wanted::Number => is_number(table, from),
    }
}

fn found_fits(table: &TypeTable, wanted: Wanted, found: Option<Found>) -> bool
    ensures { result ≡ found_fits_in table.now wanted found }
{
    found.is_some_and(|found| type_fits(table, wanted, found.id))
}

/// Whether an operand fits what is wanted.
pub(crate) fn operand_fits(
    alloc: Global,
    scope: &Scope,
    wanted: Wanted,
    node: u32,
) -> Result<bool, Memory>
    ensures { IfOk result (λ b. b ≡ fits_in (scope_of scope.now) wanted node) }
{
    match sort_at(scope.tree, node) {
        ActivitySort::Value => is_literal(
            alloc,
            scope.table.types(),
            wanted,
            text_at(scope.tree, node, "value"),
        ),
        _ => {
            let found = found_at(alloc, scope, node)?;
            Ok(found_fits(scope.table.types(), wanted, found))
        }
    }
}

fn literal_operand(value: Option<Value>) -> Operand
    ensures { result ≡ literal_as (option_map plain value) }
{
    match value {
        None => Operand::Value(Value::Num(0)),
        Some(value) => Operand::Value(stored(value)),
    }
}

fn variable_operand(found: Option<Found>) -> Operand
    ensures { result ≡ variable_as found }
{
    match found {
        None => Operand::Value(Value::Num(0)),
        Some(found) => Operand::Variable(found.at, found.path),
    }
}

fn argument_operand(found: Option<Found>) -> Operand
    ensures { result ≡ argument_as found }
{
    match found {
        None => Operand::Value(Value::Num(0)),
        Some(found) => Operand::Argument(found.at, found.path),
    }
}

/// The operand that an element is, where this is wanted.
pub(crate) fn operand_at(
    alloc: Global,
    scope: &Scope,
    wanted: Wanted,
    node: u32,
) -> Result<Operand, Memory>
    ensures { IfOk result (λ a. a ≡ operand_in (scope_of scope.now) wanted node) }
{
    match sort_at(scope.tree, node) {
        ActivitySort::Value => {
            let text = text_at(scope.tree, node, "value");
            let value = literal(alloc, scope.table.types(), wanted, text)?;
            Ok(literal_operand(value))
        }
        ActivitySort::VariableRef => {
            let found = found_at(alloc, scope, node)?;
            Ok(variable_operand(found))
        }
        ActivitySort::ArgumentRef => {
            let found = found_at(alloc, scope, node)?;
            Ok(argument_operand(found))
        }
        _ => Ok(Operand::Value(Value::Num(0))),
    }
}

/// The operand of an element that may be there, or 0.
pub(crate) fn operand_if(
    alloc: Global,
    scope: &Scope,
    wanted: Wanted,
    node: Option<u32>,
) -> Result<Operand, Memory>
    ensures { IfOk result (λ a. a ≡ operand_in_if (scope_of scope.now) wanted node) }
{
    match node {
        None => Ok(Operand::Value(Value::Num(0))),
        Some(node) => operand_at(alloc, scope, wanted, node),
    }
}
