//! The actions that elements stand for: activities with what is given for their arguments.

ghost use Rattle.std.specs.Prelude.{◌≡◌, IfOk};
ghost use Rattle.eds_read_act.specs.Given.{TellsGiven};
ghost use Rattle.eds_read_act.specs.Scopes.{scope_of};
ghost use Rattle.eds_read_act.specs.Bodies.{given_operand as given_in, given_operands as given_for_all, action_at as action_of};

use crate::given::Given;
use crate::inside::operand_of;
use crate::naming::short;
use crate::operand::{Wanted, operand_if};
use crate::scope::Scope;
use crate::sending::activity_of;
use eds_base::{Items, Memory, Text, TypeId};
use eds_plan::{Action, Operand};
use std::alloc::Global;

// What an element gives for an argument.
fn given_operand(
    alloc: Global,
    scope: &Scope,
    given: &Given,
    field: &(Text, TypeId),
) -> Result<Operand, Memory>
    requires { TellsGiven scope.now.tree.now given.now }
    ensures { IfOk result (λ a. a ≡ given_in (scope_of scope.now) given.now.holder field.now) }
{
    let operand = given
        .first(scope.tree, field.0.as_str())
        .and_then(|giver| operand_of(scope.tree, giver));
    operand_if(alloc, scope, Wanted::Type(field.1), operand)
}

/// One operand for each field, as an element gives them.
pub(crate) fn given_operands(
    alloc: Global,
    scope: &Scope,
    node: u32,
    fields: &[(Text, TypeId)],
) -> Result<Items<Operand>, Memory>
    ensures { IfOk result (λ os. os ≡ given_for_all (scope_of scope.now) node fields.now) }
{
    let given = Given::of(alloc, scope.tree, node)?;
    let mut operands = Items::new(alloc);
    for field in fields {
        let operand = given_operand(alloc, scope, &given, field)?;
        operands.push(operand)?;
    }
    Ok(operands)
}

/// The activity that an element names, with what it gives for the arguments.
pub(crate) fn action_at(alloc: Global, scope: &Scope, node: u32) -> Result<Action, Memory>
    ensures { IfOk result (λ a. a ≡ action_of (scope_of scope.now) node) }
{
    match activity_of(scope, node) {
        None => Ok(Action {
            activity: 0,
            operands: Items::new(alloc),
        }),
        Some((activity, fields)) => {
            let operands = given_operands(alloc, scope, node, fields.as_slice())?;
            Ok(Action {
                activity: short(activity),
                operands,
            })
        }
    }
}
