//! Conditions and calculations.

ghost use Rattle.std.specs.Prelude.{◌≡◌, map};
ghost use Rattle.eds_plan.specs.Statements.{condition, conditions_of};
ghost use Rattle.eds_fits.specs.Deciding.{fit_by as fit_by_in, both_fit as both_fit_in, is_order as is_order_in, comparison_fits as comparison_fits_in, condition_fits as condition_fits_in, conditions_fit as conditions_fit_in, leaves_one as leaves_one_in};

use crate::operand::{Scope, is_number, operand_fits, operand_type};
use eds_base::TypeId;
use eds_plan::{Guard, MathItem, Operand, Relation};

fn fit_by(
    scope: &Scope,
    one_type: Option<TypeId>,
    other_type: Option<TypeId>,
    one: &Operand,
    other: &Operand,
) -> bool
    ensures { result ≡ fit_by_in scope.now.table.now scope.now.component.now.variables scope.now.arguments.now one_type other_type one.now other.now }
{
    match one_type {
        Some(id) => operand_fits(scope, id, other),
        None => match other_type {
            Some(id) => operand_fits(scope, id, one),
            None => false,
        },
    }
}

fn both_fit(scope: &Scope, one: &Operand, other: &Operand) -> bool
    ensures { result ≡ both_fit_in scope.now.table.now scope.now.component.now.variables scope.now.arguments.now one.now other.now }
{
    fit_by(
        scope,
        operand_type(scope, one),
        operand_type(scope, other),
        one,
        other,
    )
}

fn is_order(relation: Relation) -> bool
    ensures { result ≡ is_order_in relation }
{
    match relation {
        Relation::Equal => false,
        Relation::NotEqual => false,
        Relation::Less => true,
        Relation::LessOrEqual => true,
        Relation::Greater => true,
        Relation::GreaterOrEqual => true,
    }
}

fn comparison_fits(scope: &Scope, relation: Relation, one: &Operand, other: &Operand) -> bool
    ensures { result ≡ comparison_fits_in scope.now.table.now scope.now.component.now.variables scope.now.arguments.now relation one.now other.now }
{
    both_fit(scope, one, other)
        && (!is_order(relation) || (is_number(scope, one) && is_number(scope, other)))
}

#[cycle(guard)]
fn conditions_fit(guards: &[Guard], scope: &Scope) -> bool
    ensures { result ≡ conditions_fit_in scope.now.table.now scope.now.component.now.variables scope.now.arguments.now (conditions_of (map condition guards.now)) }
{
    for guard in guards {
        if !condition_fits(guard, scope) {
            return false;
        }
    }
    true
}

/// Whether the operands that a condition compares fit each other.
#[cycle(guard)]
pub(crate) fn condition_fits(guard: &Guard, scope: &Scope) -> bool
    ensures { result ≡ condition_fits_in scope.now.table.now scope.now.component.now.variables scope.now.arguments.now (condition guard.now) }
{
    match guard {
        Guard::Compare(relation, one, other) => comparison_fits(scope, *relation, one, other),
        Guard::All(guards) => conditions_fit(guards.as_slice(), scope),
        Guard::Any(guards) => conditions_fit(guards.as_slice(), scope),
    }
}

/// Whether a calculation leaves one number.
pub(crate) fn leaves_one(scope: &Scope, items: &[MathItem]) -> bool
    ensures { result ≡ leaves_one_in scope.now.table.now scope.now.component.now.variables scope.now.arguments.now 0 items.now }
{
    let mut left = 0usize;
    for item in items {
        match item {
            MathItem::Operand(operand) => {
                if !is_number(scope, operand) {
                    return false;
                }
                left += 1;
            }
            MathItem::Operator(_) => {
                if left < 2 {
                    return false;
                }
                left -= 1;
            }
        }
    }
    left == 1
}
