//! The conditions that elements stand for.

ghost use Rattle.std.specs.Prelude.{◌≡◌, [], ◌∷◌, IfOk, map, filter};
ghost use Rattle.eds_tree.specs.Trees.{children_at};
ghost use Rattle.eds_plan.specs.Statements.{condition, every, none};
ghost use Rattle.eds_read_act.specs.Inside.{first_where};
ghost use Rattle.eds_read_act.specs.Scopes.{scope_of};
ghost use Rattle.eds_read_act.specs.Bodies.{is_condition_at as condition_is_at, wanted_by as wanted_of, comparison_of as comparison_in, condition_at as condition_in_depth, condition_in as condition_inside, condition_under as condition_below};

use crate::activity_sort::{ActivitySort, sort_at};
use crate::inside::{operands_of, text_at};
use crate::operand::{Wanted, operand_at, type_of};
use crate::scope::Scope;
use crate::type_mismatch::relation_of;
use eds_base::{Memory, TypeId};
use eds_plan::Guard;
use eds_tree::Tree;
use std::alloc::Global;

fn is_condition(tree: &Tree, node: u32) -> bool
    ensures { result ≡ condition_is_at tree.now node }
{
    match sort_at(tree, node) {
        ActivitySort::Comparison | ActivitySort::Every | ActivitySort::Some => true,
        _ => false,
    }
}

fn no_condition(alloc: Global) -> Guard
    ensures { condition result ≡ every none }
{
    Guard::All(Vec::new(alloc))
}

// What is wanted of an operand that is compared with one of a type.
fn wanted_by(id: Option<TypeId>) -> Wanted
    ensures { result ≡ wanted_of id }
{
    match id {
        None => Wanted::Number,
        Some(id) => Wanted::Type(id),
    }
}

fn comparison_of_two(
    alloc: Global,
    scope: &Scope,
    node: u32,
    one: u32,
    other: u32,
) -> Result<Guard, Memory>
    ensures { IfOk result (λ g. condition g ≡ comparison_in (scope_of scope.now) node (one ∷ other ∷ [])) }
{
    let relation = relation_of(text_at(scope.tree, node, "operator"));
    let for_one = wanted_by(type_of(alloc, scope, other)?);
    let for_other = wanted_by(type_of(alloc, scope, one)?);
    let one = operand_at(alloc, scope, for_one, one)?;
    let other = operand_at(alloc, scope, for_other, other)?;
    Ok(Guard::Compare(relation, one, other))
}

fn comparison_of(alloc: Global, scope: &Scope, node: u32, operands: &[u32]) -> Result<Guard, Memory>
    ensures { IfOk result (λ g. condition g ≡ comparison_in (scope_of scope.now) node operands.now) }
{
    match operands {
        [] => Ok(no_condition(alloc)),
        [_] => Ok(no_condition(alloc)),
        [one, other] => comparison_of_two(alloc, scope, node, *one, *other),
        [_, _, _, ..] => Ok(no_condition(alloc)),
    }
}

#[cycle(condition)]
fn conditions_in(
    alloc: Global,
    scope: &Scope,
    depth: usize,
    node: u32,
) -> Result<Vec<Guard>, Memory>
    ensures { IfOk result (λ gs. map condition gs.items ≡ map (λ child. condition_in_depth (scope_of scope.now) depth child) (filter (condition_is_at scope.now.tree.now) (children_at scope.now.tree.now node))) }
{
    let mut conditions = Vec::new(alloc);
    for child in scope.tree.children_at(node) {
        if is_condition(scope.tree, *child) {
            let condition = condition_at(alloc, scope, depth, *child)?;
            conditions.push(condition)?;
        }
    }
    Ok(conditions)
}

/// The condition that an element is, where it and those in it go so deep.
#[cycle(condition)]
pub(crate) fn condition_at(
    alloc: Global,
    scope: &Scope,
    depth: usize,
    node: u32,
) -> Result<Guard, Memory>
    ensures { IfOk result (λ g. condition g ≡ condition_in_depth (scope_of scope.now) depth node) }
{
    if depth == 0 {
        return Ok(no_condition(alloc));
    }
    match sort_at(scope.tree, node) {
        ActivitySort::Comparison => {
            let operands = operands_of(alloc, scope.tree, node)?;
            comparison_of(alloc, scope, node, operands.as_slice())
        }
        ActivitySort::Every => {
            let conditions = conditions_in(alloc, scope, depth - 1, node)?;
            Ok(Guard::All(conditions))
        }
        ActivitySort::Some => {
            let conditions = conditions_in(alloc, scope, depth - 1, node)?;
            Ok(Guard::Any(conditions))
        }
        _ => Ok(no_condition(alloc)),
    }
}

fn first_condition(tree: &Tree, node: u32) -> Option<u32>
    ensures { result ≡ first_where (condition_is_at tree.now) (children_at tree.now node) }
{
    for child in tree.children_at(node) {
        if is_condition(tree, *child) {
            return Some(*child);
        }
    }
    None
}

fn condition_in(alloc: Global, scope: &Scope, depth: usize, node: u32) -> Result<Guard, Memory>
    ensures { IfOk result (λ g. condition g ≡ condition_inside (scope_of scope.now) depth node) }
{
    match first_condition(scope.tree, node) {
        None => Ok(no_condition(alloc)),
        Some(child) => condition_at(alloc, scope, depth, child),
    }
}

/// The condition in a `Condition` or a `Guard`.
pub(crate) fn condition_under(
    alloc: Global,
    scope: &Scope,
    node: Option<u32>,
) -> Result<Guard, Memory>
    ensures { IfOk result (λ g. condition g ≡ condition_below (scope_of scope.now) node) }
{
    match node {
        None => Ok(no_condition(alloc)),
        Some(node) => condition_in(alloc, scope, scope.tree.len(), node),
    }
}
