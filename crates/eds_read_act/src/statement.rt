//! The statements that elements stand for.

ghost use Rattle.std.specs.Prelude.{◌≡◌, codes, IfOk, map, filter};
ghost use Rattle.eds_tree.specs.Trees.{children_at, attribute_at};
ghost use Rattle.eds_plan.specs.Statements.{stmt, stmts, assign, calculate};
ghost use Rattle.eds_read_act.specs.declared.activity_sort.ActivitySort.TheVariants.{Choice, Iteration};
ghost use Rattle.eds_read_act.specs.Inside.{operand_of as operand_inside};
ghost use Rattle.eds_read_act.specs.Operands.{operand_if as operand_in_if};
ghost use Rattle.eds_read_act.specs.BadReference.{output_of as output_in};
ghost use Rattle.eds_read_act.specs.Scopes.{scope_of};
ghost use Rattle.eds_read_act.specs.Bodies.{long as long_of, number_named, target_of as target_in, operator_of as operator_in, is_item_at as item_is_at, item_at as item_in, is_statement_at as statement_is_at, wanted_at as wanted_in, variable_at as variable_in, transaction_by, bound_in as bound_of, step_if as step_of, command_by, op_of as op_in, value_of as value_in, parameter_by, body_by, statement_at as statement_in, body_of as body_in, statement_as};

use crate::action::{action_at, given_operands};
use crate::activity_sort::{ActivitySort, sort_at};
use crate::bad_reference::{iterator_of, output_of};
use crate::condition::condition_under;
use crate::inside::{child_named, operand_of, text_at};
use crate::naming::Found;
use crate::operand::{Wanted, operand_at, operand_if};
use crate::scope::Scope;
use crate::sending::{Held, Taker, parameter_of, sent_command};
use crate::type_mismatch::number_in;
use eds_base::{Items, Memory};
use eds_names::NameList;
use eds_plan::{MathItem, MathOp, Op, Operand, Statement, Target};
use eds_tree::Tree;
use std::alloc::Global;

// The place of a variable that is found.
fn target_of(alloc: Global, found: Option<Found>) -> Target
    ensures { result ≡ target_in found }
{
    match found {
        None => Target {
            variable: 0,
            path: Items::new(alloc),
        },
        Some(found) => Target {
            variable: found.at,
            path: found.path,
        },
    }
}

fn wanted_at(found: &Option<Found>) -> Wanted
    ensures { result ≡ wanted_in found.now }
{
    match found {
        None => Wanted::Number,
        Some(found) => Wanted::Type(found.id),
    }
}

fn assignment_at(alloc: Global, scope: &Scope, node: u32) -> Result<Statement, Memory>
    ensures { IfOk result (λ s. stmt s ≡ assign (target_in (output_in (scope_of scope.now) node)) (operand_in_if (scope_of scope.now) (wanted_in (output_in (scope_of scope.now) node)) (operand_inside scope.now.tree.now node))) }
{
    let output = output_of(alloc, scope, node)?;
    let wanted = wanted_at(&output);
    let operand = operand_if(alloc, scope, wanted, operand_of(scope.tree, node))?;
    Ok(Statement::Assign(target_of(alloc, output), operand))
}

fn operator_of(word: &str) -> MathOp
    ensures { result ≡ operator_in word.now }
{
    if word == "subtract" {
        MathOp::Subtract
    } else if word == "multiply" {
        MathOp::Multiply
    } else {
        MathOp::Add
    }
}

fn is_item(tree: &Tree, node: u32) -> bool
    ensures { result ≡ item_is_at tree.now node }
{
    match sort_at(tree, node) {
        ActivitySort::Value
        | ActivitySort::VariableRef
        | ActivitySort::ArgumentRef
        | ActivitySort::Operator => true,
        _ => false,
    }
}

fn item_at(alloc: Global, scope: &Scope, node: u32) -> Result<MathItem, Memory>
    ensures { IfOk result (λ i. i ≡ item_in (scope_of scope.now) node) }
{
    match sort_at(scope.tree, node) {
        ActivitySort::Operator => {
            let operator = operator_of(text_at(scope.tree, node, "operator"));
            Ok(MathItem::Operator(operator))
        }
        _ => {
            let operand = operand_at(alloc, scope, Wanted::Number, node)?;
            Ok(MathItem::Operand(operand))
        }
    }
}

fn items_in(alloc: Global, scope: &Scope, node: u32) -> Result<Items<MathItem>, Memory>
    ensures { IfOk result (λ is. is ≡ map (item_in (scope_of scope.now)) (filter (item_is_at scope.now.tree.now) (children_at scope.now.tree.now node))) }
{
    let mut items = Items::new(alloc);
    for child in scope.tree.children_at(node) {
        if is_item(scope.tree, *child) {
            let item = item_at(alloc, scope, *child)?;
            items.push(item)?;
        }
    }
    Ok(items)
}

fn calculation_at(alloc: Global, scope: &Scope, node: u32) -> Result<Statement, Memory>
    ensures { IfOk result (λ s. stmt s ≡ calculate (target_in (output_in (scope_of scope.now) node)) (map (item_in (scope_of scope.now)) (filter (item_is_at scope.now.tree.now) (children_at scope.now.tree.now node)))) }
{
    let output = output_of(alloc, scope, node)?;
    let items = items_in(alloc, scope, node)?;
    Ok(Statement::Math(target_of(alloc, output), items))
}

fn variable_at(found: Option<Found>) -> u16
    ensures { result ≡ variable_in found }
{
    match found {
        None => 0,
        Some(found) => found.at,
    }
}

// StartAt or EndAt of an iteration.
fn bound_in(alloc: Global, scope: &Scope, name: &str, node: u32) -> Result<Operand, Memory>
    ensures { IfOk result (λ a. a ≡ bound_of (scope_of scope.now) name.now node) }
{
    let bound = child_named(scope.tree, node, name);
    let operand = bound.and_then(|bound| operand_of(scope.tree, bound));
    operand_if(alloc, scope, Wanted::Number, operand)
}

fn step_in(scope: &Scope, step: Option<u32>) -> i128
    ensures { result ≡ step_of (scope_of scope.now) step }
{
    match step {
        None => 1,
        Some(step) => match number_in(scope.tree, operand_of(scope.tree, step)) {
            None => 1,
            Some(number) => number,
        },
    }
}

// ---- what is sent

fn long(n: usize) -> u32
    ensures { result ≡ long_of n }
{
    if n <= 4294967295 {
        n as u32
    } else {
        4294967295
    }
}

fn transaction_named(names: &NameList, name: &str) -> Option<u32>
    ensures { result ≡ number_named names.now name.now }
{
    let at = names.position(name)?;
    Some(long(at))
}

/// The transaction that an element names.
pub(crate) fn transaction_at(scope: &Scope, node: u32) -> Option<u32>
    ensures { result ≡ transaction_by (scope_of scope.now) (attribute_at scope.now.tree.now node (codes "transaction")) }
{
    let name = scope.tree.attribute_at(node, "transaction")?;
    transaction_named(&scope.component.transactions, name)
}

fn command_sent(
    alloc: Global,
    scope: &Scope,
    node: u32,
    name: Option<u32>,
    taker: Option<Taker>,
) -> Result<Statement, Memory>
    ensures { IfOk result (λ s. stmt s ≡ command_by (scope_of scope.now) node name taker) }
{
    match taker {
        None => Ok(Statement::SendCommand(0, 0, Items::new(alloc), name)),
        Some(taker) => {
            let operands = given_operands(alloc, scope, node, taker.fields.as_slice())?;
            Ok(Statement::SendCommand(taker.end, taker.member, operands, name))
        }
    }
}

fn op_of(held: Held, operation: &str) -> Op
    ensures { result ≡ op_in held operation.now }
{
    if held.required {
        if operation == "set" { Op::Set } else { Op::Get }
    } else {
        Op::Val
    }
}

fn value_of(alloc: Global, scope: &Scope, node: u32, held: Held) -> Result<Option<Operand>, Memory>
    ensures { IfOk result (λ a. a ≡ value_in (scope_of scope.now) node held) }
{
    match operand_of(scope.tree, node) {
        None => Ok(None),
        Some(operand) => {
            let operand = operand_at(alloc, scope, Wanted::Type(held.id), operand)?;
            Ok(Some(operand))
        }
    }
}

fn parameter_sent(
    alloc: Global,
    scope: &Scope,
    node: u32,
    name: Option<u32>,
    held: Option<Held>,
) -> Result<Statement, Memory>
    ensures { IfOk result (λ s. stmt s ≡ parameter_by (scope_of scope.now) node name held) }
{
    match held {
        None => Ok(Statement::SendParameter(0, 0, Op::Get, None, name)),
        Some(held) => {
            let value = value_of(alloc, scope, node, held)?;
            let op = op_of(held, text_at(scope.tree, node, "operation"));
            Ok(Statement::SendParameter(held.end, held.member, op, value, name))
        }
    }
}

// ---- statements in statements

fn is_statement(tree: &Tree, node: u32) -> bool
    ensures { result ≡ statement_is_at tree.now node }
{
    match sort_at(tree, node) {
        ActivitySort::Assignment
        | ActivitySort::Calculation
        | ActivitySort::Choice
        | ActivitySort::Iteration
        | ActivitySort::Call
        | ActivitySort::SendCommand
        | ActivitySort::SendParameter => true,
        _ => false,
    }
}

// The statements in a child.
#[cycle(statement)]
fn statements_in(
    alloc: Global,
    scope: &Scope,
    depth: usize,
    child: Option<u32>,
) -> Result<Vec<Statement>, Memory>
    ensures { IfOk result (λ ss. stmts ss.items ≡ body_by (scope_of scope.now) (λ m. statement_in (scope_of scope.now) depth m) child) }
{
    let mut statements = Vec::new(alloc);
    if let Some(node) = child {
        for child in scope.tree.children_at(node) {
            if is_statement(scope.tree, *child) {
                let statement = statement_at(alloc, scope, depth, *child)?;
                statements.push(statement)?;
            }
        }
    }
    Ok(statements)
}

#[cycle(statement)]
fn choice_at(alloc: Global, scope: &Scope, depth: usize, node: u32) -> Result<Statement, Memory>
    ensures { IfOk result (λ s. stmt s ≡ statement_as (scope_of scope.now) Choice (body_by (scope_of scope.now) (λ m. statement_in (scope_of scope.now) depth m)) node) }
{
    let tree = scope.tree;
    let yes = child_named(tree, node, "OnConditionTrue");
    let on_true = statements_in(alloc, scope, depth, yes)?;
    let no = child_named(tree, node, "OnConditionFalse");
    let on_false = statements_in(alloc, scope, depth, no)?;
    let condition = condition_under(alloc, scope, child_named(tree, node, "Condition"))?;
    Ok(Statement::If(condition, on_true, on_false))
}

#[cycle(statement)]
fn iteration_at(alloc: Global, scope: &Scope, depth: usize, node: u32) -> Result<Statement, Memory>
    ensures { IfOk result (λ s. stmt s ≡ statement_as (scope_of scope.now) Iteration (body_by (scope_of scope.now) (λ m. statement_in (scope_of scope.now) depth m)) node) }
{
    let tree = scope.tree;
    let variable = variable_at(iterator_of(alloc, scope, node));
    let step = step_in(scope, child_named(tree, node, "Step"));
    let turn = statements_in(alloc, scope, depth, child_named(tree, node, "Do"))?;
    let start = bound_in(alloc, scope, "StartAt", node)?;
    let end = bound_in(alloc, scope, "EndAt", node)?;
    Ok(Statement::Iterate(variable, start, end, step, turn))
}

/// The statement that an element is, where those in it go so deep.
#[cycle(statement)]
pub(crate) fn statement_at(
    alloc: Global,
    scope: &Scope,
    depth: usize,
    node: u32,
) -> Result<Statement, Memory>
    ensures { IfOk result (λ s. stmt s ≡ statement_in (scope_of scope.now) depth node) }
{
    if depth == 0 {
        return Ok(Statement::Call(action_at(alloc, scope, node)?));
    }
    match sort_at(scope.tree, node) {
        ActivitySort::Assignment => assignment_at(alloc, scope, node),
        ActivitySort::Calculation => calculation_at(alloc, scope, node),
        ActivitySort::Choice => choice_at(alloc, scope, depth - 1, node),
        ActivitySort::Iteration => iteration_at(alloc, scope, depth - 1, node),
        ActivitySort::SendCommand => {
            let taker = sent_command(alloc, scope, node)?;
            command_sent(alloc, scope, node, transaction_at(scope, node), taker)
        }
        ActivitySort::SendParameter => {
            let held = parameter_of(scope, node);
            parameter_sent(alloc, scope, node, transaction_at(scope, node), held)
        }
        _ => Ok(Statement::Call(action_at(alloc, scope, node)?)),
    }
}

/// The statements in the body of an activity.
pub(crate) fn body_of(alloc: Global, scope: &Scope, node: u32) -> Result<Items<Statement>, Memory>
    ensures { IfOk result (λ ss. stmts ss ≡ body_in (scope_of scope.now) node) }
{
    let body = child_named(scope.tree, node, "Body");
    let statements = statements_in(alloc, scope, scope.tree.len(), body)?;
    Ok(Items::from_vec(statements))
}
