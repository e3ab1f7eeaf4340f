//! Statements.

ghost use Rattle.std.specs.Prelude.{◌≡◌, map, option_map};
ghost use Rattle.std.specs.Option.{option_copied};
ghost use Rattle.eds_plan.specs.Carried.{leaving as leaving_in};
ghost use Rattle.eds_plan.specs.Statements.{stmt, stmts_of};
ghost use Rattle.eds_fits.specs.Deciding.{member_of as member_of_in, rank_of as rank_of_in, is_numbered as is_numbered_in, command_sent as command_sent_in, value_sent as value_sent_in, nothing_sent, sent_by as sent_by_in, parameter_sent as parameter_sent_in, called_fits as called_fits_in, assigned_fits as assigned_fits_in, command_member_sent as command_member_sent_in, parameter_member_sent as parameter_member_sent_in, calculation_fits as calculation_fits_in, counts as counts_in, call_fits as call_fits_in, statement_fits as statement_fits_in, statements_fit as statements_fit_in};

use crate::condition::{condition_fits, leaves_one};
use crate::operand::{
    Scope, arguments_fit, fields_fit, is_number, is_number_type, operand_fits, variable_type,
};
use eds_base::TypeId;
use eds_plan::{Action, Activity, EndPlan, MathItem, Member, Op, Operand, Statement, Target, Way};

/// What the statements of an activity may name, and the ranks of all activities, by which calls lead down.
#[derive(Clone, Copy)]
pub(crate) struct Body<'a, 'b> {
    pub(crate) scope: Scope<'a>,
    pub(crate) ranks: &'b [usize],
    pub(crate) own: usize,
}

// ---- members

/// A member of an end, with whether the end is required.
pub(crate) fn member_of(ends: &[EndPlan], face: u16, number: u16) -> Option<(bool, &Member)>
    ensures { option_map (λ m. (m.0, m.1.now)) result ≡ member_of_in ends.now face number }
{
    let end = ends.get(face as usize)?;
    let member = end.instance.members.get(number as usize)?;
    Some((end.required, member))
}

fn leaving(required: bool) -> Way
    ensures { result ≡ leaving_in required }
{
    if required { Way::Down } else { Way::Up }
}

/// Whether a transaction, if one is named, is one of so many.
pub(crate) fn is_numbered(count: usize, name: Option<u32>) -> bool
    ensures { result ≡ is_numbered_in count name }
{
    name.is_none_or(|name| (name as usize) < count)
}

fn command_sent(scope: &Scope, way: Way, member: &Member, operands: &[Operand]) -> bool
    ensures { result ≡ command_sent_in scope.now.table.now scope.now.component.now.variables scope.now.arguments.now way member.now operands.now }
{
    match member {
        Member::Parameter(_, _, _) => false,
        Member::Command(_, arguments) => arguments_fit(scope, way, arguments.as_slice(), operands),
    }
}

fn value_sent(scope: &Scope, id: TypeId, operand: &Option<Operand>) -> bool
    ensures { result ≡ value_sent_in scope.now.table.now scope.now.component.now.variables scope.now.arguments.now id.0 operand.now }
{
    match operand {
        None => false,
        Some(operand) => operand_fits(scope, id, operand),
    }
}

fn is_nothing(operand: &Option<Operand>) -> bool
    ensures { result ≡ nothing_sent operand.now }
{
    operand.is_none()
}

fn sent_by(scope: &Scope, op: Op, way: Way, id: TypeId, operand: &Option<Operand>) -> bool
    ensures { result ≡ sent_by_in scope.now.table.now scope.now.component.now.variables scope.now.arguments.now op way id.0 operand.now }
{
    match op {
        Op::Command => false,
        Op::Get => match way {
            Way::Down => is_nothing(operand),
            Way::Up => false,
        },
        Op::Set => match way {
            Way::Down => value_sent(scope, id, operand),
            Way::Up => false,
        },
        Op::Val => match way {
            Way::Down => false,
            Way::Up => value_sent(scope, id, operand),
        },
    }
}

fn parameter_sent(
    scope: &Scope,
    op: Op,
    way: Way,
    member: &Member,
    operand: &Option<Operand>,
) -> bool
    ensures { result ≡ parameter_sent_in scope.now.table.now scope.now.component.now.variables scope.now.arguments.now op way member.now operand.now }
{
    match member {
        Member::Command(_, _) => false,
        Member::Parameter(_, id, _) => sent_by(scope, op, way, *id, operand),
    }
}

fn command_member_sent(body: &Body, member: Option<(bool, &Member)>, operands: &[Operand]) -> bool
    ensures { result ≡ command_member_sent_in body.now.scope.table.now body.now.scope.component.now body.now.scope.arguments.now body.now.ranks.now body.now.own (option_map (λ m. (m.0, m.1.now)) member.entry) operands.now }
{
    match member {
        None => false,
        Some((required, member)) => command_sent(&body.scope, leaving(required), member, operands),
    }
}

fn parameter_member_sent(
    body: &Body,
    op: Op,
    member: Option<(bool, &Member)>,
    operand: &Option<Operand>,
) -> bool
    ensures { result ≡ parameter_member_sent_in body.now.scope.table.now body.now.scope.component.now body.now.scope.arguments.now body.now.ranks.now body.now.own op (option_map (λ m. (m.0, m.1.now)) member.entry) operand.now }
{
    match member {
        None => false,
        Some((required, member)) => {
            parameter_sent(&body.scope, op, leaving(required), member, operand)
        }
    }
}

// ---- calls

/// Whether an activity is there, and operands fit its arguments.
pub(crate) fn called_fits(scope: &Scope, called: Option<&Activity>, operands: &[Operand]) -> bool
    ensures { result ≡ called_fits_in scope.now.table.now scope.now.component.now.variables scope.now.arguments.now (option_copied called.entry) operands.now }
{
    match called {
        None => false,
        Some(activity) => fields_fit(scope, activity.arguments.as_slice(), operands),
    }
}

/// The rank of an activity.
pub(crate) fn rank_of(ranks: &[usize], number: usize) -> usize
    ensures { result ≡ rank_of_in ranks.now number }
{
    ranks.get(number).copied().unwrap_or(0)
}

fn call_fits(body: &Body, action: &Action) -> bool
    ensures { result ≡ call_fits_in body.now.scope.table.now body.now.scope.component.now body.now.scope.arguments.now body.now.ranks.now body.now.own action.now }
{
    rank_of(body.ranks, action.activity as usize) < body.own
        && called_fits(
            &body.scope,
            body.scope
                .component
                .activities
                .get(action.activity as usize),
            action.operands.as_slice(),
        )
}

// ---- other statements

fn assigned_fits(body: &Body, id: Option<TypeId>, operand: &Operand) -> bool
    ensures { result ≡ assigned_fits_in body.now.scope.table.now body.now.scope.component.now body.now.scope.arguments.now body.now.ranks.now body.now.own id operand.now }
{
    match id {
        None => false,
        Some(id) => operand_fits(&body.scope, id, operand),
    }
}

fn calculation_fits(body: &Body, target: &Target, items: &[MathItem]) -> bool
    ensures { result ≡ calculation_fits_in body.now.scope.table.now body.now.scope.component.now body.now.scope.arguments.now body.now.ranks.now body.now.own target.now items.now }
{
    is_number_type(
        body.scope.table,
        variable_type(&body.scope, target.variable, target.path.as_slice()),
    ) && leaves_one(&body.scope, items)
}

fn counts(body: &Body, variable: u16, first: &Operand, last: &Operand) -> bool
    ensures { result ≡ counts_in body.now.scope.table.now body.now.scope.component.now body.now.scope.arguments.now body.now.ranks.now body.now.own variable first.now last.now }
{
    is_number_type(body.scope.table, variable_type(&body.scope, variable, &[]))
        && (is_number(&body.scope, first) && is_number(&body.scope, last))
}

// ---- all

/// Whether some statements fit.
#[cycle(statement)]
pub(crate) fn statements_fit(statements: &[Statement], body: &Body) -> bool
    ensures { result ≡ statements_fit_in body.now.scope.table.now body.now.scope.component.now body.now.scope.arguments.now body.now.ranks.now body.now.own (stmts_of (map stmt statements.now)) }
{
    for statement in statements {
        if !statement_fits(statement, body) {
            return false;
        }
    }
    true
}

#[cycle(statement)]
fn statement_fits(statement: &Statement, body: &Body) -> bool
    ensures { result ≡ statement_fits_in body.now.scope.table.now body.now.scope.component.now body.now.scope.arguments.now body.now.ranks.now body.now.own (stmt statement.now) }
{
    match statement {
        Statement::Assign(target, operand) => assigned_fits(
            body,
            variable_type(&body.scope, target.variable, target.path.as_slice()),
            operand,
        ),
        Statement::Math(target, items) => calculation_fits(body, target, items.as_slice()),
        Statement::If(guard, one, other) => {
            condition_fits(guard, &body.scope)
                && (statements_fit(one.as_slice(), body) && statements_fit(other.as_slice(), body))
        }
        Statement::Iterate(variable, first, last, step, inner) => {
            counts(body, *variable, first, last)
                && (*step != 0 && statements_fit(inner.as_slice(), body))
        }
        Statement::Call(action) => call_fits(body, action),
        Statement::SendCommand(face, number, operands, name) => {
            command_member_sent(
                body,
                member_of(body.scope.component.ends.as_slice(), *face, *number),
                operands.as_slice(),
            ) && is_numbered(body.scope.component.transactions.len(), *name)
        }
        Statement::SendParameter(face, number, op, operand, name) => {
            parameter_member_sent(
                body,
                *op,
                member_of(body.scope.component.ends.as_slice(), *face, *number),
                operand,
            ) && is_numbered(body.scope.component.transactions.len(), *name)
        }
    }
}
