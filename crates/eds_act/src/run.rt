//! Statements and turns, started one after the other from lists in memory.

ghost use Rattle.eds_plan.specs.declared.component.ComponentPlan.{ComponentPlan as component_plan};
ghost use Rattle.std.specs.Prelude.{◌≡◌, ◌≤◌, ◌<◌, ◌+◌, ◌*◌, ◌++◌, ℕ, Bool, suc, length, map, Some, [], ◌∷◌, IfOk, IfSome, IfNone, slice_get, option_map, List, OnOk};
ghost use Rattle.eds_types.specs.Plain.{Plain, plain, num};
ghost use Rattle.eds_plan.specs.Statements.{condition, stmt, stmts, stmts_of, assign, calculate, choose, iterate, call as calls};
ghost use Rattle.eds_plan.specs.Plans.{variable_types};
ghost use Rattle.eds_act.specs.Does.{Tells, statement, items_of, storing, targeted};
ghost use Rattle.eds_act.specs.Running.{LeadsTo, Starts, Fits, HasConforming, OnDone, OnHalted, Leads, world, stored, turn_item, turn_items, next_turns};
ghost use Rattle.eds_act.specs.Work.{frame_items, frames_items, task_items, tasks_items, end_of, called_items, ran_end, ran_items, StepsTo, ComesTo, Lessens, CountsOn};

use crate::ActEnd;
use crate::arguments::{argument_types, arguments_of};
use crate::event::Event;
use crate::guard::holds;
use crate::math::calculated;
use crate::operand::{copy_of, number_of, value_of_number};
use crate::send::{send_command, send_parameter};
use crate::store::store;
use crate::target::{is_whole, targeted};
use crate::turn::{Turn, next_turn, start_turn, this_turn, turn_of};
use crate::work::{Frame, Ran, Step, Task};
use eds_base::Memory;
use eds_plan::{
    Action, Activity, ComponentPlan, Guard, Halt, MathItem, Operand, Statement, Target,
};
use eds_types::{TypeTable, Value};
use std::alloc::Global;

/// Runs an activity, and all that it calls, to the end.
pub(crate) fn run_frames<'a>(
    alloc: Global,
    table: &TypeTable,
    comp: &'a ComponentPlan,
    first: Frame<'a>,
    event: &mut Event,
) -> Result<ActEnd, Memory>
    requires fits { Fits table.now comp.now }
    requires conform { HasConforming table.now comp.now event.old }
    ensures conform { HasConforming table.now comp.now event.new }
    ensures comp { event.new.comp ≡ event.old.comp }
    ensures left { event.new.left ≤ event.old.left }
    ensures runs { IfOk result (λ e. LeadsTo table.now comp.now e (frame_items first.entry) [] event.old event.new) }
{
    let mut frames = Vec::new(alloc);
    frames.push(first)?;
    'frames: while let Some(frame) = frames.pop() {
        match run_frame(alloc, table, comp, frame, &mut frames, event)? {
            ActEnd::Done => {}
            ActEnd::Halted(halt) => return Ok(ActEnd::Halted(halt)),
        }
    }
    Ok(ActEnd::Done)
}

// Starts what is next of an activity until it ends or calls another, which is put behind it.
fn run_frame<'a>(
    alloc: Global,
    table: &TypeTable,
    comp: &'a ComponentPlan,
    frame: Frame<'a>,
    frames: &mut Vec<Frame<'a>>,
    event: &mut Event,
) -> Result<ActEnd, Memory>
    requires fits { Fits table.now comp.now }
    requires conform { HasConforming table.now comp.now event.old }
    ensures conform { HasConforming table.now comp.now event.new }
    ensures comp { event.new.comp ≡ event.old.comp }
    ensures left { event.new.left ≤ event.old.left }
    ensures fewer { OnDone result (2 * event.new.left + length frames.new.items ≤ 2 * event.old.left + length frames.old.items) }
    ensures runs { IfOk result (λ e. LeadsTo table.now comp.now e (frame_items frame.entry ++ frames_items frames.old.items) (frames_items frames.new.items) event.old event.new) }
{
    let Frame {
        arguments,
        mut tasks,
    } = frame;
    'tasks: while let Some(task) = tasks.pop() {
        match run_task(
            alloc,
            table,
            comp,
            arguments.as_slice(),
            task,
            &mut tasks,
            event,
        )? {
            Step::Goes => {}
            Step::Calls(called) => {
                frames.push(Frame { arguments, tasks })?;
                frames.push(called)?;
                return Ok(ActEnd::Done);
            }
            Step::Halts(halt) => return Ok(ActEnd::Halted(halt)),
        }
    }
    Ok(ActEnd::Done)
}

// Runs a task that was taken from the others.
fn run_task<'a>(
    alloc: Global,
    table: &TypeTable,
    comp: &'a ComponentPlan,
    arguments: &[Value],
    task: Task<'a>,
    tasks: &mut Vec<Task<'a>>,
    event: &mut Event,
) -> Result<Step<'a>, Memory>
    requires fits { Fits table.now comp.now }
    requires conform { HasConforming table.now comp.now event.old }
    ensures conform { HasConforming table.now comp.now event.new }
    ensures comp { event.new.comp ≡ event.old.comp }
    ensures left { event.new.left ≤ event.old.left }
    ensures counts { IfOk result (λ s. Lessens s event.old.left (length tasks.old.items) event.new.left (length tasks.new.items)) }
    ensures runs { IfOk result (λ s. ComesTo table.now comp.now s (map plain arguments.now) (task_items (map plain arguments.now) task.entry) tasks.old.items tasks.new.items event.old event.new) }
{
    match task {
        Task::Statements(body) => run_body(alloc, table, comp, arguments, body, tasks, event),
        Task::Turn(turn, body) => {
            run_turns(alloc, table, comp, arguments, turn, body, tasks, event)
        }
    }
}

// Runs statements until one leaves tasks, behind which the rest of them comes.
fn run_body<'a>(
    alloc: Global,
    table: &TypeTable,
    comp: &'a ComponentPlan,
    arguments: &[Value],
    body: &'a [Statement],
    tasks: &mut Vec<Task<'a>>,
    event: &mut Event,
) -> Result<Step<'a>, Memory>
    requires fits { Fits table.now comp.now }
    requires conform { HasConforming table.now comp.now event.old }
    ensures conform { HasConforming table.now comp.now event.new }
    ensures comp { event.new.comp ≡ event.old.comp }
    ensures left { event.new.left ≤ event.old.left }
    ensures counts { IfOk result (λ s. Lessens s event.old.left (length tasks.old.items) event.new.left (length tasks.new.items)) }
    ensures runs { IfOk result (λ s. ComesTo table.now comp.now s (map plain arguments.now) (items_of (map plain arguments.now) (stmts body.now)) tasks.old.items tasks.new.items event.old event.new) }
{
    match run_stores(alloc, table, comp, arguments, body, event)? {
        Ran::Until(rest) => start_first(alloc, table, comp, arguments, rest, tasks, event),
        Ran::Halted(halt) => Ok(Step::Halts(halt)),
    }
}

// Runs turns of an iteration until none is left, or a statement of one leaves tasks, behind which the rest of them comes.
fn run_turns<'a>(
    alloc: Global,
    table: &TypeTable,
    comp: &'a ComponentPlan,
    arguments: &[Value],
    first: Turn,
    body: &'a [Statement],
    tasks: &mut Vec<Task<'a>>,
    event: &mut Event,
) -> Result<Step<'a>, Memory>
    requires fits { Fits table.now comp.now }
    requires conform { HasConforming table.now comp.now event.old }
    ensures conform { HasConforming table.now comp.now event.new }
    ensures comp { event.new.comp ≡ event.old.comp }
    ensures left { event.new.left ≤ event.old.left }
    ensures counts { IfOk result (λ s. Lessens s event.old.left (length tasks.old.items) event.new.left (length tasks.new.items)) }
    ensures runs { IfOk result (λ s. ComesTo table.now comp.now s (map plain arguments.now) (turn_item first (map plain arguments.now) (stmts body.now) ∷ []) tasks.old.items tasks.new.items event.old event.new) }
{
    let mut turn = first;
    'turns: loop {
        match run_turn(alloc, table, comp, arguments, &turn, body, event)? {
            Ran::Halted(halt) => return Ok(Step::Halts(halt)),
            Ran::Until(rest) => {
                if rest.is_empty() {
                    match next_turn(&turn) {
                        None => return Ok(Step::Goes),
                        Some(next) => turn = next,
                    }
                } else {
                    push_turn(tasks, next_turn(&turn), body)?;
                    return start_first(alloc, table, comp, arguments, rest, tasks, event);
                }
            }
        }
    }
}

// Counts a turn, stores its number, and runs the stores that its statements begin with.
fn run_turn<'a>(
    alloc: Global,
    table: &TypeTable,
    comp: &ComponentPlan,
    arguments: &[Value],
    turn: &Turn,
    body: &'a [Statement],
    event: &mut Event,
) -> Result<Ran<'a>, Memory>
    requires fits { Fits table.now comp.now }
    requires conform { HasConforming table.now comp.now event.old }
    ensures conform { HasConforming table.now comp.now event.new }
    ensures comp { event.new.comp ≡ event.old.comp }
    ensures left { event.new.left ≤ event.old.left }
    ensures counts { IfOk result (λ r. CountsOn r event.old.left event.new.left) }
    ensures runs { IfOk result (λ r. LeadsTo table.now comp.now (ran_end r) (turn_item turn.now (map plain arguments.now) (stmts body.now) ∷ []) (ran_items (map plain arguments.now) r ++ next_turns turn.now (map plain arguments.now) (stmts body.now)) event.old event.new) }
{
    match start_turn(table, comp, turn, event) {
        ActEnd::Done => run_stores(alloc, table, comp, arguments, body, event),
        ActEnd::Halted(halt) => Ok(Ran::Halted(halt)),
    }
}

// Runs the stores that statements begin with.
fn run_stores<'a>(
    alloc: Global,
    table: &TypeTable,
    comp: &ComponentPlan,
    arguments: &[Value],
    body: &'a [Statement],
    event: &mut Event,
) -> Result<Ran<'a>, Memory>
    requires fits { Fits table.now comp.now }
    requires conform { HasConforming table.now comp.now event.old }
    ensures conform { HasConforming table.now comp.now event.new }
    ensures comp { event.new.comp ≡ event.old.comp }
    ensures left { event.new.left ≤ event.old.left }
    ensures runs { IfOk result (λ r. LeadsTo table.now comp.now (ran_end r) (items_of (map plain arguments.now) (stmts body.now)) (ran_items (map plain arguments.now) r) event.old event.new) }
{
    let mut rest = body;
    'stores: while let Some((this, after)) = rest.split_first() {
        match run_store(alloc, table, comp, arguments, this, event)? {
            None => return Ok(Ran::Until(rest)),
            Some(ActEnd::Halted(halt)) => return Ok(Ran::Halted(halt)),
            Some(ActEnd::Done) => rest = after,
        }
    }
    Ok(Ran::Until(rest))
}

// Counts a store and does it, None where the statement is of another kind.
fn run_store(
    alloc: Global,
    table: &TypeTable,
    comp: &ComponentPlan,
    arguments: &[Value],
    this: &Statement,
    event: &mut Event,
) -> Result<Option<ActEnd>, Memory>
    requires fits { Fits table.now comp.now }
    requires conform { HasConforming table.now comp.now event.old }
    ensures conform { HasConforming table.now comp.now event.new }
    ensures comp { event.new.comp ≡ event.old.comp }
    ensures left { event.new.left ≤ event.old.left }
    ensures runs { IfOk result (λ o. IfSome o (λ e. LeadsTo table.now comp.now e (statement (map plain arguments.now) (stmt this.now) ∷ []) [] event.old event.new)) }
    ensures other { IfOk result (λ o. IfNone o (event.new ≡ event.old)) }
{
    match this {
        Statement::Assign(target, operand) => {
            if event.left == 0 {
                return Ok(Some(ActEnd::Halted(Halt::Budget)));
            }
            event.left -= 1;
            let end = assign(alloc, table, comp, arguments, target, operand, event)?;
            Ok(Some(end))
        }
        Statement::Math(target, items) => {
            if event.left == 0 {
                return Ok(Some(ActEnd::Halted(Halt::Budget)));
            }
            event.left -= 1;
            let items = items.as_slice();
            let end = calculate(alloc, table, comp, arguments, target, items, event)?;
            Ok(Some(end))
        }
        _ => Ok(None),
    }
}

// Counts the first of statements and starts it; the rest comes behind what it leaves.
fn start_first<'a>(
    alloc: Global,
    table: &TypeTable,
    comp: &'a ComponentPlan,
    arguments: &[Value],
    body: &'a [Statement],
    tasks: &mut Vec<Task<'a>>,
    event: &mut Event,
) -> Result<Step<'a>, Memory>
    requires fits { Fits table.now comp.now }
    requires conform { HasConforming table.now comp.now event.old }
    ensures conform { HasConforming table.now comp.now event.new }
    ensures comp { event.new.comp ≡ event.old.comp }
    ensures left { event.new.left ≤ event.old.left }
    ensures counts { IfOk result (λ s. Lessens s event.old.left (length tasks.old.items) event.new.left (length tasks.new.items)) }
    ensures runs { IfOk result (λ s. ComesTo table.now comp.now s (map plain arguments.now) (items_of (map plain arguments.now) (stmts body.now)) tasks.old.items tasks.new.items event.old event.new) }
{
    match body.split_first() {
        None => Ok(Step::Goes),
        Some((this, rest)) => {
            if event.left == 0 {
                return Ok(Step::Halts(Halt::Budget));
            }
            event.left -= 1;
            tasks.push(Task::Statements(rest))?;
            start(alloc, table, comp, arguments, this, tasks, event)
        }
    }
}

// What a statement that leaves no tasks comes to.
fn step_of<'a>(end: ActEnd) -> Step<'a>
    ensures end { end_of result ≡ end }
    ensures called { called_items result ≡ [] }
{
    match end {
        ActEnd::Done => Step::Goes,
        ActEnd::Halted(halt) => Step::Halts(halt),
    }
}

// Starts a statement that was counted.
fn start<'a>(
    alloc: Global,
    table: &TypeTable,
    comp: &'a ComponentPlan,
    arguments: &[Value],
    this: &'a Statement,
    tasks: &mut Vec<Task<'a>>,
    event: &mut Event,
) -> Result<Step<'a>, Memory>
    requires fits { Fits table.now comp.now }
    requires conform { HasConforming table.now comp.now event.old }
    ensures conform { HasConforming table.now comp.now event.new }
    ensures comp { event.new.comp ≡ event.old.comp }
    ensures left { event.new.left ≤ event.old.left }
    ensures runs { IfOk result (λ s. StepsTo table.now comp.now s (map plain arguments.now) (statement (map plain arguments.now) (stmt this.now)) tasks.old.items tasks.new.items (suc event.old.left) event.old event.new) }
    ensures few { OnOk result (length tasks.new.items ≤ length tasks.old.items + 1) }
{
    match this {
        Statement::Assign(target, operand) => {
            let end = assign(alloc, table, comp, arguments, target, operand, event)?;
            Ok(step_of(end))
        }
        Statement::Math(target, items) => {
            let items = items.as_slice();
            let end = calculate(alloc, table, comp, arguments, target, items, event)?;
            Ok(step_of(end))
        }
        Statement::If(guard, yes, no) => {
            let (yes, no) = (yes.as_slice(), no.as_slice());
            start_choice(table, arguments, guard, yes, no, tasks, event)
        }
        Statement::Iterate(at, first, last, step, body) => {
            let body = body.as_slice();
            start_iteration(table, arguments, *at, first, last, step, body, tasks, event)
        }
        Statement::Call(action) => {
            let step = start_call(alloc, table, comp, arguments, action, event)?;
            Ok(step)
        }
        Statement::SendCommand(face, member, operands, name) => {
            let operands = operands.as_slice();
            let end = send_command(
                alloc, table, comp, arguments, *face, *member, operands, *name, event,
            )?;
            Ok(step_of(end))
        }
        Statement::SendParameter(face, member, op, operand, name) => {
            let end = send_parameter(
                alloc, table, comp, arguments, *face, *member, *op, operand, *name, event,
            )?;
            Ok(step_of(end))
        }
    }
}

// The statements for true or for false are next.
fn start_choice<'a>(
    table: &TypeTable,
    arguments: &[Value],
    guard: &Guard,
    yes: &'a [Statement],
    no: &'a [Statement],
    tasks: &mut Vec<Task<'a>>,
    event: &Event,
) -> Result<Step<'a>, Memory>
    ensures runs { IfOk result (λ s. (c : component_plan) → StepsTo table.now c s (map plain arguments.now) (statement (map plain arguments.now) (choose (condition guard.now) (stmts_of (stmts yes.now)) (stmts_of (stmts no.now)))) tasks.old.items tasks.new.items (suc event.now.left) event.now event.now) }
    ensures few { OnOk result (length tasks.new.items ≤ length tasks.old.items + 1) }
{
    if holds(guard, table, arguments, event.variables.as_slice()) {
        tasks.push(Task::Statements(yes))?;
        Ok(Step::Goes)
    } else {
        tasks.push(Task::Statements(no))?;
        Ok(Step::Goes)
    }
}

// The first turn of an iteration is next, where there is one.
fn start_iteration<'a>(
    table: &TypeTable,
    arguments: &[Value],
    at: u16,
    first: &Operand,
    last: &Operand,
    step: &i128,
    body: &'a [Statement],
    tasks: &mut Vec<Task<'a>>,
    event: &Event,
) -> Result<Step<'a>, Memory>
    ensures runs { IfOk result (λ s. (c : component_plan) → StepsTo table.now c s (map plain arguments.now) (statement (map plain arguments.now) (iterate at first.now last.now step.now (stmts_of (stmts body.now)))) tasks.old.items tasks.new.items (suc event.now.left) event.now event.now) }
    ensures few { OnOk result (length tasks.new.items ≤ length tasks.old.items + 1) }
{
    let first = number_of(table, arguments, event.variables.as_slice(), first);
    let last = number_of(table, arguments, event.variables.as_slice(), last);
    match turn_of(at, first, last, step) {
        None => Ok(Step::Halts(Halt::OutOfRange)),
        Some(turn) => {
            push_turn(tasks, this_turn(turn), body)?;
            Ok(Step::Goes)
        }
    }
}

// Puts a turn before the tasks, where there is one.
fn push_turn<'a>(
    tasks: &mut Vec<Task<'a>>,
    turn: Option<Turn>,
    body: &'a [Statement],
) -> Result<(), Memory>
    ensures runs { OnOk result ((args : List Plain) → tasks_items args tasks.new.items ≡ turn_items turn args (stmts body.now) ++ tasks_items args tasks.old.items) }
    ensures few { OnOk result (length tasks.new.items ≤ length tasks.old.items + 1) }
{
    if let Some(turn) = turn {
        tasks.push(Task::Turn(turn, body))?;
    }
    Ok(())
}

// Another activity is next.
fn start_call<'a>(
    alloc: Global,
    table: &TypeTable,
    comp: &'a ComponentPlan,
    arguments: &[Value],
    action: &Action,
    event: &Event,
) -> Result<Step<'a>, Memory>
    requires fits { Fits table.now comp.now }
    ensures runs { IfOk result (λ s. Leads table.now comp.now (end_of s) (statement (map plain arguments.now) (calls action.now) ∷ []) (called_items s) (suc event.now.left) (world event.now) event.now.left (world event.now)) }
{
    match comp.activities.get(action.activity as usize) {
        None => Ok(Step::Halts(Halt::BadArgument)),
        Some(activity) => {
            let types = argument_types(alloc, activity)?;
            let variables = event.variables.as_slice();
            let operands = action.operands.as_slice();
            match arguments_of(
                alloc,
                table,
                types.as_slice(),
                arguments,
                variables,
                operands,
            )? {
                None => Ok(Step::Halts(Halt::BadArgument)),
                Some(values) => Ok(Step::Calls(frame_of(alloc, values, activity)?)),
            }
        }
    }
}

/// An activity of which all statements are still to be started.
pub(crate) fn frame_of<'a>(
    alloc: Global,
    arguments: Vec<Value>,
    activity: &'a Activity,
) -> Result<Frame<'a>, Memory>
    ensures { IfOk result (λ f. frame_items f ≡ items_of (map plain arguments.items) (stmts activity.now.body)) }
{
    let mut tasks = Vec::new(alloc);
    tasks.push(Task::Statements(activity.body.as_slice()))?;
    Ok(Frame { arguments, tasks })
}

// Stores the value of an operand.
fn assign(
    alloc: Global,
    table: &TypeTable,
    comp: &ComponentPlan,
    arguments: &[Value],
    target: &Target,
    operand: &Operand,
    event: &mut Event,
) -> Result<ActEnd, Memory>
    requires fits { Fits table.now comp.now }
    requires conform { HasConforming table.now comp.now event.old }
    ensures conform { HasConforming table.now comp.now event.new }
    ensures comp { event.new.comp ≡ event.old.comp }
    ensures left { event.new.left ≤ event.old.left }
    ensures runs { IfOk result (λ e. Starts table.now comp.now e (statement (map plain arguments.now) (assign target.now operand.now)) [] event.old event.new) }
{
    let number = number_of(table, arguments, event.variables.as_slice(), operand);
    match number {
        Some(_) => store_at(alloc, table, comp, target, number, event),
        None => assign_other(alloc, table, comp, arguments, target, operand, event),
    }
}

// Stores the value of an operand, whatever its kind.
fn assign_other(
    alloc: Global,
    table: &TypeTable,
    comp: &ComponentPlan,
    arguments: &[Value],
    target: &Target,
    operand: &Operand,
    event: &mut Event,
) -> Result<ActEnd, Memory>
    requires fits { Fits table.now comp.now }
    requires conform { HasConforming table.now comp.now event.old }
    ensures conform { HasConforming table.now comp.now event.new }
    ensures comp { event.new.comp ≡ event.old.comp }
    ensures left { event.new.left ≤ event.old.left }
    ensures runs { IfOk result (λ e. Starts table.now comp.now e (statement (map plain arguments.now) (assign target.now operand.now)) [] event.old event.new) }
{
    let value = copy_of(alloc, table, arguments, event.variables.as_slice(), operand)?;
    let value = targeted(alloc, table, event.variables.as_slice(), target, value)?;
    Ok(store(table, comp, event, target.variable, value))
}

// Stores the result of a calculation.
fn calculate(
    alloc: Global,
    table: &TypeTable,
    comp: &ComponentPlan,
    arguments: &[Value],
    target: &Target,
    items: &[MathItem],
    event: &mut Event,
) -> Result<ActEnd, Memory>
    requires fits { Fits table.now comp.now }
    requires conform { HasConforming table.now comp.now event.old }
    ensures conform { HasConforming table.now comp.now event.new }
    ensures comp { event.new.comp ≡ event.old.comp }
    ensures left { event.new.left ≤ event.old.left }
    ensures runs { IfOk result (λ e. Starts table.now comp.now e (statement (map plain arguments.now) (calculate target.now items.now)) [] event.old event.new) }
{
    let variables = event.variables.as_slice();
    let number = calculated(table, arguments, variables, items, &mut event.numbers)?;
    store_at(alloc, table, comp, target, number, event)
}

// Stores a number, where there is one.
#[inline(always)]
fn store_at(
    alloc: Global,
    table: &TypeTable,
    comp: &ComponentPlan,
    target: &Target,
    number: Option<i128>,
    event: &mut Event,
) -> Result<ActEnd, Memory>
    requires fits { Fits table.now comp.now }
    requires conform { HasConforming table.now comp.now event.old }
    ensures conform { HasConforming table.now comp.now event.new }
    ensures comp { event.new.comp ≡ event.old.comp }
    ensures left { event.new.left ≡ event.old.left }
    ensures kept { IfOk result (λ e. OnHalted e (world event.new ≡ world event.old)) }
    ensures stored { IfOk result (λ e. (packs : ℕ → Plain → Bool) → Tells table.now packs → storing packs (slice_get (variable_types comp.now) target.now.variable) target.now.variable (targeted table.now (map plain event.old.variables.items) target.now (option_map num number)) [] (world event.old) ≡ stored e [] (world event.new)) }
{
    let value = value_of_number(number);
    if is_whole(target, event.variables.as_slice()) {
        return Ok(store(table, comp, event, target.variable, value));
    }
    let value = targeted(alloc, table, event.variables.as_slice(), target, value)?;
    Ok(store(table, comp, event, target.variable, value))
}
