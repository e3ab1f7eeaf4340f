//! One line.

ghost use Rattle.std.specs.Prelude.{◌≡◌, ◌≤◌, ◌<◌, ◌+◌, ◌^◌, ◌++◌, ◌∷◌, ℕ, List, Some, None, [], length, map, OnOk, IfOk, IfErr, IfSome};
ghost use Rattle.std.specs.List.{AllByRecursion};
ghost use Rattle.eds_host.specs.Hosts.{ArgumentsAreClear, BringsOne, brought_to, standing_after, way_to};
ghost use Rattle.eds_host.specs.Mirrors.{dues_of};
ghost use Rattle.eds_host.specs.Plans.{AreStates, Arrives, NoneBefore};
ghost use Rattle.eds_host.specs.Resting.{IsCalm, LineIs, MayBeTold};
ghost use Rattle.eds_host.specs.Runs.{all_start, comes, follows, happening, nothing, time_after, time_passes};
ghost use Rattle.eds_host.specs.Settings.{AtRest, IsSetting, StillFit, running, world};
ghost use Rattle.eds_host.specs.Steps.{IsLine};
ghost use Rattle.eds_host.specs.Systems.{sent_at};
ghost use Rattle.eds_host.specs.declared.host.Phase.TheVariants.{Rests, Spent};
ghost use Rattle.eds_plan.specs.Carried.{arriving, carried_of, goes};
ghost use Rattle.eds_plan.specs.Ends.{end_at};
ghost use Rattle.eds_plan.specs.Lines as lines;
ghost use Rattle.eds_plan.specs.Lines.{told};
ghost use Rattle.eds_plan.specs.Outs.{report, signal};
ghost use Rattle.eds_plan.specs.declared.activity.Op.TheVariants as op;
ghost use Rattle.eds_types.specs.Plain.{plain};

use crate::arriving::arrives;
use crate::beginning::begin_all;
use crate::dues::Dues;
use crate::frame::read_frame;
use crate::going::go_on;
use crate::handled::Handled;
use crate::host::Phase;
use crate::queue::Queue;
use crate::sending::leave;
use crate::setting::Setting;
use crate::wiring::end_plan;
use eds_base::{Fail, Memory, Octets, TypeId};
use eds_machine::Event;
use eds_plan::{
    Argument, End, Line, Member, Mode, Op, Out, Outs, Plan, Primitive, States, Values, Way,
};
use eds_types::Value;
use std::alloc::Global;

/// All components start, and what they send is delivered.
pub(crate) fn start_line(
    alloc: Global,
    setting: &Setting<'_>,
    now: &mut u64,
    states: &mut States,
    queue: &mut Queue,
    dues: &mut Dues,
    out: &mut Outs,
) -> Result<Handled, Memory>
    requires setting { IsSetting setting.now }
    requires now { now.old ≡ 0 }
    requires states { states.old ≡ [] }
    requires tied { dues.old ≡ [] }
    requires queue { queue.old ≡ [] }
    ensures now { OnOk result (now.new < 2 ^ 63) }
    ensures states { OnOk result (AreStates setting.now.table.now setting.now.plan.now now.new states.new) }
    ensures tied { OnOk result (dues.new ≡ dues_of (running setting.now) 0 states.new) }
    ensures placed { OnOk result (AllByRecursion (Arrives setting.now.table.now setting.now.plan.now) queue.new) }
    ensures rest { IfOk result (λ h. AtRest h now.new setting.now.plan.now states.new) }
    ensures ok { IfOk result (λ h. IsLine h (follows (running setting.now) (all_start (running setting.now) 0 (length setting.now.plan.now) (happening nothing []))) (world now.new states.new queue.new) (map report out.old) (map report out.new)) }
    ensures fits { OnOk result (StillFit setting.now (map report out.old) (map report out.new)) }
{
    begin_all(alloc, setting, states, queue, dues, out)?;
    let handled = go_on(alloc, setting, None, now, states, queue, dues, out)?;
    Ok(handled)
}

/// Time passes.
pub(crate) fn tick_line(
    alloc: Global,
    setting: &Setting<'_>,
    n: u64,
    now: &mut u64,
    states: &mut States,
    queue: &mut Queue,
    dues: &mut Dues,
    out: &mut Outs,
) -> Result<Handled, Memory>
    requires setting { IsSetting setting.now }
    requires now { now.old + n < 2 ^ 63 }
    requires states { AreStates setting.now.table.now setting.now.plan.now now.old states.old }
    requires before { NoneBefore setting.now.plan.now (now.old + 1) states.old }
    requires tied { dues.old ≡ dues_of (running setting.now) 0 states.old }
    requires placed { AllByRecursion (Arrives setting.now.table.now setting.now.plan.now) queue.old }
    ensures count { length states.new ≡ length states.old }
    ensures now { OnOk result (now.new < 2 ^ 63) }
    ensures states { OnOk result (AreStates setting.now.table.now setting.now.plan.now now.new states.new) }
    ensures tied { OnOk result (dues.new ≡ dues_of (running setting.now) 0 states.new) }
    ensures placed { OnOk result (AllByRecursion (Arrives setting.now.table.now setting.now.plan.now) queue.new) }
    ensures rest { IfOk result (λ h. AtRest h now.new setting.now.plan.now states.new) }
    ensures ok { IfOk result (λ h. IsLine h (time_passes (running setting.now) n (world now.old states.old queue.old)) (world now.new states.new queue.new) (map report out.old) (map report out.new)) }
    ensures fits { OnOk result (StillFit setting.now (map report out.old) (map report out.new)) }
{
    let until = *now + n;
    let handled = go_on(alloc, setting, Some(until), now, states, queue, dues, out)?;
    *now = until;
    Ok(handled)
}

/// A primitive arrives, and what is sent for it is delivered.
pub(crate) fn primitive_line(
    alloc: Global,
    setting: &Setting<'_>,
    p: Primitive,
    now: &mut u64,
    states: &mut States,
    queue: &mut Queue,
    dues: &mut Dues,
    out: &mut Outs,
) -> Result<Handled, Memory>
    requires setting { IsSetting setting.now }
    requires now { now.old < 2 ^ 63 }
    requires here { Arrives setting.now.table.now setting.now.plan.now (signal p) }
    requires states { AreStates setting.now.table.now setting.now.plan.now now.old states.old }
    requires before { NoneBefore setting.now.plan.now (now.old + 1) states.old }
    requires tied { dues.old ≡ dues_of (running setting.now) 0 states.old }
    requires placed { AllByRecursion (Arrives setting.now.table.now setting.now.plan.now) queue.old }
    ensures count { length states.new ≡ length states.old }
    ensures now { OnOk result (now.new < 2 ^ 63) }
    ensures states { OnOk result (AreStates setting.now.table.now setting.now.plan.now now.new states.new) }
    ensures tied { OnOk result (dues.new ≡ dues_of (running setting.now) 0 states.new) }
    ensures placed { OnOk result (AllByRecursion (Arrives setting.now.table.now setting.now.plan.now) queue.new) }
    ensures rest { IfOk result (λ h. AtRest h now.new setting.now.plan.now states.new) }
    ensures ok { IfOk result (λ h. IsLine h (follows (running setting.now) (comes (running setting.now) (signal p) (world now.old states.old queue.old))) (world now.new states.new queue.new) (map report out.old) (map report out.new)) }
    ensures fits { OnOk result (StillFit setting.now (map report out.old) (map report out.new)) }
{
    let comp = p.end.comp;
    let event = Event::Prim(p);
    arrives(alloc, setting, comp, &event, *now, states, queue, dues, out)?;
    let handled = go_on(alloc, setting, None, now, states, queue, dues, out)?;
    Ok(handled)
}

// The type of the one argument that a command carries where it arrives at an end.
fn frame_type(plan: &Plan, end: End, member: u16) -> Option<TypeId>
    ensures some { IfSome result (λ id. (ids : List ℕ) × (brought_to (end_at plan.now end) member ≡ id.0 ∷ ids)) }
    ensures none { result ≡ None → brought_to (end_at plan.now end) member ≡ [] }
{
    let component = plan.get(end.comp.0 as usize)?;
    let face = component.ends.get(usize::from(end.face))?;
    let Member::Command(_, arguments) = face.instance.members.get(usize::from(member))? else {
        return None;
    };
    first_brought(face.required, arguments.as_slice())
}

// The type of the first of these arguments that is carried to an end, which is required or not.
fn first_brought(required: bool, arguments: &[Argument]) -> Option<TypeId>
    ensures some { IfSome result (λ id. (ids : List ℕ) × (carried_of (arriving required) arguments.now ≡ id.0 ∷ ids)) }
    ensures none { result ≡ None → carried_of (arriving required) arguments.now ≡ [] }
{
    for argument in arguments {
        if is_brought(required, argument.mode) {
            return Some(argument.id);
        }
    }
    None
}

fn is_brought(required: bool, mode: Mode) -> bool
    ensures { result ≡ goes (arriving required) mode }
{
    match mode {
        Mode::In => !required,
        Mode::Out | Mode::Notify => required,
        Mode::InOut => true,
    }
}

// The command of a frame's value.
fn framed(
    alloc: Global,
    plan: &Plan,
    end: End,
    member: u16,
    value: Value,
) -> Result<Primitive, Memory>
    ensures { IfOk result (λ p. signal p ≡ sent_at end.comp.0 end.face member (way_to (end_at plan.now end)) op.Command (plain value ∷ [])) }
{
    let mut arguments = Values::new(alloc);
    arguments.push(value)?;
    Ok(Primitive {
        end,
        member,
        way: arrival_way(plan, end),
        op: Op::Command,
        arguments,
    })
}

// The way in which something arrives at an end.
fn arrival_way(plan: &Plan, end: End) -> Way
    ensures { result ≡ way_to (end_at plan.now end) }
{
    match end_plan(plan, end) {
        None => Way::Down,
        Some(face) => if face.required { Way::Up } else { Way::Down },
    }
}

// A primitive once more.
fn copied(alloc: Global, p: &Primitive) -> Result<Primitive, Memory>
    ensures { IfOk result (λ q. signal q ≡ signal p.now) }
{
    let mut arguments = Values::new(alloc);
    for value in p.arguments.as_slice() {
        arguments.push(value.copy(alloc)?)?;
    }
    Ok(Primitive {
        end: p.end,
        member: p.member,
        way: p.way,
        op: p.op,
        arguments,
    })
}

/// A frame arrives as its value, or it is refused and nothing changes.
pub(crate) fn frame_line(
    alloc: Global,
    setting: &Setting<'_>,
    end: End,
    member: u16,
    octets: &Octets,
    now: &mut u64,
    states: &mut States,
    queue: &mut Queue,
    dues: &mut Dues,
    out: &mut Outs,
) -> Result<Handled, Memory>
    requires setting { IsSetting setting.now }
    requires now { now.old < 2 ^ 63 }
    requires clear { ArgumentsAreClear setting.now.table.now setting.now.plan.now }
    requires few { length octets.now ≤ 65536 }
    requires one { BringsOne setting.now.plan.now end.comp.0 end.face member }
    requires states { AreStates setting.now.table.now setting.now.plan.now now.old states.old }
    requires before { NoneBefore setting.now.plan.now (now.old + 1) states.old }
    requires tied { dues.old ≡ dues_of (running setting.now) 0 states.old }
    requires placed { AllByRecursion (Arrives setting.now.table.now setting.now.plan.now) queue.old }
    ensures count { length states.new ≡ length states.old }
    ensures now { OnOk result (now.new < 2 ^ 63) }
    ensures states { OnOk result (AreStates setting.now.table.now setting.now.plan.now now.new states.new) }
    ensures tied { OnOk result (dues.new ≡ dues_of (running setting.now) 0 states.new) }
    ensures placed { OnOk result (AllByRecursion (Arrives setting.now.table.now setting.now.plan.now) queue.new) }
    ensures rest { IfOk result (λ h. AtRest h now.new setting.now.plan.now states.new) }
    ensures ok { IfOk result (λ h. LineIs setting.now (lines.framed end.comp.0 end.face member octets.now) (world now.old states.old queue.old) h (world now.new states.new queue.new) (map report out.old) (map report out.new)) }
    ensures fits { OnOk result (StillFit setting.now (map report out.old) (map report out.new)) }
{
    setting.table.keeps_rules();
    let Some(id) = frame_type(setting.plan, end, member) else {
        return Err(Memory);
    };
    match read_frame(
        alloc,
        setting.table,
        setting.segments,
        id,
        octets.as_slice(),
    ) {
        Ok(value) => {
            let p = framed(alloc, setting.plan, end, member, value)?;
            primitive_line(alloc, setting, p, now, states, queue, dues, out)
        }
        Err(Fail::Named(fault)) => {
            leave(out, Out::Reject(*now, end, member, fault))?;
            Ok(Handled::Done)
        }
        Err(Fail::Memory) => Err(Memory),
    }
}

// The start, whatever was: components, queue and moments are put in place once all of it was done.
fn first_line(
    alloc: Global,
    setting: &Setting<'_>,
    now: &mut u64,
    states: &mut States,
    queue: &mut Queue,
    dues: &mut Dues,
    out: &mut Outs,
) -> Result<Handled, Memory>
    requires setting { IsSetting setting.now }
    requires now { now.old ≡ 0 }
    requires all { length states.old ≡ length setting.now.plan.now }
    ensures count { length states.new ≡ length states.old }
    ensures now { OnOk result (now.new < 2 ^ 63) }
    ensures states { OnOk result (AreStates setting.now.table.now setting.now.plan.now now.new states.new) }
    ensures tied { OnOk result (dues.new ≡ dues_of (running setting.now) 0 states.new) }
    ensures placed { OnOk result (AllByRecursion (Arrives setting.now.table.now setting.now.plan.now) queue.new) }
    ensures rest { IfOk result (λ h. AtRest h now.new setting.now.plan.now states.new) }
    ensures ok { IfOk result (λ h. LineIs setting.now lines.starts (world now.old states.old queue.old) h (world now.new states.new queue.new) (map report out.old) (map report out.new)) }
    ensures fits { OnOk result (StillFit setting.now (map report out.old) (map report out.new)) }
{
    let mut begun = States::new(alloc);
    let mut sent = Queue::new(alloc);
    let mut moments = Dues::new(alloc);
    let handled = start_line(
        alloc,
        setting,
        now,
        &mut begun,
        &mut sent,
        &mut moments,
        out,
    )?;
    *states = begun;
    *queue = sent;
    *dues = moments;
    Ok(handled)
}

// One line that was told.
fn told_line(
    alloc: Global,
    setting: &Setting<'_>,
    line: &Line,
    now: &mut u64,
    states: &mut States,
    queue: &mut Queue,
    dues: &mut Dues,
    out: &mut Outs,
) -> Result<Handled, Memory>
    requires setting { IsSetting setting.now }
    requires clear { ArgumentsAreClear setting.now.table.now setting.now.plan.now }
    requires all { length states.old ≡ length setting.now.plan.now }
    requires line { MayBeTold setting.now (told line.now) now.old states.old queue.old dues.old }
    ensures count { length states.new ≡ length states.old }
    ensures now { OnOk result (now.new < 2 ^ 63) }
    ensures states { OnOk result (AreStates setting.now.table.now setting.now.plan.now now.new states.new) }
    ensures tied { OnOk result (dues.new ≡ dues_of (running setting.now) 0 states.new) }
    ensures placed { OnOk result (AllByRecursion (Arrives setting.now.table.now setting.now.plan.now) queue.new) }
    ensures rest { IfOk result (λ h. AtRest h now.new setting.now.plan.now states.new) }
    ensures ok { IfOk result (λ h. LineIs setting.now (told line.now) (world now.old states.old queue.old) h (world now.new states.new queue.new) (map report out.old) (map report out.new)) }
    ensures fits { OnOk result (StillFit setting.now (map report out.old) (map report out.new)) }
{
    match line {
        Line::Start => first_line(alloc, setting, now, states, queue, dues, out),
        Line::Tick(n) => tick_line(alloc, setting, *n, now, states, queue, dues, out),
        Line::Prim(p) => {
            let p = copied(alloc, p)?;
            primitive_line(alloc, setting, p, now, states, queue, dues, out)
        }
        Line::Frame(end, member, octets) => frame_line(
            alloc, setting, *end, *member, octets, now, states, queue, dues, out,
        ),
    }
}

/// One line, and how a host stands after it.
pub(crate) fn any_line(
    alloc: Global,
    setting: &Setting<'_>,
    line: &Line,
    phase: &mut Phase,
    now: &mut u64,
    states: &mut States,
    queue: &mut Queue,
    dues: &mut Dues,
    out: &mut Outs,
) -> Result<Handled, Memory>
    requires setting { IsSetting setting.now }
    requires clear { ArgumentsAreClear setting.now.table.now setting.now.plan.now }
    requires all { length states.old ≡ length setting.now.plan.now }
    requires line { MayBeTold setting.now (told line.now) now.old states.old queue.old dues.old }
    ensures count { length states.new ≡ length states.old }
    ensures calm { IsCalm phase.new setting.now.table.now setting.now.plan.now setting.now.links.now now.new states.new queue.new dues.new }
    ensures phase { IfOk result (λ h. phase.new ≡ standing_after h) }
    ensures time { phase.new ≡ Rests → now.new ≡ time_after (told line.now) now.old }
    ensures spent { IfErr result (λ e. phase.new ≡ Spent) }
    ensures ok { IfOk result (λ h. LineIs setting.now (told line.now) (world now.old states.old queue.old) h (world now.new states.new queue.new) (map report out.old) (map report out.new)) }
    ensures fits { OnOk result (StillFit setting.now (map report out.old) (map report out.new)) }
{
    *phase = Phase::Spent;
    let handled = told_line(alloc, setting, line, now, states, queue, dues, out)?;
    *phase = match handled {
        Handled::Done => Phase::Rests,
        Handled::Storm => Phase::Storm,
    };
    Ok(handled)
}
