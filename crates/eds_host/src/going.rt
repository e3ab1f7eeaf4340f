//! One thing after another.

ghost use Rattle.std.specs.Prelude.{◌≡◌, ◌≤◌, ◌<◌, ◌+◌, ◌^◌, ◌++◌, ℕ, Some, None, length, map, OnOk, IfOk, IfSome, IsSome};
ghost use Rattle.std.specs.List.{AllByRecursion};
ghost use Rattle.eds_host.specs.Mirrors.{dues_of};
ghost use Rattle.eds_host.specs.Plans.{AreStates, Arrives, NoneBefore};
ghost use Rattle.eds_host.specs.Runs.{go_on as go_on_of};
ghost use Rattle.eds_host.specs.Settings.{AtRest, IsSetting, RestsBy, StillFit, bound, reaches, running, waits_here, world};
ghost use Rattle.eds_host.specs.Steps.{IsLine, IsStep};
ghost use Rattle.eds_host.specs.Systems.{first_due as first_due_of, has_come, next as next_of};
ghost use Rattle.eds_plan.specs.Outs.{report};

use crate::arriving::arrives;
use crate::due::Due;
use crate::dues::Dues;
use crate::handled::Handled;
use crate::queue::Queue;
use crate::setting::Setting;
use crate::step::Step;
use eds_base::{CompId, Memory};
use eds_machine::Event;
use eds_plan::{Outs, States};
use std::alloc::Global;

// The least moment for which a component waits.
#[tactic(auto, using(crate::proofs::Tied::first_is_due))]
fn least_due(setting: &Setting<'_>, states: &States, dues: &Dues) -> Option<Due>
    requires tied { dues.now ≡ dues_of (running setting.now) 0 states.now }
    ensures { result ≡ first_due_of (running setting.now) 0 states.now }
{
    dues.first()
}

// What is due, where it has come.
fn due_by(until: Option<u64>, due: Option<Due>) -> Option<Due>
    ensures come { result ≡ has_come until due }
    ensures same { IfSome result (λ d. due ≡ Some d) }
    ensures until { IfSome result (λ d. IfSome until (λ t. d.moment ≤ t)) }
    ensures some { IfSome result (λ d. IsSome until) }
{
    match (until, due) {
        (Some(t), Some(d)) => if d.moment <= t { due } else { None },
        _ => None,
    }
}

// The machine whose moment is the least, where it has come.
fn due_now(
    setting: &Setting<'_>,
    until: Option<u64>,
    now: u64,
    states: &States,
    dues: &Dues,
) -> Option<Due>
    requires setting { IsSetting setting.now }
    requires near { IfSome until (λ t. t < 2 ^ 63) }
    requires states { AreStates setting.now.table.now setting.now.plan.now now states.now }
    requires before { NoneBefore setting.now.plan.now (bound until now) states.now }
    requires tied { dues.now ≡ dues_of (running setting.now) 0 states.now }
    ensures first { result ≡ has_come until (first_due_of (running setting.now) 0 states.now) }
    ensures known { IfSome result (λ d. d.comp < length setting.now.plan.now) }
    ensures waits { IfSome result (λ d. waits_here setting.now.plan.now d.comp states.now ≡ Some (d.moment, d.machine)) }
    ensures later { IfSome result (λ d. now ≤ d.moment) }
    ensures until { IfSome result (λ d. IfSome until (λ t. d.moment ≤ t)) }
    ensures states { IfSome result (λ d. AreStates setting.now.table.now setting.now.plan.now d.moment states.now) }
    ensures before { IfSome result (λ d. NoneBefore setting.now.plan.now d.moment states.now) }
    ensures some { IfSome result (λ d. IsSome until) }
    ensures rest { result ≡ None → IfSome until (λ t. NoneBefore setting.now.plan.now (t + 1) states.now) }
{
    due_by(until, least_due(setting, states, dues))
}

// The first of the queue is delivered, or a machine fires whose moment has come, where so many more things may happen.
#[tactic(auto, unfolding(crate::specs::Systems::next))]
fn happen(
    alloc: Global,
    setting: &Setting<'_>,
    more: u32,
    until: Option<u64>,
    now: &mut u64,
    states: &mut States,
    queue: &mut Queue,
    dues: &mut Dues,
    out: &mut Outs,
) -> Result<Step, Memory>
    requires setting { IsSetting setting.now }
    requires now { now.old < 2 ^ 63 }
    requires until { IfSome until (λ t. now.old ≤ t) }
    requires near { IfSome until (λ t. t < 2 ^ 63) }
    requires states { AreStates setting.now.table.now setting.now.plan.now now.old states.old }
    requires before { NoneBefore setting.now.plan.now (bound until now.old) states.old }
    requires tied { dues.old ≡ dues_of (running setting.now) 0 states.old }
    requires placed { AllByRecursion (Arrives setting.now.table.now setting.now.plan.now) queue.old }
    ensures count { length states.new ≡ length states.old }
    ensures now { OnOk result (now.new < 2 ^ 63) }
    ensures until { OnOk result (IfSome until (λ t. now.new ≤ t)) }
    ensures states { OnOk result (AreStates setting.now.table.now setting.now.plan.now now.new states.new) }
    ensures before { OnOk result (NoneBefore setting.now.plan.now (bound until now.new) states.new) }
    ensures tied { OnOk result (dues.new ≡ dues_of (running setting.now) 0 states.new) }
    ensures placed { OnOk result (AllByRecursion (Arrives setting.now.table.now setting.now.plan.now) queue.new) }
    ensures rest { IfOk result (λ s. RestsBy s until now.new setting.now.plan.now states.new) }
    ensures ok { IfOk result (λ s. IsStep s more (next_of (running setting.now) until (world now.old states.old queue.old)) (world now.old states.old queue.old) (world now.new states.new queue.new) (map report out.old) (map report out.new)) }
    ensures fits { OnOk result (StillFit setting.now (map report out.old) (map report out.new)) }
{
    match queue.pop() {
        Some(p) => {
            if more == 0 {
                return Ok(Step::Storms);
            }
            let comp = p.end.comp;
            let event = Event::Prim(p);
            arrives(alloc, setting, comp, &event, *now, states, queue, dues, out)?;
            Ok(Step::Goes)
        }
        None => match due_now(setting, until, *now, states, dues) {
            Some(due) => {
                if more == 0 {
                    return Ok(Step::Storms);
                }
                *now = due.moment;
                let event = Event::Timer(due.machine);
                arrives(
                    alloc,
                    setting,
                    CompId(due.comp),
                    &event,
                    due.moment,
                    states,
                    queue,
                    dues,
                    out,
                )?;
                Ok(Step::Goes)
            }
            None => Ok(Step::Rests),
        },
    }
}

/// The most deliveries and firings of a line.
const MOST: u32 = 10_000;

/// What happens next happens, until nothing does or one more than 10,000 would.
#[tactic(auto, using(crate::proofs::GoLaws::done, crate::proofs::GoLaws::stormed, crate::proofs::GoLaws::gone))]
pub(crate) fn go_on(
    alloc: Global,
    setting: &Setting<'_>,
    until: Option<u64>,
    now: &mut u64,
    states: &mut States,
    queue: &mut Queue,
    dues: &mut Dues,
    out: &mut Outs,
) -> Result<Handled, Memory>
    requires setting { IsSetting setting.now }
    requires now { now.old < 2 ^ 63 }
    requires until { IfSome until (λ t. now.old ≤ t) }
    requires near { IfSome until (λ t. t < 2 ^ 63) }
    requires states { AreStates setting.now.table.now setting.now.plan.now now.old states.old }
    requires before { NoneBefore setting.now.plan.now (bound until now.old) states.old }
    requires tied { dues.old ≡ dues_of (running setting.now) 0 states.old }
    requires placed { AllByRecursion (Arrives setting.now.table.now setting.now.plan.now) queue.old }
    ensures count { length states.new ≡ length states.old }
    ensures now { OnOk result (now.new < 2 ^ 63) }
    ensures until { OnOk result (IfSome until (λ t. now.new ≤ t)) }
    ensures states { OnOk result (AreStates setting.now.table.now setting.now.plan.now now.new states.new) }
    ensures tied { OnOk result (dues.new ≡ dues_of (running setting.now) 0 states.new) }
    ensures placed { OnOk result (AllByRecursion (Arrives setting.now.table.now setting.now.plan.now) queue.new) }
    ensures rest { IfOk result (λ h. AtRest h (reaches until now.new) setting.now.plan.now states.new) }
    ensures ok { IfOk result (λ h. IsLine h (go_on_of (running setting.now) 10000 until (world now.old states.old queue.old)) (world now.new states.new queue.new) (map report out.old) (map report out.new)) }
    ensures fits { OnOk result (StillFit setting.now (map report out.old) (map report out.new)) }
{
    let mut more = MOST;
    loop {
        match happen(alloc, setting, more, until, now, states, queue, dues, out)? {
            Step::Rests => return Ok(Handled::Done),
            Step::Storms => return Ok(Handled::Storm),
            Step::Goes => more -= 1,
        }
    }
}
