//! Start.

ghost use Rattle.std.specs.Prelude.{◌≡◌, ◌≤◌, ◌<◌, ◌+◌, ◌++◌, ◌∷◌, [], length, map, OnOk, IfOk};
ghost use Rattle.std.specs.List.{AllByRecursion};
ghost use Rattle.eds_host.specs.Mirrors.{dues_of};
ghost use Rattle.eds_host.specs.Plans.{AreBegun, AreStates, Arrives, NoneBefore};
ghost use Rattle.eds_host.specs.Machines.{unstarted};
ghost use Rattle.eds_host.specs.Runs.{all_fresh as all_fresh_of, all_start, begun, happening, nothing};
ghost use Rattle.eds_host.specs.Settings.{IsSetting, StillFit, running, world};
ghost use Rattle.eds_plan.specs.Outs.{report};

use crate::component::{fresh, next_due, start};
use crate::dues::Dues;
use crate::queue::Queue;
use crate::sending::send_all;
use crate::setting::Setting;
use eds_base::{CompId, Memory};
use eds_plan::{Outs, Plan, Sends, States};
use std::alloc::Global;

/// The states of all components before they start.
pub(crate) fn all_fresh(alloc: Global, plan: &Plan) -> Result<States, Memory>
    requires { length plan.now ≤ 64 }
    ensures { IfOk result (λ states. states ≡ all_fresh_of (unstarted plan.now) 0 (length plan.now)) }
{
    let mut states = States::new(alloc);
    for i in 0..plan.len() {
        let state = fresh(alloc, plan, CompId(i as u32))?;
        states.push(state)?;
    }
    Ok(states)
}

// One more component starts.
fn begin_one(
    alloc: Global,
    setting: &Setting<'_>,
    comp: CompId,
    states: &mut States,
    queue: &mut Queue,
    dues: &mut Dues,
    out: &mut Outs,
) -> Result<(), Memory>
    requires setting { IsSetting setting.now }
    requires known { comp.0 < length setting.now.plan.now }
    requires so_far { length states.old ≡ comp.0 }
    requires states { AreBegun setting.now.table.now setting.now.plan.now states.old }
    requires tied { dues.old ≡ dues_of (running setting.now) 0 states.old }
    requires placed { AllByRecursion (Arrives setting.now.table.now setting.now.plan.now) queue.old }
    ensures so_far { OnOk result (length states.new ≡ comp.0 + 1) }
    ensures states { OnOk result (AreBegun setting.now.table.now setting.now.plan.now states.new) }
    ensures tied { OnOk result (dues.new ≡ dues_of (running setting.now) 0 states.new) }
    ensures placed { OnOk result (AllByRecursion (Arrives setting.now.table.now setting.now.plan.now) queue.new) }
    ensures ok { OnOk result (happening (world 0 states.new queue.new) (map report out.new) ≡ begun (running setting.now) comp.0 ((running setting.now).starts comp.0) (happening (world 0 states.old queue.old) (map report out.old))) }
    ensures fits { OnOk result (StillFit setting.now (map report out.old) (map report out.new)) }
{
    let mut sends = Sends::new(alloc);
    let state = start(alloc, setting.table, setting.plan, comp, &mut sends)?;
    let due = next_due(setting.table, setting.plan, comp, &state, 0);
    dues.push()?;
    dues.set(comp.0, due)?;
    states.push(state)?;
    send_all(setting, comp, 0, sends, queue, out)?;
    Ok(())
}

// All components start, in document order.
fn each_begins(
    alloc: Global,
    setting: &Setting<'_>,
    states: &mut States,
    queue: &mut Queue,
    dues: &mut Dues,
    out: &mut Outs,
) -> Result<(), Memory>
    requires setting { IsSetting setting.now }
    requires states { states.old ≡ [] }
    requires tied { dues.old ≡ [] }
    requires placed { AllByRecursion (Arrives setting.now.table.now setting.now.plan.now) queue.old }
    ensures count { OnOk result (length states.new ≡ length setting.now.plan.now) }
    ensures states { OnOk result (AreBegun setting.now.table.now setting.now.plan.now states.new) }
    ensures tied { OnOk result (dues.new ≡ dues_of (running setting.now) 0 states.new) }
    ensures placed { OnOk result (AllByRecursion (Arrives setting.now.table.now setting.now.plan.now) queue.new) }
    ensures ok { OnOk result (happening (world 0 states.new queue.new) (map report out.new) ≡ all_start (running setting.now) 0 (length setting.now.plan.now) (happening (world 0 [] queue.old) (map report out.old))) }
    ensures fits { OnOk result (StillFit setting.now (map report out.old) (map report out.new)) }
{
    for i in 0..setting.plan.len() {
        begin_one(alloc, setting, CompId(i as u32), states, queue, dues, out)?;
    }
    Ok(())
}

/// All components start, in document order.
pub(crate) fn begin_all(
    alloc: Global,
    setting: &Setting<'_>,
    states: &mut States,
    queue: &mut Queue,
    dues: &mut Dues,
    out: &mut Outs,
) -> Result<(), Memory>
    requires setting { IsSetting setting.now }
    requires states { states.old ≡ [] }
    requires tied { dues.old ≡ [] }
    requires queue { queue.old ≡ [] }
    ensures states { OnOk result (AreStates setting.now.table.now setting.now.plan.now 0 states.new) }
    ensures before { OnOk result (NoneBefore setting.now.plan.now 1 states.new) }
    ensures tied { OnOk result (dues.new ≡ dues_of (running setting.now) 0 states.new) }
    ensures placed { OnOk result (AllByRecursion (Arrives setting.now.table.now setting.now.plan.now) queue.new) }
    ensures ok { OnOk result (world 0 states.new queue.new ≡ (all_start (running setting.now) 0 (length setting.now.plan.now) (happening nothing [])).world) }
    ensures outs { OnOk result (map report out.new ≡ map report out.old ++ (all_start (running setting.now) 0 (length setting.now.plan.now) (happening nothing [])).outs) }
    ensures fits { OnOk result (StillFit setting.now (map report out.old) (map report out.new)) }
{
    each_begins(alloc, setting, states, queue, dues, out)?;
    Ok(())
}

/// The moments for which components in such states wait.
pub(crate) fn all_due(
    alloc: Global,
    setting: &Setting<'_>,
    states: &States,
    now: u64,
) -> Result<Dues, Memory>
    requires setting { IsSetting setting.now }
    requires states { AreStates setting.now.table.now setting.now.plan.now now states.now }
    ensures { IfOk result (λ d. d ≡ dues_of (running setting.now) 0 states.now) }
{
    let mut dues = Dues::new(alloc);
    for i in 0..setting.plan.len() {
        let comp = CompId(i as u32);
        let due = next_due(setting.table, setting.plan, comp, states.at(comp), now);
        dues.push()?;
        dues.set(comp.0, due)?;
    }
    Ok(dues)
}
