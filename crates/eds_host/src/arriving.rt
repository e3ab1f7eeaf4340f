//! An event comes to a component.

ghost use Rattle.std.specs.Prelude.{◌≡◌, ◌≤◌, ◌<◌, ◌+◌, ◌++◌, ℕ, [], length, map, slice_set, OnOk};
ghost use Rattle.std.specs.List.{AllByRecursion};
ghost use Rattle.eds_host.specs.Comings.{coming};
ghost use Rattle.eds_host.specs.Mirrors.{dues_of};
ghost use Rattle.eds_host.specs.Plans.{AreStates, Arrives, IsSent, MayCome, NoneBefore};
ghost use Rattle.eds_host.specs.Settings.{IsSetting, StillFit, reaction_in, running, state_in, world};
ghost use Rattle.eds_host.specs.Systems.{arrives as arrives_of};
ghost use Rattle.eds_plan.specs.Outs.{report};
ghost use Rattle.eds_plan.specs.Sends.{sent};

use crate::component::{next_due, react};
use crate::dues::Dues;
use crate::queue::Queue;
use crate::sending::send_all;
use crate::setting::Setting;
use eds_base::{CompId, Memory};
use eds_machine::Event;
use eds_plan::{Outs, Sends, States};
use std::alloc::Global;

// A component has reacted: the moment for which it waits is noted.
fn note_due(
    setting: &Setting<'_>,
    comp: CompId,
    now: u64,
    states: &States,
    dues: &mut Dues,
) -> Result<(), Memory>
    requires setting { IsSetting setting.now }
    requires known { comp.0 < length setting.now.plan.now }
    requires states { AreStates setting.now.table.now setting.now.plan.now now states.now }
    requires room { length dues.old ≡ length states.now }
    ensures { OnOk result (dues.new ≡ slice_set dues.old comp.0 ((running setting.now).waits comp.0 (state_in states.now comp.0))) }
{
    let due = next_due(setting.table, setting.plan, comp, states.at(comp), now);
    dues.set(comp.0, due)?;
    Ok(())
}

// A component reacts to what comes to it, and the states of others stay.
fn reacts(
    alloc: Global,
    setting: &Setting<'_>,
    comp: CompId,
    event: &Event,
    now: u64,
    states: &mut States,
    sends: &mut Sends,
) -> Result<(), Memory>
    requires setting { IsSetting setting.now }
    requires known { comp.0 < length setting.now.plan.now }
    requires fresh { sends.old ≡ [] }
    requires states { AreStates setting.now.table.now setting.now.plan.now now states.old }
    requires event { MayCome setting.now.table.now setting.now.plan.now comp.0 now (state_in states.old comp.0) (coming event.now) }
    ensures count { length states.new ≡ length states.old }
    ensures state { OnOk result (states.new ≡ slice_set states.old comp.0 (reaction_in setting.now comp.0 (coming event.now) now states.old).state) }
    ensures sends { OnOk result (map sent sends.new ≡ (reaction_in setting.now comp.0 (coming event.now) now states.old).sends) }
    ensures keeps { OnOk result (AreStates setting.now.table.now setting.now.plan.now now states.new) }
    ensures later { OnOk result ((b : ℕ) → b ≤ now + 1 → NoneBefore setting.now.plan.now b states.old → NoneBefore setting.now.plan.now b states.new) }
    ensures fits { OnOk result (AllByRecursion (IsSent setting.now.table.now setting.now.plan.now) (map sent sends.new)) }
{
    let state = states.at_mut(comp);
    react(
        alloc,
        setting.table,
        setting.plan,
        comp,
        state,
        event,
        now,
        sends,
    )?;
    Ok(())
}

/// An event comes to a component: its sends go to the queue, or leave the run.
#[tactic(auto, unfolding(crate::specs::Systems::settles), using(crate::proofs::Tied::tied_set))]
pub(crate) fn arrives(
    alloc: Global,
    setting: &Setting<'_>,
    comp: CompId,
    event: &Event,
    now: u64,
    states: &mut States,
    queue: &mut Queue,
    dues: &mut Dues,
    out: &mut Outs,
) -> Result<(), Memory>
    requires setting { IsSetting setting.now }
    requires known { comp.0 < length setting.now.plan.now }
    requires states { AreStates setting.now.table.now setting.now.plan.now now states.old }
    requires tied { dues.old ≡ dues_of (running setting.now) 0 states.old }
    requires placed { AllByRecursion (Arrives setting.now.table.now setting.now.plan.now) queue.old }
    requires event { MayCome setting.now.table.now setting.now.plan.now comp.0 now (state_in states.old comp.0) (coming event.now) }
    ensures count { length states.new ≡ length states.old }
    ensures states { OnOk result (AreStates setting.now.table.now setting.now.plan.now now states.new) }
    ensures later { OnOk result ((b : ℕ) → b ≤ now + 1 → NoneBefore setting.now.plan.now b states.old → NoneBefore setting.now.plan.now b states.new) }
    ensures tied { OnOk result (dues.new ≡ dues_of (running setting.now) 0 states.new) }
    ensures placed { OnOk result (AllByRecursion (Arrives setting.now.table.now setting.now.plan.now) queue.new) }
    ensures ok { OnOk result (world now states.new queue.new ≡ (arrives_of (running setting.now) comp.0 (coming event.now) (world now states.old queue.old)).world) }
    ensures outs { OnOk result (map report out.new ≡ map report out.old ++ (arrives_of (running setting.now) comp.0 (coming event.now) (world now states.old queue.old)).outs) }
    ensures fits { OnOk result (StillFit setting.now (map report out.old) (map report out.new)) }
{
    let mut sends = Sends::new(alloc);
    reacts(alloc, setting, comp, event, now, states, &mut sends)?;
    note_due(setting, comp, now, states, dues)?;
    send_all(setting, comp, now, sends, queue, out)?;
    Ok(())
}
