//! Where what is sent goes.

ghost use Rattle.std.specs.Prelude.{◌≡◌, ◌++◌, ◌∷◌, [], Some, OnOk, map};
ghost use Rattle.std.specs.List.{AllByRecursion};
ghost use Rattle.eds_host.specs.Plans.{Arrives, IsSent};
ghost use Rattle.eds_host.specs.Settings.{IsSetting, StillFit};
ghost use Rattle.eds_host.specs.Systems.{leaving, queued};
ghost use Rattle.eds_host.specs.Wires.{other_end as other_end_of};
ghost use Rattle.eds_plan.specs.Outs.{report, signal};
ghost use Rattle.eds_plan.specs.Sends.{sent};

use crate::queue::Queue;
use crate::setting::Setting;
use eds_base::{CompId, Memory};
use eds_plan::{End, Out, Outs, Primitive, Send, Sends};

/// Something leaves the run.
#[tactic(auto, using(crate::proofs::Sent::reported))]
pub(crate) fn leave(out: &mut Outs, what: Out) -> Result<(), Memory>
    ensures { OnOk result (map report out.new ≡ map report out.old ++ report what ∷ []) }
{
    out.push(what)?;
    Ok(())
}

// What is sent at a wired end is to be delivered at the other end.
fn deliver(queue: &mut Queue, p: Primitive, end: End) -> Result<(), Memory>
    ensures { OnOk result (queue.new ≡ queue.old ++ record (signal p) { end = end } ∷ []) }
{
    let Primitive {
        end: _,
        member,
        way,
        op,
        arguments,
    } = p;
    queue.push(Primitive {
        end,
        member,
        way,
        op,
        arguments,
    })
}

// What is sent once goes to the queue, or leaves the run.
#[tactic(auto, using(crate::proofs::Sent::placed_last, crate::proofs::Sent::arrives_tied, crate::proofs::Sent::out_last))]
fn send_one(
    setting: &Setting<'_>,
    comp: CompId,
    now: u64,
    what: Send,
    queue: &mut Queue,
    out: &mut Outs,
) -> Result<(), Memory>
    requires setting { IsSetting setting.now }
    requires placed { AllByRecursion (Arrives setting.now.table.now setting.now.plan.now) queue.old }
    requires fits { IsSent setting.now.table.now setting.now.plan.now (sent what) }
    ensures placed { OnOk result (AllByRecursion (Arrives setting.now.table.now setting.now.plan.now) queue.new) }
    ensures queue { OnOk result (queue.new ≡ queue.old ++ queued (other_end_of setting.now.links.now) (sent what ∷ [])) }
    ensures out { OnOk result (map report out.new ≡ map report out.old ++ leaving (other_end_of setting.now.links.now) now comp.0 (sent what ∷ [])) }
    ensures fits { OnOk result (StillFit setting.now (map report out.old) (map report out.new)) }
{
    match what {
        Send::Prim(p) => match setting.links.other_end(p.end) {
            Some(end) => {
                deliver(queue, p, end)?;
                Ok(())
            }
            None => leave(out, Out::Sent(now, p)),
        },
        Send::Halted(machine, halt) => leave(out, Out::Halted(now, comp, machine, halt)),
    }
}

/// What is sent goes to the queue, or leaves the run.
pub(crate) fn send_all(
    setting: &Setting<'_>,
    comp: CompId,
    now: u64,
    sends: Sends,
    queue: &mut Queue,
    out: &mut Outs,
) -> Result<(), Memory>
    requires setting { IsSetting setting.now }
    requires placed { AllByRecursion (Arrives setting.now.table.now setting.now.plan.now) queue.old }
    requires fits { AllByRecursion (IsSent setting.now.table.now setting.now.plan.now) (map sent sends) }
    ensures placed { OnOk result (AllByRecursion (Arrives setting.now.table.now setting.now.plan.now) queue.new) }
    ensures queue { OnOk result (queue.new ≡ queue.old ++ queued (other_end_of setting.now.links.now) (map sent sends)) }
    ensures out { OnOk result (map report out.new ≡ map report out.old ++ leaving (other_end_of setting.now.links.now) now comp.0 (map sent sends)) }
    ensures fits { OnOk result (StillFit setting.now (map report out.old) (map report out.new)) }
{
    for what in sends.into_vec() {
        send_one(setting, comp, now, what, queue, out)?;
    }
    Ok(())
}
