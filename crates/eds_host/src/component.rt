//! Components, as a run sees them.

ghost use Rattle.std.specs.Prelude.{◌≡◌, ◌<◌, ◌≤◌, ◌+◌, ℕ, [], OnOk, IfOk, length, map};
ghost use Rattle.std.specs.List.{AllByRecursion};
ghost use Rattle.eds_act.specs.Does.{Conforms};
ghost use Rattle.eds_host.specs.Comings.{coming};
ghost use Rattle.eds_host.specs.Laws.{NotBefore};
ghost use Rattle.eds_host.specs.Machines.{started, reacted, unstarted, waits_of, IsStateOf};
ghost use Rattle.eds_host.specs.Plans.{MayCome, IsSent};
ghost use Rattle.eds_plan.specs.States.{state_now};
ghost use Rattle.eds_plan.specs.Fitting.{PlanFits};
ghost use Rattle.eds_plan.specs.Sends.{sent};

use eds_base::{CompId, Memory};
use eds_machine::Event;
use eds_plan::{CompState, Plan, Sends};
use eds_types::TypeTable;
use eds_types::packs::packed_sizes;
use std::alloc::Global;

/// A component before it starts.
pub(crate) fn fresh(alloc: Global, plan: &Plan, comp: CompId) -> Result<CompState, Memory>
    requires { comp.0 < length plan.now }
    ensures { IfOk result (λ s. state_now s ≡ unstarted plan.now comp.0) }
{
    eds_machine::fresh_state(alloc, plan, comp)
}

/// A component starts: its state then, and what it sends.
pub(crate) fn start(
    alloc: Global,
    table: &TypeTable,
    plan: &Plan,
    comp: CompId,
    out: &mut Sends,
) -> Result<CompState, Memory>
    requires plan { PlanFits table.now (Conforms table.now) plan.now }
    requires known { comp.0 < length plan.now }
    requires fresh { out.old ≡ [] }
    ensures state { IfOk result (λ s. state_now s ≡ (started table.now plan.now comp.0).state) }
    ensures sends { OnOk result (map sent out.new ≡ (started table.now plan.now comp.0).sends) }
    ensures keeps { IfOk result (λ s. IsStateOf table.now plan.now comp.0 0 (state_now s)) }
    ensures later { IfOk result (λ s. NotBefore 1 (waits_of plan.now comp.0 (state_now s))) }
    ensures fits { OnOk result (AllByRecursion (IsSent table.now plan.now) (map sent out.new)) }
{
    packed_sizes();
    table.keeps_rules();
    let state = eds_machine::start(alloc, table, plan, comp, out)?;
    Ok(state)
}

/// A component reacts to what comes to it.
pub(crate) fn react(
    alloc: Global,
    table: &TypeTable,
    plan: &Plan,
    comp: CompId,
    state: &mut CompState,
    event: &Event,
    now: u64,
    out: &mut Sends,
) -> Result<(), Memory>
    requires plan { PlanFits table.now (Conforms table.now) plan.now }
    requires known { comp.0 < length plan.now }
    requires fresh { out.old ≡ [] }
    requires state { IsStateOf table.now plan.now comp.0 now (state_now state.old) }
    requires event { MayCome table.now plan.now comp.0 now (state_now state.old) (coming event.now) }
    ensures state { OnOk result (state_now state.new ≡ (reacted table.now plan.now comp.0 (coming event.now) now (state_now state.old)).state) }
    ensures sends { OnOk result (map sent out.new ≡ (reacted table.now plan.now comp.0 (coming event.now) now (state_now state.old)).sends) }
    ensures keeps { OnOk result (IsStateOf table.now plan.now comp.0 now (state_now state.new)) }
    ensures later { OnOk result ((b : ℕ) → b ≤ now + 1 → NotBefore b (waits_of plan.now comp.0 (state_now state.old)) → NotBefore b (waits_of plan.now comp.0 (state_now state.new))) }
    ensures fits { OnOk result (AllByRecursion (IsSent table.now plan.now) (map sent out.new)) }
{
    packed_sizes();
    table.keeps_rules();
    eds_machine::react(alloc, table, plan, comp, state, event, now, out)?;
    Ok(())
}

/// The least moment for which a component waits, in nanoseconds, with the first machine that does.
#[tactic(auto, unfolding(crate::specs::Machines::waits_of))]
pub(crate) fn next_due(
    table: &TypeTable,
    plan: &Plan,
    comp: CompId,
    state: &CompState,
    now: u64,
) -> Option<(u64, u16)>
    requires plan { PlanFits table.now (Conforms table.now) plan.now }
    requires known { comp.0 < length plan.now }
    requires state { IsStateOf table.now plan.now comp.0 now (state_now state.now) }
    ensures { result ≡ waits_of plan.now comp.0 (state_now state.now) }
{
    eds_machine::next_due(plan, comp, state)
}
