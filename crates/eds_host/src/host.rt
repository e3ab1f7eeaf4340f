//! Hosts.

ghost use Rattle.std.specs.Prelude.{◌≡◌, ℕ, List, Ok, IfOk, IfErr, map};
ghost use Rattle.std.specs.HashMap.{get_by_text};
ghost use Rattle.eds_host.specs.Hosts.{asked_by};
ghost use Rattle.eds_host.specs.Links.{Stops};
ghost use Rattle.eds_host.specs.Mirrors.{dues_of};
ghost use Rattle.eds_host.specs.Plans.{AreStates, WiresFit, system};
ghost use Rattle.eds_host.specs.Wires.{other_end, ties_of};
ghost use Rattle.eds_act.specs.Does.{Conforms};
ghost use Rattle.eds_plan.specs.Ends.{end_named};
ghost use Rattle.eds_plan.specs.Fitting.{PlanFits};

use crate::beginning::{all_due, all_fresh};
use crate::dues::Dues;
use crate::handled::Handled;
use crate::line::any_line;
use crate::queue::Queue;
use crate::setting::Setting;
use crate::wiring::{Asked, HostFail, Links, tie_all};
use eds_base::{CompId, Fail, Items, Memory};
use eds_plan::{CompState, End, EndIndex, Line, Outs, Plan, States, Wires, index_ends};
use eds_types::TypeTable;
use eds_unpack::Segments;
use std::alloc::Global;
use std::marker::Model;

/// How a host stands.
#[derive(Clone, Copy, PartialEq, Eq)]
pub enum Phase {
    /// The start is still to come.
    Fresh,
    /// Each line so far was done.
    Rests,
    /// A line was a storm.
    Storm,
    /// Memory ran out in a line.
    Spent,
}

/// The components of a plan with wires between their ends, in a run: a time in nanoseconds, and the state of each component.
/// Clauses see its table, plan and wires, the world of the run, and how it stands.
#[derive(Drop)]
pub struct Host<'a> {
    segments: Segments<'a>,
    plan: &'a Plan,
    links: Links,
    time: u64,
    states: States,
    queue: Queue,
    dues: Dues,
    phase: Phase,
}

impl<'a> Model for Host<'a> {
    ghost use Rattle.std.specs.Coded.{codes};
    ghost use Rattle.eds_host.specs.Hosts.{HostNow};
    ghost use Rattle.eds_host.specs.Resting.{Stands};
    ghost use Rattle.eds_host.specs.Settings.{world};
    ghost use Rattle.eds_plan.specs.contracts.activity.Guard as guard;
    ghost use Rattle.eds_plan.specs.contracts.activity.Statement as statement;
    ghost use Rattle.eds_types.specs.PlainCode.{plain_code};
    ghost use Rattle.eds_types.specs.contracts.value.Value as value;

    ghost Value = { HostNow };

    ghost coded = { Prim.hlevel (codes, plain_code, value.the_row.coded, guard.the_row.coded, statement.the_row.coded) };

    ghost view = { λ h. record { table = h.segments; plan = h.plan.now; wires = h.links; world = world h.time h.states h.queue; phase = h.phase } };

    ghost invariant = { λ h. Stands h.phase h.segments h.plan.now h.links h.time h.states h.queue h.dues };
}

// The end that a text names.
fn end_called(index: &EndIndex, plan: &Plan, text: &str) -> Option<End>
    requires { (q : List ℕ) → get_by_text index.now q ≡ end_named plan.now q }
    ensures { result ≡ end_named plan.now text.now }
{
    index.get(text).copied()
}

// The ends that the texts of wires name.
fn asked_ends(alloc: Global, plan: &Plan, wires: &Wires) -> Result<Items<Asked>, Memory>
    ensures { IfOk result (λ asked. asked ≡ map (asked_by plan.now) wires.now) }
{
    let index = index_ends(alloc, plan)?;
    let mut asked = Items::new(alloc);
    for wire in wires.as_slice() {
        asked.push(Asked {
            line: wire.line,
            lower: end_called(&index, plan, wire.lower.as_str()),
            upper: end_called(&index, plan, wire.upper.as_str()),
        })?;
    }
    Ok(asked)
}

// The wires' ends by the map of ends, or the first wire that ties nothing.
fn links_of(alloc: Global, plan: &Plan, wires: &Wires) -> Result<Links, Fail<HostFail>>
    ensures links { IfOk result (λ l. ties_of plan.now (map (asked_by plan.now) wires.now) ≡ Ok l) }
    ensures fail { IfErr result (λ f. Stops f (ties_of plan.now (map (asked_by plan.now) wires.now))) }
{
    let asked = asked_ends(alloc, plan, wires)?;
    tie_all(alloc, plan, asked.as_slice())
}

// The moments for which components in such states wait, over these wires.
fn dues_by(
    alloc: Global,
    segments: &Segments<'_>,
    plan: &Plan,
    links: &Links,
    states: &States,
    now: u64,
) -> Result<Dues, Memory>
    requires plan { PlanFits segments.now (Conforms segments.now) plan.now }
    requires wires { WiresFit plan.now (other_end links.now) }
    requires states { AreStates segments.now plan.now now states.now }
    ensures { IfOk result (λ d. d ≡ dues_of (system segments.now plan.now (other_end links.now)) 0 states.now) }
{
    let setting = Setting {
        table: segments.table(),
        segments,
        plan,
        links,
    };
    all_due(alloc, &setting, states, now)
}

impl<'a> Host<'a> {
    ghost use Rattle.std.specs.Prelude.{◌≡◌, ◌<◌, ◌∷◌, List, Ok, IfOk, IfErr, Some, length, map, slice_get};
    ghost use Rattle.eds_act.specs.Does.{Conforms};
    ghost use Rattle.eds_host.specs.Hosts.{ArgumentsAreClear, Handles, MayAllBeHandled, MayBeHandled, asked_by, components, standing_after};
    ghost use Rattle.eds_host.specs.Plans.{MayAllGoOut};
    ghost use Rattle.eds_host.specs.Machines.{IsStateOf};
    ghost use Rattle.eds_host.specs.Links.{Stops};
    ghost use Rattle.eds_host.specs.Resuming.{MayResume, resumed};
    ghost use Rattle.eds_host.specs.Runs.{time_after, unbegun};
    ghost use Rattle.eds_plan.specs.States.{state_now};
    ghost use Rattle.eds_host.specs.Wires.{ties_of};
    ghost use Rattle.eds_host.specs.declared.host.Phase.TheVariants.{Fresh, Rests, Spent, Storm};
    ghost use Rattle.eds_plan.specs.Fitting.{PlanFits};
    ghost use Rattle.eds_plan.specs.Lines.{Told, told};
    ghost use Rattle.eds_plan.specs.Outs.{report};

    /// A host of components with wires between their ends, before the start. The error is the first wire that ties nothing,
    /// with the first reason that holds: an end that isn't there or isn't of its kind, ends of differing interfaces or maps,
    /// or an end that an earlier wire ties.
    pub fn new(
        alloc: Global,
        table: &'a TypeTable,
        plan: &'a Plan,
        wires: &Wires,
    ) -> Result<Host<'a>, Fail<HostFail>>
        requires plan { PlanFits table.now (Conforms table.now) plan.now }
        requires clear { ArgumentsAreClear table.now plan.now }
        ensures table { IfOk result (λ h. h.table ≡ table.now) }
        ensures plan { IfOk result (λ h. h.plan ≡ plan.now) }
        ensures wires { IfOk result (λ h. ties_of plan.now (map (asked_by plan.now) wires.now) ≡ Ok h.wires) }
        ensures world { IfOk result (λ h. h.world ≡ unbegun (components h)) }
        ensures phase { IfOk result (λ h. h.phase ≡ Fresh) }
        ensures fail { IfErr result (λ f. Stops f (ties_of plan.now (map (asked_by plan.now) wires.now))) }
    {
        let segments = Segments::of(alloc, table)?;
        let links = links_of(alloc, plan, wires)?;
        let states = all_fresh(alloc, plan)?;
        Ok(Host {
            segments,
            plan,
            links,
            time: 0,
            states,
            queue: Queue::new(alloc),
            dues: Dues::new(alloc),
            phase: Phase::Fresh,
        })
    }

    /// A host that goes on from a time, in nanoseconds, and the states of all components at that time, with wires between their
    /// ends: it takes lines at once, with no start. The error is that of [`Host::new`].
    pub fn resume(
        alloc: Global,
        table: &'a TypeTable,
        plan: &'a Plan,
        wires: &Wires,
        states: States,
        now: u64,
    ) -> Result<Host<'a>, Fail<HostFail>>
        requires plan { PlanFits table.now (Conforms table.now) plan.now }
        requires clear { ArgumentsAreClear table.now plan.now }
        requires from { MayResume table.now plan.now now states }
        ensures table { IfOk result (λ h. h.table ≡ table.now) }
        ensures plan { IfOk result (λ h. h.plan ≡ plan.now) }
        ensures wires { IfOk result (λ h. ties_of plan.now (map (asked_by plan.now) wires.now) ≡ Ok h.wires) }
        ensures world { IfOk result (λ h. h.world ≡ resumed now states) }
        ensures phase { IfOk result (λ h. h.phase ≡ Rests) }
        ensures fail { IfErr result (λ f. Stops f (ties_of plan.now (map (asked_by plan.now) wires.now))) }
    {
        let segments = Segments::of(alloc, table)?;
        let links = links_of(alloc, plan, wires)?;
        let dues = dues_by(alloc, &segments, plan, &links, &states, now)?;
        Ok(Host {
            segments,
            plan,
            links,
            time: now,
            states,
            queue: Queue::new(alloc),
            dues,
            phase: Phase::Rests,
        })
    }

    /// The states of all components, in document order, with no copy.
    pub fn into_states(self) -> States
        ensures { result ≡ self.entry.world.states }
    {
        self.states
    }

    /// Has one line happen, and puts what leaves the run behind what `out` has. A line is a storm where more than 10,000
    /// deliveries and firings would follow from it, or where an earlier line was one; `out` then has what left before. Once
    /// memory ran out in a line the host is spent: each further line ends so.
    pub fn handle(&mut self, alloc: Global, line: &Line, out: &mut Outs) -> Result<Handled, Memory>
        requires { MayBeHandled self.old.phase self.old (told line.now) }
        ensures table { self.new.table ≡ self.old.table }
        ensures plan { self.new.plan ≡ self.old.plan }
        ensures wires { self.new.wires ≡ self.old.wires }
        ensures goes { IfOk result (λ h. Handles self.old.phase (told line.now) self.old self.new h (map report out.old) (map report out.new)) }
        ensures phase { IfOk result (λ h. self.new.phase ≡ standing_after h) }
        ensures time { self.new.phase ≡ Rests → self.new.world.now ≡ time_after (told line.now) self.old.world.now }
        ensures more { (ls : List Told) → MayAllBeHandled self.old.phase self.old (told line.now ∷ ls) → MayAllBeHandled self.new.phase self.new ls }
        ensures fits { IfOk result (λ h. MayAllGoOut self.old.table self.old.plan (map report out.old) → MayAllGoOut self.old.table self.old.plan (map report out.new)) }
        ensures storm { self.old.phase ≡ Storm → result ≡ Ok Handled.Storm }
        ensures spent { IfErr result (λ e. self.new.phase ≡ Spent) }
    {
        match self.phase {
            Phase::Spent => Err(Memory),
            Phase::Storm => Ok(Handled::Storm),
            Phase::Fresh | Phase::Rests => {
                let setting = Setting {
                    table: self.segments.table(),
                    segments: &self.segments,
                    plan: self.plan,
                    links: &self.links,
                };
                any_line(
                    alloc,
                    &setting,
                    line,
                    &mut self.phase,
                    &mut self.time,
                    &mut self.states,
                    &mut self.queue,
                    &mut self.dues,
                    out,
                )
            }
        }
    }

    /// The state of a component.
    #[tactic(auto, using(crate::proofs::Handling::calm_state))]
    pub fn state_of(&self, comp: CompId) -> &CompState
        requires { comp.0 < length self.now.plan }
        ensures state { slice_get self.now.world.states comp.0 ≡ Some (state_now result.now) }
        ensures fits { self.now.phase ≡ Rests → IsStateOf self.now.table self.now.plan comp.0 self.now.world.now (state_now result.now) }
    {
        self.states.at(comp)
    }

    /// The time of the run, in nanoseconds.
    pub fn now(&self) -> u64
        ensures { result ≡ self.now.world.now }
    {
        self.time
    }
}
