//! From the text of a script to the report on its run.

ghost use Rattle.std.specs.Prelude.{◌≡◌, ◌≤◌, ◌<◌, ◌∷◌, ◌++◌, ℕ, List, Ok, IfErr, IfOk, OnOk, length, map};
ghost use Rattle.std.specs.List.{AllByRecursion};
ghost use Rattle.eds_cmd.specs.Endings.{EndsAs, StopSays};
ghost use Rattle.eds_cmd.specs.Run.{AreEventLines, IsBadScript, IsBadlyWired, IsRunnable, IsStormy, RunsOver, RunsScript, end_text as text_of_end, states_text, wired};
ghost use Rattle.eds_cmd.specs.Running.{HasRun, IsReady, Tells};
ghost use Rattle.eds_cmd.specs.Demonstrated.{RunsTo};
ghost use Rattle.eds_cmd.specs.Tally.{CountsMore};
ghost use Rattle.eds_host.specs.Hosts.{MayAllBeHandled, MayBeHandled, standing_after};
ghost use Rattle.eds_host.specs.declared.host.Phase.TheVariants.{Rests};
ghost use Rattle.eds_plan.specs.Lines.{Told, told};
ghost use Rattle.eds_plan.specs.Outs.{report as told_report};
ghost use Rattle.eds_script.specs.Fitting.{FitsPlan};
ghost use Rattle.eds_script.specs.Scripts.{script_of};
ghost use Rattle.eds_script.specs.Seen.{numbered_told, plot_seen};

use crate::law::{
    outs_may_be_printed, plans_know_types, scripts_may_be_handled, states_may_be_printed,
};
use crate::report::end_line;
use crate::stop::{Stop, bad_line, bad_wire, storm};
use crate::tally::Tally;
use eds_base::{CompId, Fail, Memory, Octets};
use eds_host::law::first_may_be_handled;
use eds_host::{Handled, Host};
use eds_plan::{Line, Outs, Plan};
use eds_script::law::scripts_may_run;
use eds_script::{Script, parse_script, print_event, print_state};
use eds_types::TypeTable;
use std::alloc::Global;

/// The types and the components of a sheet.
#[derive(Clone, Copy)]
pub struct Components<'a> {
    pub table: &'a TypeTable,
    pub plan: &'a Plan,
}

/// What is told of a run: a line for each event, and how many of them are counted.
#[derive(Drop)]
pub struct Telling {
    report: Vec<u8>,
    tally: Tally,
}

/// How much is counted in a run, and when it ends.
#[derive(Clone, Copy)]
pub struct Counted {
    pub tally: Tally,
    pub end: u64,
}

// Puts the line of each event last.
fn add_events(
    alloc: Global,
    of: &Components<'_>,
    outs: &Outs,
    report: &mut Vec<u8>,
) -> Result<(), Memory>
    requires { AllByRecursion (FitsPlan of.now.table.now of.now.plan.now) (map told_report outs.now) }
    ensures { OnOk result ((events : List ℕ) × AreEventLines of.now.table.now of.now.plan.now (map told_report outs.now) events × (report.new.items ≡ report.old.items ++ events)) }
{
    for event in outs.as_slice() {
        let line = print_event(alloc, of.table, of.plan, event)?;
        report.extend_from_slice(line.as_slice())?;
    }
    Ok(())
}

// Counts each event.
fn count_events(outs: &Outs, tally: &mut Tally) -> Result<(), Memory>
    ensures { OnOk result (CountsMore (map told_report outs.now) tally.old tally.new) }
{
    for event in outs.as_slice() {
        *tally = tally.with(event)?;
    }
    Ok(())
}

// Has a line happen, puts the line of each event that leaves the run in it last, and counts these events.
fn tell_line(
    alloc: Global,
    of: &Components<'_>,
    host: &mut Host<'_>,
    line: &Line,
    report: &mut Vec<u8>,
    tally: &mut Tally,
) -> Result<Handled, Memory>
    requires table { host.old.table ≡ of.now.table.now }
    requires plan { host.old.plan ≡ of.now.plan.now }
    requires line { MayBeHandled host.old.phase host.old (told line.now) }
    ensures table { host.new.table ≡ host.old.table }
    ensures plan { host.new.plan ≡ host.old.plan }
    ensures wires { host.new.wires ≡ host.old.wires }
    ensures phase { IfOk result (λ h. host.new.phase ≡ standing_after h) }
    ensures more { (ls : List Told) → MayAllBeHandled host.old.phase host.old (told line.now ∷ ls) → MayAllBeHandled host.new.phase host.new ls }
    ensures tells { IfOk result (λ h. Tells of.now.table.now of.now.plan.now (told line.now) host.old host.new h report.old.items report.new.items tally.old tally.new) }
{
    outs_may_be_printed();
    let mut outs = Outs::new(alloc);
    let handled = host.handle(alloc, line, &mut outs)?;
    add_events(alloc, of, &outs, report)?;
    count_events(&outs, tally)?;
    Ok(handled)
}

// Handles the lines of a script one after another, and tells and counts what leaves the run in them.
fn run_lines(
    alloc: Global,
    of: &Components<'_>,
    host: &mut Host<'_>,
    script: &Script,
) -> Result<Telling, Fail<Stop>>
    requires { IsReady of.now.table.now of.now.plan.now (map numbered_told script.now.lines) host.old }
    ensures table { OnOk result (host.new.table ≡ of.now.table.now) }
    ensures plan { OnOk result (host.new.plan ≡ of.now.plan.now) }
    ensures phase { OnOk result (host.new.phase ≡ Rests) }
    ensures run { IfOk result (λ v. HasRun of.now.table.now of.now.plan.now host.old.wires (map numbered_told script.now.lines) host.new.world v.report.items v.tally) }
    ensures storm { IfErr result (StopSays (IsStormy of.now.table.now of.now.plan.now host.old.wires (map numbered_told script.now.lines))) }
{
    first_may_be_handled();
    let mut report = Vec::new(alloc);
    let mut tally = Tally::new();
    let mut rest = script.lines.as_slice();
    while let [(number, line), after @ ..] = rest {
        let handled = tell_line(alloc, of, host, line, &mut report, &mut tally)?;
        if handled == Handled::Storm {
            return Err(Fail::Named(storm(alloc, report, *number)?));
        }
        rest = after;
    }
    Ok(Telling { report, tally })
}

// Puts the lines that tell where components stand last, in document order.
fn add_states(
    alloc: Global,
    of: &Components<'_>,
    host: &Host<'_>,
    report: &mut Vec<u8>,
) -> Result<(), Memory>
    requires table { host.now.table ≡ of.now.table.now }
    requires plan { host.now.plan ≡ of.now.plan.now }
    requires few { length of.now.plan.now ≤ 64 }
    requires rests { host.now.phase ≡ Rests }
    ensures { OnOk result (report.new.items ≡ report.old.items ++ states_text of.now.table.now of.now.plan.now host.now.world.states) }
{
    states_may_be_printed();
    for i in 0..of.plan.len() {
        let comp = CompId(i as u32);
        let lines = print_state(alloc, of.table, of.plan, comp, host.state_of(comp))?;
        report.extend_from_slice(lines.as_slice())?;
    }
    Ok(())
}

// Puts the end last: its time, and where components stand.
fn add_end(
    alloc: Global,
    of: &Components<'_>,
    host: &Host<'_>,
    report: &mut Vec<u8>,
) -> Result<(), Memory>
    requires table { host.now.table ≡ of.now.table.now }
    requires plan { host.now.plan ≡ of.now.plan.now }
    requires few { length of.now.plan.now ≤ 64 }
    requires rests { host.now.phase ≡ Rests }
    ensures { OnOk result (report.new.items ≡ report.old.items ++ text_of_end of.now.table.now of.now.plan.now host.now.world) }
{
    let line = end_line(alloc, host.now())?;
    report.extend_from_slice(line.as_bytes())?;
    add_states(alloc, of, host, report)
}

/// The script of a text.
pub fn script_for(alloc: Global, of: &Components<'_>, text: &[u8]) -> Result<Script, Fail<Stop>>
    requires { IsRunnable of.now.table.now of.now.plan.now }
    ensures script { IfOk result (λ s. script_of of.now.table.now of.now.plan.now text.now ≡ Ok (plot_seen s)) }
    ensures bad { IfErr result (StopSays (IsBadScript of.now.table.now of.now.plan.now text.now)) }
{
    plans_know_types();
    match parse_script(alloc, of.table, of.plan, text) {
        Ok(script) => Ok(script),
        Err(Fail::Named(bad)) => Err(Fail::Named(bad_line(alloc, bad)?)),
        Err(Fail::Memory) => Err(Fail::Memory),
    }
}

/// A host of components over the wires of a script, before the start.
pub fn host_for<'a>(
    alloc: Global,
    of: &Components<'a>,
    script: &Script,
) -> Result<Host<'a>, Fail<Stop>>
    requires runnable { IsRunnable of.now.table.now of.now.plan.now }
    requires script { (text : List ℕ) × (script_of of.now.table.now of.now.plan.now text ≡ Ok (plot_seen script.now)) }
    ensures ready { IfOk result (λ h. IsReady of.now.table.now of.now.plan.now (map numbered_told script.now.lines) h) }
    ensures wires { IfOk result (λ h. wired of.now.plan.now (plot_seen script.now) ≡ Ok h.wires) }
    ensures bad { IfErr result (StopSays (IsBadlyWired of.now.plan.now (plot_seen script.now))) }
{
    of.table.keeps_rules();
    scripts_may_run();
    scripts_may_be_handled();
    match Host::new(alloc, of.table, of.plan, &script.wires) {
        Ok(host) => Ok(host),
        Err(Fail::Named(fail)) => Err(Fail::Named(bad_wire(alloc, fail)?)),
        Err(Fail::Memory) => Err(Fail::Memory),
    }
}

// Runs a script over components.
fn run_over(alloc: Global, of: &Components<'_>, script: &Script) -> Result<Octets, Fail<Stop>>
    requires runnable { IsRunnable of.now.table.now of.now.plan.now }
    requires script { (text : List ℕ) × (script_of of.now.table.now of.now.plan.now text ≡ Ok (plot_seen script.now)) }
    ensures { EndsAs (λ o. o) (RunsOver of.now.table.now of.now.plan.now (wired of.now.plan.now (plot_seen script.now)) (map numbered_told script.now.lines)) result }
{
    let mut host = host_for(alloc, of, script)?;
    let Telling { mut report, .. } = run_lines(alloc, of, &mut host, script)?;
    add_end(alloc, of, &host, &mut report)?;
    Ok(Octets::from_vec(report))
}

/// The report on a run of a script over the components of a sheet: a line for each event that leaves the run, in order, and
/// then the time in nanoseconds at which it ends and where each component stands. The lines of the script are all read first,
/// then the wires are made, then the run starts. The first line that means nothing is told, or the first wire that ties
/// nothing; or the first line that more deliveries and firings would follow than may, behind what left the run until then.
pub fn run_script(alloc: Global, of: &Components<'_>, text: &[u8]) -> Result<Octets, Fail<Stop>>
    requires { IsRunnable of.now.table.now of.now.plan.now }
    ensures { EndsAs (λ o. o) (RunsScript of.now.table.now of.now.plan.now text.now) result }
{
    let script = script_for(alloc, of, text)?;
    run_over(alloc, of, &script)
}

// Runs a script over components to its end, and counts.
fn count_over(alloc: Global, of: &Components<'_>, script: &Script) -> Result<Counted, Fail<Stop>>
    requires runnable { IsRunnable of.now.table.now of.now.plan.now }
    requires script { (text : List ℕ) × (script_of of.now.table.now of.now.plan.now text ≡ Ok (plot_seen script.now)) }
    ensures { (text : List ℕ) → script_of of.now.table.now of.now.plan.now text ≡ Ok (plot_seen script.now)
        → IfOk result (λ c. RunsTo of.now.table.now of.now.plan.now text c.tally c.end) }
{
    let mut host = host_for(alloc, of, script)?;
    let Telling { tally, .. } = run_lines(alloc, of, &mut host, script)?;
    Ok(Counted {
        tally,
        end: host.now(),
    })
}

/// How much is counted in a run of a script over the components of a sheet, and when it ends. Where the script can't be run to its
/// end, no more is told than that there is no such run.
pub fn count_script(alloc: Global, of: &Components<'_>, text: &[u8]) -> Result<Counted, Memory>
    requires { IsRunnable of.now.table.now of.now.plan.now }
    ensures { IfOk result (λ c. RunsTo of.now.table.now of.now.plan.now text.now c.tally c.end) }
{
    let Ok(script) = script_for(alloc, of, text) else {
        return Err(Memory);
    };
    count_over(alloc, of, &script).map_err(|_| Memory)
}
