//! From the text of a session to the report on its replay.

ghost use Rattle.std.specs.Prelude.{◌≡◌, ◌∷◌, ℕ, List, Option, Ok, Some, IfErr, IfOk, map};
ghost use Rattle.eds_cmd.specs.Endings.{EndsAs, StopSays};
ghost use Rattle.eds_cmd.specs.Replay.{Compares, Replays, ReplaysOver};
ghost use Rattle.eds_cmd.specs.Replaying.{AreLater, EndsAt, Passes};
ghost use Rattle.eds_cmd.specs.Reports.{agrees_line as line_of_agreement};
ghost use Rattle.eds_cmd.specs.Run.{IsRunnable, Runs, wired};
ghost use Rattle.eds_cmd.specs.Running.{IsReady};
ghost use Rattle.eds_cmd.specs.declared.status.Status.TheVariants.{Done};
ghost use Rattle.eds_host.specs.Hosts.{MayAllBeHandled, MayBeHandled};
ghost use Rattle.eds_host.specs.Systems.{World};
ghost use Rattle.eds_host.specs.declared.host.Phase.TheVariants.{Rests};
ghost use Rattle.eds_plan.specs.Lines.{Told, told};
ghost use Rattle.eds_plan.specs.Outs.{Report};
ghost use Rattle.eds_replay.specs.Judges.{IsLater};
ghost use Rattle.eds_script.specs.Scripts.{script_of};
ghost use Rattle.eds_script.specs.Seen.{numbered_told, plot_seen};

use crate::law::{numbers_rise, outs_may_be_printed, plans_know_types, scripts_go};
use crate::report::{agrees_line, octets_of};
use crate::run::{Components, host_for, script_for};
use crate::stop::{Stop, differing, storm};
use eds_base::{Fail, Octets};
use eds_host::law::{first_may_be_handled, runs_join};
use eds_host::{Handled, Host};
use eds_plan::{Line, Outs};
use eds_replay::{Judge, Session, split_session};
use eds_script::Script;
use eds_unpack::Segments;
use std::alloc::Global;

// Has a line happen, by its number, and compares its recordings with what leaves the run in it. Those of a storm are not compared.
fn judge_line(
    alloc: Global,
    of: &Components<'_>,
    segments: &Segments<'_>,
    host: &mut Host<'_>,
    judge: &mut Judge,
    number: u32,
    line: &Line,
) -> Result<(), Fail<Stop>>
    requires runnable { IsRunnable of.now.table.now of.now.plan.now }
    requires segments { segments.now ≡ of.now.table.now }
    requires table { host.old.table ≡ of.now.table.now }
    requires plan { host.old.plan ≡ of.now.plan.now }
    requires line { MayBeHandled host.old.phase host.old (told line.now) }
    requires later { IsLater judge.old.last number }
    ensures table { host.new.table ≡ host.old.table }
    ensures plan { host.new.plan ≡ host.old.plan }
    ensures wires { host.new.wires ≡ host.old.wires }
    ensures phase { IfOk result (λ u. host.new.phase ≡ Rests) }
    ensures more { (ls : List Told) → MayAllBeHandled host.old.phase host.old (told line.now ∷ ls) → MayAllBeHandled host.new.phase host.new ls }
    ensures recorded { judge.new.recorded ≡ judge.old.recorded }
    ensures last { IfOk result (λ u. judge.new.last ≡ Some number) }
    ensures passes { IfOk result (λ u. Passes of.now.table.now of.now.plan.now (number, told line.now) host.old host.new judge.old judge.new) }
    ensures ends { IfErr result (StopSays (EndsAt of.now.table.now of.now.plan.now (number, told line.now) host.old host.new judge.old)) }
{
    plans_know_types();
    outs_may_be_printed();
    let mut outs = Outs::new(alloc);
    if host.handle(alloc, line, &mut outs)? == Handled::Storm {
        return Err(Fail::Named(storm(alloc, Vec::new(alloc), number)?));
    }
    match judge.line_by(alloc, of.table, segments, of.plan, number, &outs)? {
        None => Ok(()),
        Some(differs) => Err(Fail::Named(differing(alloc, differs)?)),
    }
}

// Handles the lines of a script one after another, and compares the recordings of each with what leaves the run in it.
fn judge_lines(
    alloc: Global,
    of: &Components<'_>,
    host: &mut Host<'_>,
    judge: &mut Judge,
    script: &Script,
) -> Result<(), Fail<Stop>>
    requires runnable { IsRunnable of.now.table.now of.now.plan.now }
    requires ready { IsReady of.now.table.now of.now.plan.now (map numbered_told script.now.lines) host.old }
    requires later { AreLater judge.old.last (map numbered_told script.now.lines) }
    requires agreed { judge.old.agreed ≡ 0 }
    requires otherwise { judge.old.otherwise ≡ 0 }
    ensures agree { IfOk result (λ u. (outs : List (List Report)) (end : Option World) → Runs of.now.table.now of.now.plan.now host.old.wires (map numbered_told script.now.lines) outs end
        → Compares of.now.table.now of.now.plan.now judge.old.recorded (map numbered_told script.now.lines) outs end Done (line_of_agreement judge.new.agreed judge.new.otherwise)) }
    ensures ends { IfErr result (StopSays (λ status report. (outs : List (List Report)) (end : Option World) → Runs of.now.table.now of.now.plan.now host.old.wires (map numbered_told script.now.lines) outs end
        → Compares of.now.table.now of.now.plan.now judge.old.recorded (map numbered_told script.now.lines) outs end status report)) }
{
    of.table.keeps_rules();
    first_may_be_handled();
    runs_join();
    let segments = Segments::of(alloc, of.table)?;
    let mut rest = script.lines.as_slice();
    while let [(number, line), after @ ..] = rest {
        judge_line(alloc, of, &segments, host, judge, *number, line)?;
        rest = after;
    }
    Ok(())
}

// Runs a script over components, beside the recordings of its session.
fn replay_over(
    alloc: Global,
    of: &Components<'_>,
    script: &Script,
    session: Session,
) -> Result<Octets, Fail<Stop>>
    requires runnable { IsRunnable of.now.table.now of.now.plan.now }
    requires script { (text : List ℕ) × (script_of of.now.table.now of.now.plan.now text ≡ Ok (plot_seen script.now)) }
    ensures { EndsAs (λ o. o) (ReplaysOver of.now.table.now of.now.plan.now (wired of.now.plan.now (plot_seen script.now)) (map numbered_told script.now.lines) session.recorded) result }
{
    of.table.keeps_rules();
    numbers_rise();
    scripts_go();
    let mut judge = Judge::new(session);
    let mut host = host_for(alloc, of, script)?;
    judge_lines(alloc, of, &mut host, &mut judge, script)?;
    let (agreed, otherwise) = judge.counts();
    Ok(octets_of(agrees_line(alloc, agreed, otherwise)?))
}

/// The report on a session beside a run of its script over the components of a sheet: how many recordings agree with what leaves
/// the run, and how many of these are spelled otherwise. The script is read, its wires are made and it is run as `run_script` does.
/// Its lines are judged one after another: the first whose recordings and events don't agree ends the replay, with the first
/// difference, or the first that more deliveries and firings would follow than may, whichever stands first.
pub fn replay_session(
    alloc: Global,
    of: &Components<'_>,
    octets: &[u8],
) -> Result<Octets, Fail<Stop>>
    requires { IsRunnable of.now.table.now of.now.plan.now }
    ensures { EndsAs (λ o. o) (Replays of.now.table.now of.now.plan.now octets.now) result }
{
    let session = split_session(alloc, octets)?;
    let script = script_for(alloc, of, session.script.as_slice())?;
    replay_over(alloc, of, &script, session)
}
