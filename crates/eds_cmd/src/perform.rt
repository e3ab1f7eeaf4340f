//! A command over a shelf.

ghost use Rattle.std.specs.Prelude.{◌≡◌, ◌≤◌, ◌<◌, ◌+◌, ◌^◌, ℕ, All, List, Some, IfErr, IfOk, IfSome, IsSomeAnd, is_some, length, option_map, string_bytes, true};
ghost use Rattle.std.specs.List.{Contains};
ghost use Rattle.eds_base.specs.Answering.{Answers};
ghost use Rattle.eds_io.specs.Counts.{HasRisen};
ghost use Rattle.eds_io.specs.Files.{Files};
ghost use Rattle.eds_sheet.specs.Compiled.{compiled, seen_sheet};
ghost use Rattle.eds_sheet.specs.Firsts.{WhereFirstsAreTold};
ghost use Rattle.eds_cmd.specs.Answer.{AnswersFew, Does, DoesBy, IsReached, IsReachedSheet, Works, accepted, input_for as input_of, or_refused, sheet_file as sheet_of_name, sheet_files as sheets_of_names, whole_file as whole, within_report as within_limit};
ghost use Rattle.eds_cmd.specs.Command.{ReadsFile, ReadsInput, job_words, on_input, task_type, task_words, type_name_of, words_of, work_type, work_words};
ghost use Rattle.eds_cmd.specs.Endings.{Comes, CommandEndsAs, EndsAs, OnUnread, UpToLimit};
ghost use Rattle.eds_cmd.specs.Layout.{LaysOut};
ghost use Rattle.eds_cmd.specs.Replay.{ReplaysSheet};
ghost use Rattle.eds_cmd.specs.Run.{IsRunnable, RunsSheet};
ghost use Rattle.eds_cmd.specs.Target.{IsKnown, IsUsable, MayBeRead, type_in, type_of};

use crate::command::{Command, Job, Task, Verb, Work, input_most};
use crate::ended::Ended;
use crate::layout::laid_out;
use crate::limits::{PACKETS_OCTETS, REPORT_OCTETS, SHEET_OCTETS, SHEETS, SHEETS_OCTETS};
use crate::pack::packed;
use crate::replay::replay_session;
use crate::report::{counts_line, octets_of};
use crate::run::{Components, run_script};
use crate::split::split;
use crate::status::{Status, What};
use crate::stop::{Stop, limited, missing, refused};
use crate::target::{Target, target_of};
use crate::unpack::unpacked;
use eds_base::{Fail, Items, Memory, Octets, Text};
use eds_io::{ReadEnd, Shelf, read_whole};
use eds_sheet::{Sheet, compile};
use std::alloc::Global;

// The octets of a file, which are at most so many.
fn whole_file<S: Shelf>(
    alloc: Global,
    shelf: &mut S,
    name: &str,
    what: What,
    most: u64,
) -> Result<Octets, Ended>
    ensures told { (files : Files) → S.files shelf.old ≡ Some files
        → Comes (λ o. o) result (whole files name.now what most) }
    ensures bound { IfOk result (λ o. length o ≤ most) }
    ensures files { S.files shelf.new ≡ S.files shelf.old }
    ensures calm { (other : List ℕ) → S.faults shelf.old other ≤ S.faults shelf.new other }
    ensures unread { IfErr result (λ ended. OnUnread ended
        (λ n. (n ≡ name.now) × HasRisen (S.faults shelf.old n) (S.faults shelf.new n))) }
{
    match read_whole(alloc, shelf, name, most) {
        Ok(octets) => Ok(octets),
        Err(Fail::Memory) => Err(Ended::Memory),
        Err(Fail::Named(ReadEnd::NoFile)) => Err(Ended::Stopped(missing(alloc, name)?)),
        Err(Fail::Named(ReadEnd::ReadFault)) => Err(Ended::Unread(Text::of(alloc, name)?)),
        Err(Fail::Named(ReadEnd::TooBig)) => Err(Ended::Stopped(limited(alloc, what, most)?)),
    }
}

// A sheet file behind files of so many octets.
fn sheet_file<S: Shelf>(
    alloc: Global,
    shelf: &mut S,
    name: &str,
    before: u64,
) -> Result<Octets, Ended>
    requires { before ≤ SHEETS_OCTETS }
    ensures told { (files : Files) → S.files shelf.old ≡ Some files
        → Comes (λ o. o) result (sheet_of_name files before name.now) }
    ensures bound { IfOk result (λ o. length o < 2 ^ 32) }
    ensures all { IfOk result (λ o. before + length o ≤ SHEETS_OCTETS) }
    ensures files { S.files shelf.new ≡ S.files shelf.old }
    ensures calm { (other : List ℕ) → S.faults shelf.old other ≤ S.faults shelf.new other }
    ensures unread { IfErr result (λ ended. OnUnread ended
        (λ n. (n ≡ name.now) × HasRisen (S.faults shelf.old n) (S.faults shelf.new n))) }
{
    let octets = whole_file(alloc, shelf, name, What::File, SHEET_OCTETS)?;
    if before + octets.len() as u64 <= SHEETS_OCTETS {
        Ok(octets)
    } else {
        let stop = limited(alloc, What::Sheets, SHEETS_OCTETS)?;
        Err(Ended::Stopped(stop))
    }
}

// The sheet files of a command.
fn sheet_files<S: Shelf>(
    alloc: Global,
    shelf: &mut S,
    names: &[Text],
) -> Result<Items<Octets>, Ended>
    ensures told { (files : Files) → S.files shelf.old ≡ Some files
        → Comes (λ sheets. sheets) result (sheets_of_names files 0 names.now) }
    ensures short { IfOk result (λ sheets. All (λ sheet. length sheet < 2 ^ 32) sheets) }
    ensures each { IfOk result (λ sheets. length sheets ≡ length names.now) }
    ensures files { S.files shelf.new ≡ S.files shelf.old }
    ensures calm { (other : List ℕ) → S.faults shelf.old other ≤ S.faults shelf.new other }
    ensures cause { IfErr result (λ ended. OnUnread ended
        (λ n. HasRisen (S.faults shelf.old n) (S.faults shelf.new n))) }
    ensures file { IfErr result (λ ended. OnUnread ended (Contains names.now)) }
    ensures reached { (files : Files) → S.files shelf.old ≡ Some files
        → IfErr result (λ ended. OnUnread ended (IsReachedSheet files names.now)) }
{
    let mut sheets = Items::new(alloc);
    let mut before = 0u64;
    for name in names {
        let octets = sheet_file(alloc, shelf, name.as_str(), before)?;
        before += octets.len() as u64;
        sheets.push(octets)?;
    }
    Ok(sheets)
}

/// The sheet of files, with the type that a command names.
pub fn sheet_by(
    alloc: Global,
    files: &Items<Octets>,
    type_name: Option<&str>,
) -> Result<Sheet, Fail<Stop>>
    requires few { length files.now ≤ SHEETS }
    requires short { All (λ file. length file < 2 ^ 32) files.now }
    ensures answer { WhereFirstsAreTold (λ firsts. Answers seen_sheet result (or_refused (compiled firsts files.now (option_map (λ w. w.now) type_name.entry)))) }
    ensures usable { IfOk result IsUsable }
    ensures given { IfOk result (λ s. is_some s.asked_type ≡ is_some type_name.entry) }
{
    match compile(alloc, files, type_name) {
        Ok(sheet) => Ok(sheet),
        Err(Fail::Memory) => Err(Fail::Memory),
        Err(Fail::Named(refusal)) => Err(Fail::Named(refused(alloc, refusal)?)),
    }
}

// The sheet of a command, with the type that it names.
fn sheet_for<S: Shelf>(alloc: Global, command: &Command<'_>, shelf: &mut S) -> Result<Sheet, Ended>
    requires { length command.now.sheets.now ≤ SHEETS }
    ensures told { WhereFirstsAreTold (λ firsts. (files : Files) → S.files shelf.old ≡ Some files
        → Comes seen_sheet result (accepted firsts files (words_of command.now))) }
    ensures usable { IfOk result IsUsable }
    ensures given { IfOk result (λ s. is_some s.asked_type ≡ is_some (type_name_of (words_of command.now))) }
    ensures files { S.files shelf.new ≡ S.files shelf.old }
    ensures calm { (other : List ℕ) → S.faults shelf.old other ≤ S.faults shelf.new other }
    ensures cause { IfErr result (λ ended. OnUnread ended
        (λ n. HasRisen (S.faults shelf.old n) (S.faults shelf.new n))) }
    ensures file { IfErr result (λ ended. OnUnread ended (Contains command.now.sheets.now)) }
    ensures reached { (files : Files) → S.files shelf.old ≡ Some files
        → IfErr result (λ ended. OnUnread ended (IsReachedSheet files command.now.sheets.now)) }
{
    let files = sheet_files(alloc, shelf, command.sheets)?;
    Ok(sheet_by(alloc, &files, command.type_name())?)
}

// What is done with the octets of an input file by a type.
fn run_verb(
    alloc: Global,
    verb: Verb,
    target: &Target<'_>,
    input: &[u8],
) -> Result<String, Fail<Stop>>
    requires known { IsKnown (type_in target.now) }
    requires few { length input.now ≤ PACKETS_OCTETS }
    ensures { EndsAs string_bytes (UpToLimit (Works verb (type_in target.now) input.now)) result }
{
    match verb {
        Verb::Unpack => unpacked(alloc, target, input),
        Verb::Pack => packed(alloc, target, input),
        Verb::Split => split(alloc, target, input),
    }
}

// What is done with the octets of an input file by the type that a command names.
fn do_by_type(alloc: Global, verb: Verb, sheet: &Sheet, input: &[u8]) -> Result<Octets, Fail<Stop>>
    requires word { IsSomeAnd sheet.now.asked_type (λ id. id.0 < length sheet.now.table) }
    requires readable { MayBeRead (seen_sheet sheet.now) }
    requires few { length input.now ≤ PACKETS_OCTETS }
    ensures { EndsAs (λ o. o) (UpToLimit (Works verb (type_of (seen_sheet sheet.now)) input.now)) result }
{
    let target = target_of(sheet);
    let report = run_verb(alloc, verb, &target, input)?;
    Ok(octets_of(report))
}

/// The types and the components of a sheet, which may be run.
pub fn components_of(sheet: &Sheet) -> Components<'_>
    requires { IsUsable sheet.now }
    ensures table { result.table.now ≡ sheet.now.table }
    ensures plan { result.plan.now ≡ sheet.now.plan }
    ensures runnable { IsRunnable result.table.now result.plan.now }
{
    Components {
        table: &sheet.table,
        plan: &sheet.plan,
    }
}

// Runs a script over the components of a sheet.
fn run_sheet(alloc: Global, sheet: &Sheet, script: &[u8]) -> Result<Octets, Fail<Stop>>
    requires { IsUsable sheet.now }
    ensures { EndsAs (λ o. o) (RunsSheet (seen_sheet sheet.now) script.now) result }
{
    let components = components_of(sheet);
    run_script(alloc, &components, script)
}

// Compares a session with the run of its script over the components of a sheet.
fn replay_sheet(alloc: Global, sheet: &Sheet, session: &[u8]) -> Result<Octets, Fail<Stop>>
    requires { IsUsable sheet.now }
    ensures { EndsAs (λ o. o) (ReplaysSheet (seen_sheet sheet.now) session.now) result }
{
    let components = components_of(sheet);
    replay_session(alloc, &components, session)
}

// What is done with the octets of an input file by a sheet.
fn do_task(
    alloc: Global,
    task: &Task<'_>,
    sheet: &Sheet,
    input: &[u8],
) -> Result<Octets, Fail<Stop>>
    requires usable { IsUsable sheet.now }
    requires given { is_some sheet.now.asked_type ≡ is_some (task_type (task_words task.now)) }
    requires few { length input.now ≤ PACKETS_OCTETS }
    ensures { EndsAs (λ o. o) (UpToLimit (Does (task_words task.now) (seen_sheet sheet.now) input.now)) result }
{
    match task {
        Task::ByType(verb, _) => do_by_type(alloc, *verb, sheet, input),
        Task::Run => run_sheet(alloc, sheet, input),
        Task::Replay => replay_sheet(alloc, sheet, input),
    }
}

// The octets of the input file.
fn input_for<S: Shelf>(alloc: Global, job: &Job<'_>, shelf: &mut S) -> Result<Octets, Ended>
    ensures told { (files : Files) → S.files shelf.old ≡ Some files
        → Comes (λ o. o) result (input_of files (job_words job.now)) }
    ensures few { IfOk result (λ o. length o ≤ PACKETS_OCTETS) }
    ensures calm { (other : List ℕ) → S.faults shelf.old other ≤ S.faults shelf.new other }
    ensures unread { IfErr result (λ ended. OnUnread ended
        (λ n. (n ≡ job.now.input.now) × HasRisen (S.faults shelf.old n) (S.faults shelf.new n))) }
{
    whole_file(alloc, shelf, job.input, What::Input, input_most(&job.task))
}

// What is done with an input file by a sheet.
fn run_job<S: Shelf>(
    alloc: Global,
    job: &Job<'_>,
    sheet: &Sheet,
    shelf: &mut S,
) -> Result<Octets, Ended>
    requires usable { IsUsable sheet.now }
    requires given { is_some sheet.now.asked_type ≡ is_some (task_type (job_words job.now).task) }
    ensures told { (files : Files) → S.files shelf.old ≡ Some files
        → CommandEndsAs (λ o. o) (UpToLimit (DoesBy (on_input (job_words job.now)) files (seen_sheet sheet.now))) result }
    ensures calm { (other : List ℕ) → S.faults shelf.old other ≤ S.faults shelf.new other }
    ensures unread { IfErr result (λ ended. OnUnread ended
        (λ n. (n ≡ job.now.input.now) × HasRisen (S.faults shelf.old n) (S.faults shelf.new n))) }
{
    let input = input_for(alloc, job, shelf)?;
    Ok(do_task(alloc, &job.task, sheet, input.as_slice())?)
}

// Where each part of the type that a command names stands.
fn lay_out(alloc: Global, sheet: &Sheet) -> Result<Octets, Memory>
    requires { IsSomeAnd sheet.now.asked_type (λ id. id.0 < length sheet.now.table) }
    ensures { IfOk result (λ report. UpToLimit (LaysOut (type_of (seen_sheet sheet.now))) Status.Done report) }
{
    let target = target_of(sheet);
    laid_out(alloc, &target)
}

// What is done by an accepted sheet.
fn report_for<S: Shelf>(
    alloc: Global,
    work: Work<'_>,
    sheet: &Sheet,
    shelf: &mut S,
) -> Result<Octets, Ended>
    requires usable { IsUsable sheet.now }
    requires given { is_some sheet.now.asked_type ≡ is_some (work_type (work_words work)) }
    ensures told { (files : Files) → S.files shelf.old ≡ Some files
        → CommandEndsAs (λ o. o) (UpToLimit (DoesBy (work_words work.entry) files (seen_sheet sheet.now))) result }
    ensures calm { (other : List ℕ) → S.faults shelf.old other ≤ S.faults shelf.new other }
    ensures cause { IfErr result (λ ended. OnUnread ended
        (λ n. HasRisen (S.faults shelf.old n) (S.faults shelf.new n))) }
    ensures file { IfErr result (λ ended. OnUnread ended (ReadsInput (work_words work.entry))) }
{
    match work {
        Work::Check => Ok(octets_of(counts_line(alloc, sheet.counts)?)),
        Work::Layout(_) => Ok(lay_out(alloc, sheet)?),
        Work::OnInput(job) => run_job(alloc, &job, sheet, shelf),
    }
}

// A report that is no longer than a report may be.
fn within_report(alloc: Global, report: Octets) -> Result<Octets, Fail<Stop>>
    ensures { Answers (λ o. o) result (within_limit report) }
{
    if report.len() as u64 <= REPORT_OCTETS {
        Ok(report)
    } else {
        Err(Fail::Named(limited(alloc, What::Report, REPORT_OCTETS)?))
    }
}

/// Does what a command says, and gives its report.
pub fn perform<S: Shelf>(
    alloc: Global,
    command: &Command<'_>,
    shelf: &mut S,
) -> Result<Octets, Ended>
    requires { length command.now.sheets.now ≤ SHEETS }
    ensures told { WhereFirstsAreTold (λ firsts. (files : Files) → S.files shelf.old ≡ Some files
        → CommandEndsAs (λ o. o) (AnswersFew firsts true (words_of command.now) files) result) }
    ensures calm { (other : List ℕ) → S.faults shelf.old other ≤ S.faults shelf.new other }
    ensures cause { IfErr result (λ ended. OnUnread ended
        (λ n. HasRisen (S.faults shelf.old n) (S.faults shelf.new n))) }
    ensures file { IfErr result (λ ended. OnUnread ended (ReadsFile (words_of command.now))) }
    ensures reached { WhereFirstsAreTold (λ firsts. (files : Files) → S.files shelf.old ≡ Some files
        → IfErr result (λ ended. OnUnread ended (IsReached firsts files (words_of command.now)))) }
{
    let sheet = sheet_for(alloc, command, shelf)?;
    let report = report_for(alloc, command.work, &sheet, shelf)?;
    Ok(within_report(alloc, report)?)
}
