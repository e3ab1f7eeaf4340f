//! Laws of the answer.

ghost use Rattle.eds_sheet.specs.Laws.{FirstsAreTold};
ghost use Rattle.eds_cmd.specs.Laws.{OneAnswer, SomeAnswer, ValidIsDone};
ghost use Rattle.eds_cmd.specs.ReplayLaws.{NumbersRise, OneReplay, OnlyValidSessionsReplay, ScriptsGo, SomeReplay, ValidSessionsReplay};
ghost use Rattle.eds_cmd.specs.RunLaws.{OneRun, OutsMayBePrinted, PlansKnowTypes, ScriptsMayBeHandled, SomeRun, StatesMayBePrinted, ValidScriptsRun};

use eds_host::law::{
    alike_plans_run_alike, lines_keep_sound, lines_take_their_time, runs_join,
    unnamed_ends_are_outside,
};
use eds_layout::law::{layouts_are_there, layouts_tell, one_text};
use eds_overlap::law::{canonical_spelling, empty_types, one_outcome, packing_is_decided};
use eds_read_comp::law::seen_plans_are_alike;
use eds_replay::law::{
    agree_or_differ, alike_plans_agree_alike, one_outcome as sessions_have_one_outcome,
    some_outcome,
};
use eds_script::law::{alike_plans_are_told_alike, one_line, scripts_may_run};
use eds_sheet::law::{firsts_are_told, sheets_are_sound};
use eds_unpack::law::one_cut;

/// Words have exactly one answer over files, a status and a report, whatever function tells what the variables of sheets start
/// with; and there is a function that tells it. Where the words run a script, there is one if there is a plan to be run: to
/// compile an accepted sheet gives one, or memory runs out. Where they ask for a demonstration, there is one if its sheet may be
/// compiled and its script be run: the demonstration is this, or memory runs out. A valid command is done.
pub fn answer_is_one()
    ensures one { OneAnswer }
    ensures some { SomeAnswer }
    ensures told { FirstsAreTold }
    ensures valid { ValidIsDone }
{
    one_outcome();
    canonical_spelling();
    packing_is_decided();
    empty_types();
    one_cut();
    layouts_are_there();
    layouts_tell();
    one_text();
    sheets_are_sound();
    firsts_are_told();
    seen_plans_are_alike();
    alike_plans_run_alike();
    alike_plans_are_told_alike();
    runs_join();
    run_is_one();
    alike_plans_agree_alike();
    replay_is_one();
}

/// A plan that fits its table has members of types of that table, as reading a script asks.
pub fn plans_know_types()
    ensures { PlansKnowTypes }
{}

/// The lines that a text stands for may be handed, one after another, to a new host over the wires that the text asks for.
pub fn scripts_may_be_handled()
    ensures { ScriptsMayBeHandled }
{
    scripts_may_run();
    unnamed_ends_are_outside();
}

/// What leaves a run of a host has a line.
pub fn outs_may_be_printed()
    ensures { OutsMayBePrinted }
{}

/// The state of a component of a host at rest has its lines.
pub fn states_may_be_printed()
    ensures { StatesMayBePrinted }
{}

/// Running a script over components whose plan fits comes to exactly one thing, a status and a report; and a valid script is run
/// to its end.
pub fn run_is_one()
    ensures one { OneRun }
    ensures some { SomeRun }
    ensures valid { ValidScriptsRun }
{
    runs_join();
    lines_take_their_time();
    lines_keep_sound();
    one_line();
    scripts_may_be_handled();
}

/// The lines that a text stands for come in the order of their numbers.
pub fn numbers_rise()
    ensures { NumbersRise }
{}

/// The lines that a text stands for make something of components that haven't started, over the wires that the text asks for.
pub fn scripts_go()
    ensures { ScriptsGo }
{
    runs_join();
    lines_take_their_time();
    lines_keep_sound();
    scripts_may_be_handled();
}

/// Replaying a session over components whose plan fits comes to exactly one thing, a status and a report; and it is done exactly
/// where the script is valid for a run and, in each of its lines, the recordings agree with what leaves the run.
pub fn replay_is_one()
    ensures one { OneReplay }
    ensures some { SomeReplay }
    ensures valid { ValidSessionsReplay }
    ensures only { OnlyValidSessionsReplay }
{
    runs_join();
    lines_take_their_time();
    lines_keep_sound();
    scripts_may_be_handled();
    agree_or_differ();
    sessions_have_one_outcome();
    some_outcome();
}
