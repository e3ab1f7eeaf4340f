//! Scripts.

ghost use Rattle.std.specs.Prelude.{◌≡◌, ◌<◌, ◌++◌, ◌∷◌, ◌+◌, ◌||◌, ◌^◌, [], not, ℕ, List, IfOk, OnOk, map, string_bytes};
ghost use Rattle.std.specs.HashMap.{get_by_text};
ghost use Rattle.eds_base.specs.Answering.{Answers};
ghost use Rattle.eds_script.specs.Carries.{plan_fields as plan_fields_of};
ghost use Rattle.eds_plan.specs.Ends.{end_named};
ghost use Rattle.eds_script.specs.Known.{KnowsTypes};
ghost use Rattle.eds_script.specs.Meaning.{is_wire as wire_form, line_says, ticks_by};
ghost use Rattle.eds_script.specs.More.{empty_plot, more_of};
ghost use Rattle.eds_script.specs.Scripts.{happenings_of, plot_from, plot_of, script_of, wires_of};
ghost use Rattle.eds_script.specs.Seen.{bad_line, is_among, line_of, meaning_of, numbered_told, plot_seen};

use crate::carries::plan_fields;
use crate::lines::{ScriptLine, script_lines};
use crate::meaning::{Meaning, Setting, saying_meaning};
use crate::wired::{EndSet, ends_of_wires, wired_ends};
use crate::words::form;
use crate::{BadLine, LineWhy};
use eds_base::{Fail, Items, Memory, Text};
use eds_plan::{Line, Plan, Wire, Wires, index_ends};
use eds_types::TypeTable;
use std::alloc::Global;

/// What lines have happen, each with the number of its line.
pub type Lines = Items<(u32, Line)>;

/// A script: its wires, and what its lines have happen, the start of all components first, as line 0.
#[derive(Drop)]
pub struct Script {
    pub wires: Wires,
    pub lines: Lines,
}

// A script that has nothing happen.
fn empty_script(alloc: Global) -> Script
    ensures { plot_seen result ≡ empty_plot }
{
    Script {
        wires: Wires::new(alloc),
        lines: Lines::new(alloc),
    }
}

// A script whose components start.
fn started_script(alloc: Global) -> Result<Script, Memory>
    ensures { IfOk result (λ s. plot_seen s ≡ plot_of []) }
{
    let mut script = empty_script(alloc);
    script.lines.push((0, Line::Start))?;
    Ok(script)
}

// Puts what a line means last.
fn add(
    alloc: Global,
    script: &mut Script,
    line: &ScriptLine<'_>,
    meaning: Meaning<'_>,
) -> Result<(), Memory>
    ensures wires { OnOk result (script.new.wires ≡ script.old.wires ++ wires_of ((line.now.number, meaning_of meaning.entry) ∷ [])) }
    ensures lines { OnOk result (map numbered_told script.new.lines ≡ map numbered_told script.old.lines ++ happenings_of ((line.now.number, meaning_of meaning.entry) ∷ [])) }
{
    match meaning {
        Meaning::Wire(lower, upper) => {
            let lower = Text::of(alloc, lower)?;
            let upper = Text::of(alloc, upper)?;
            script.wires.push(Wire {
                line: line.number,
                lower,
                upper,
            })?;
            Ok(())
        }
        Meaning::Tick(n) => {
            script.lines.push((line.number, Line::Tick(n)))?;
            Ok(())
        }
        Meaning::Comes(what) => {
            script.lines.push((line.number, what))?;
            Ok(())
        }
    }
}

// What is wrong at a line.
fn bad_at(line: &ScriptLine<'_>, fail: Fail<LineWhy>) -> Fail<BadLine>
    ensures { result ≡ bad_line line.now.number fail }
{
    match fail {
        Fail::Named(why) => Fail::Named(BadLine {
            line: line.number,
            why,
        }),
        Fail::Memory => Fail::Memory,
    }
}

// What a line means, after so much time, and after another line than a wire line or after none.
fn line_meaning<'a>(
    alloc: Global,
    setting: &Setting<'_>,
    late: bool,
    time: u64,
    line: &ScriptLine<'a>,
) -> Result<Meaning<'a>, Fail<LineWhy>>
    requires ends { (q : List ℕ) → get_by_text setting.now.ends.now q ≡ end_named setting.now.plan.now q }
    requires fields { setting.now.fields.now ≡ plan_fields_of setting.now.plan.now }
    requires known { KnowsTypes setting.now.table.now setting.now.plan.now }
    requires time { time < 2 ^ 63 }
    ensures value { Answers meaning_of result (line_says setting.now.table.now setting.now.plan.now (is_among (map string_bytes setting.now.wired.now.keys)) late time line.now.text.now) }
    ensures in_time { IfOk result (λ m. time + ticks_by (meaning_of m) < 2 ^ 63) }
{
    let saying = form(line.text).map_err(Fail::Named)?;
    saying_meaning(alloc, setting, late, time, saying)
}

// Whether a wire is late behind a line that means this.
fn is_late_behind(late: bool, meaning: &Meaning<'_>) -> bool
    ensures { result ≡ (late || not (wire_form (meaning_of meaning.now))) }
{
    late || !meaning.is_wire()
}

// Where lines begin: whether a wire is late already, and the time.
#[derive(Clone, Copy)]
struct Begin {
    late: bool,
    time: u64,
}

// Puts what lines mean behind what a script has so far, or answers the first of them that means nothing.
fn read_lines(
    alloc: Global,
    setting: &Setting<'_>,
    begin: Begin,
    lines: &[ScriptLine<'_>],
    script: &mut Script,
) -> Result<(), Fail<BadLine>>
    requires ends { (q : List ℕ) → get_by_text setting.now.ends.now q ≡ end_named setting.now.plan.now q }
    requires fields { setting.now.fields.now ≡ plan_fields_of setting.now.plan.now }
    requires known { KnowsTypes setting.now.table.now setting.now.plan.now }
    requires early { begin.time < 2 ^ 63 }
    ensures { Answers (λ u. plot_seen script.new) result (plot_from setting.now.table.now setting.now.plan.now (is_among (map string_bytes setting.now.wired.now.keys)) begin.late begin.time (plot_seen script.old) (map line_of lines.now)) }
{
    let mut late = begin.late;
    let mut time = begin.time;
    for line in lines {
        match line_meaning(alloc, setting, late, time, line) {
            Err(fail) => return Err(bad_at(line, fail)),
            Ok(meaning) => {
                late = is_late_behind(late, &meaning);
                time += meaning.ticks();
                add(alloc, script, line, meaning)?;
            }
        }
    }
    Ok(())
}

// A script with what lines mean over a plan, where the wired ends are these; or the first of the lines that means nothing.
fn read_over(
    alloc: Global,
    table: &TypeTable,
    plan: &Plan,
    wired: &EndSet,
    begin: Begin,
    lines: &[ScriptLine<'_>],
    script: Script,
) -> Result<Script, Fail<BadLine>>
    requires known { KnowsTypes table.now plan.now }
    requires early { begin.time < 2 ^ 63 }
    ensures { Answers plot_seen result (plot_from table.now plan.now (is_among (map string_bytes wired.now.keys)) begin.late begin.time (plot_seen script) (map line_of lines.now)) }
{
    let mut script = script;
    let ends = index_ends(alloc, plan)?;
    let fields = plan_fields(alloc, plan)?;
    let setting = Setting {
        table,
        plan,
        ends: &ends,
        fields: &fields,
        wired,
    };
    read_lines(alloc, &setting, begin, lines, &mut script)?;
    Ok(script)
}

/// The script that a text stands for, or its first bad line: the first that isn't skipped and to which a [`LineWhy`]
/// applies, with the first of these.
pub fn parse_script(
    alloc: Global,
    table: &TypeTable,
    plan: &Plan,
    octets: &[u8],
) -> Result<Script, Fail<BadLine>>
    requires known { KnowsTypes table.now plan.now }
    ensures { Answers plot_seen result (script_of table.now plan.now octets.now) }
{
    let lines = script_lines(alloc, octets)?;
    let lines = lines.as_slice();
    let wired = wired_ends(alloc, lines)?;
    let begin = Begin {
        late: false,
        time: 0,
    };
    let script = started_script(alloc)?;
    read_over(alloc, table, plan, &wired, begin, lines, script)
}

/// What a text has happen that goes on from a time in nanoseconds behind wires, or its first bad line: as [`parse_script`],
/// but without a start, with each wire line late, and with the ends of those wires as the wired ones.
pub fn parse_more(
    alloc: Global,
    table: &TypeTable,
    plan: &Plan,
    octets: &[u8],
    wires: &Wires,
    now: u64,
) -> Result<Script, Fail<BadLine>>
    requires known { KnowsTypes table.now plan.now }
    requires early { now < 2 ^ 63 }
    ensures { Answers plot_seen result (more_of table.now plan.now wires.now now octets.now) }
{
    let lines = script_lines(alloc, octets)?;
    let wired = ends_of_wires(alloc, wires.as_slice())?;
    let begin = Begin {
        late: true,
        time: now,
    };
    let script = empty_script(alloc);
    read_over(alloc, table, plan, &wired, begin, lines.as_slice(), script)
}
