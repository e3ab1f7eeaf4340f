//! Snapshots, read line by line.

ghost use Rattle.std.specs.Prelude.{◌≡◌, ◌<◌, ◌+◌, ◌^◌, ◌∷◌, ◌++◌, [], ℕ, List, OnOk, IfOk, length, map};
ghost use Rattle.std.specs.HashMap.{get_by_text};
ghost use Rattle.eds_act.specs.Does.{Conforms};
ghost use Rattle.eds_base.specs.Answering.{Answers};
ghost use Rattle.eds_plan.specs.Ends.{end_named};
ghost use Rattle.eds_plan.specs.Fitting.{PlanFits};
ghost use Rattle.eds_snap.specs.Readings.{put as put_entry, read_line as line_read, read_lines as lines_read, snap_of, unread as nothing_read};
ghost use Rattle.eds_snap.specs.Lines.{last_line, snap_lines};
ghost use Rattle.eds_snap.specs.Seen.{IsEarly, bad_line, entry_now, reading_now, snap_now};
ghost use Rattle.eds_snap.specs.Stops.{at_line};
ghost use Rattle.eds_snap.specs.Order.{is_whole as whole};

use crate::entry::{Entry, Setting, entry_of};
use crate::snap::{Snap, finished};
use crate::stage::{Stage, in_order};
use crate::told::{Told, all_blank, put_machine, put_variable, put_wait};
use crate::words::form;
use crate::{BadSnap, SnapWhy};
use eds_base::{Fail, Items, Memory, Text};
use eds_plan::{Plan, Wire, Wires, index_ends};
use eds_script::cut;
use eds_types::TypeTable;
use std::alloc::Global;

/// What was read so far: which lines may come next, the time, the wires, and what was told of each component.
#[derive(Drop)]
pub(crate) struct Reading {
    pub(crate) stage: Stage,
    pub(crate) time: u64,
    pub(crate) wires: Wires,
    pub(crate) told: Vec<Told>,
}

// Nothing was read.
fn unread(alloc: Global, plan: &Plan) -> Result<Reading, Memory>
    ensures { IfOk result (λ r. reading_now r ≡ nothing_read plan.now) }
{
    let told = all_blank(alloc, plan)?;
    Ok(Reading {
        stage: Stage::First,
        time: 0,
        wires: Items::new(alloc),
        told,
    })
}

// Puts what a line tells to what was read.
fn put(alloc: Global, reading: &mut Reading, number: u32, entry: Entry<'_>) -> Result<(), Memory>
    requires entry { IsEarly (entry_now entry) }
    requires early { reading.old.time < 2 ^ 63 }
    ensures early { OnOk result (reading.new.time < 2 ^ 63) }
    ensures ok { OnOk result (reading_now reading.new ≡ put_entry number (entry_now entry.entry) (reading_now reading.old)) }
{
    match entry {
        Entry::Begin => Ok(()),
        Entry::Time(n) => {
            reading.time = n;
            Ok(())
        }
        Entry::Wire(lower, upper) => {
            let lower = Text::of(alloc, lower)?;
            let upper = Text::of(alloc, upper)?;
            reading.wires.push(Wire {
                line: number,
                lower,
                upper,
            })
        }
        Entry::Machine(comp, place, state) => {
            put_machine(&mut reading.told, comp, place, state);
            Ok(())
        }
        Entry::Variable(comp, place, value) => {
            put_variable(&mut reading.told, comp, place, value);
            Ok(())
        }
        Entry::Wait(comp, waiting) => put_wait(&mut reading.told, comp, waiting),
    }
}

// What is read by one more line.
fn read_one(
    alloc: Global,
    setting: &Setting<'_>,
    reading: &mut Reading,
    number: u32,
    text: &[u8],
    ended: bool,
) -> Result<(), Fail<SnapWhy>>
    requires fits { PlanFits setting.now.table.now (Conforms setting.now.table.now) setting.now.plan.now }
    requires ends { (q : List ℕ) → get_by_text setting.now.ends.now q ≡ end_named setting.now.plan.now q }
    requires early { reading.old.time < 2 ^ 63 }
    ensures early { OnOk result (reading.new.time < 2 ^ 63) }
    ensures read { Answers (λ u. reading_now reading.new) result (line_read setting.now.table.now setting.now.plan.now (reading_now reading.old) (record { number = number; text = text.now; ended = ended })) }
{
    let saying = form(number, text, ended).map_err(Fail::Named)?;
    let Some(stage) = in_order(reading.stage, &saying) else {
        return Err(Fail::Named(SnapWhy::Words));
    };
    let entry = entry_of(alloc, setting, reading.time, &reading.told, saying)?;
    reading.stage = stage;
    put(alloc, reading, number, entry)?;
    Ok(())
}

// What is wrong at a line.
fn bad_at(number: u32, fail: Fail<SnapWhy>) -> Fail<BadSnap>
    ensures { result ≡ bad_line number fail }
{
    match fail {
        Fail::Named(why) => Fail::Named(BadSnap { line: number, why }),
        Fail::Memory => Fail::Memory,
    }
}

// What is read by one more line, or why it isn't one.
fn read_line(
    alloc: Global,
    setting: &Setting<'_>,
    reading: &mut Reading,
    number: u32,
    text: &[u8],
    ended: bool,
) -> Result<(), Fail<BadSnap>>
    requires fits { PlanFits setting.now.table.now (Conforms setting.now.table.now) setting.now.plan.now }
    requires ends { (q : List ℕ) → get_by_text setting.now.ends.now q ≡ end_named setting.now.plan.now q }
    requires early { reading.old.time < 2 ^ 63 }
    ensures early { OnOk result (reading.new.time < 2 ^ 63) }
    ensures read { Answers (λ u. reading_now reading.new) result (at_line number (line_read setting.now.table.now setting.now.plan.now (reading_now reading.old) (record { number = number; text = text.now; ended = ended }))) }
{
    match read_one(alloc, setting, reading, number, text, ended) {
        Ok(()) => Ok(()),
        Err(fail) => Err(bad_at(number, fail)),
    }
}

/// What all lines tell, and the number behind that of the last.
#[derive(Drop)]
pub(crate) struct Whole {
    pub(crate) reading: Reading,
    pub(crate) next: u32,
}

// What the last line tells, behind which no line feed stands, where there is one; and the number behind it.
fn read_last(
    alloc: Global,
    setting: &Setting<'_>,
    reading: &mut Reading,
    number: u32,
    rest: &[u8],
) -> Result<u32, Fail<BadSnap>>
    requires fits { PlanFits setting.now.table.now (Conforms setting.now.table.now) setting.now.plan.now }
    requires ends { (q : List ℕ) → get_by_text setting.now.ends.now q ≡ end_named setting.now.plan.now q }
    requires early { reading.old.time < 2 ^ 63 }
    ensures read { Answers (λ n. reading_now reading.new) result (lines_read setting.now.table.now setting.now.plan.now (reading_now reading.old) (last_line number rest.now)) }
    ensures next { IfOk result (λ n. n ≡ number + length (last_line number rest.now)) }
{
    match rest {
        [] => Ok(number),
        [_, ..] => match read_line(alloc, setting, reading, number, rest, false) {
            Err(fail) => Err(fail),
            Ok(()) => {
                let next = number.checked_add(1).ok_or(Memory)?;
                Ok(next)
            }
        },
    }
}

// What all lines of a text tell, or the first of them that isn't one.
#[tactic(auto, unfolding(crate::specs::Lines::snap_lines))]
fn read_all(alloc: Global, setting: &Setting<'_>, octets: &[u8]) -> Result<Whole, Fail<BadSnap>>
    requires fits { PlanFits setting.now.table.now (Conforms setting.now.table.now) setting.now.plan.now }
    requires ends { (q : List ℕ) → get_by_text setting.now.ends.now q ≡ end_named setting.now.plan.now q }
    ensures read { Answers (λ w. reading_now w.reading) result (lines_read setting.now.table.now setting.now.plan.now (nothing_read setting.now.plan.now) (snap_lines octets.now)) }
    ensures next { IfOk result (λ w. w.next ≡ length (snap_lines octets.now) + 1) }
{
    let mut reading = unread(alloc, setting.plan)?;
    let mut number: u32 = 1;
    let mut rest = octets;
    while let Some((line, after)) = cut(rest) {
        match read_line(alloc, setting, &mut reading, number, line, true) {
            Err(fail) => return Err(fail),
            Ok(()) => {
                // a snapshot has fewer lines than that
                number = number.checked_add(1).ok_or(Memory)?;
                rest = after;
            }
        }
    }
    match read_last(alloc, setting, &mut reading, number, rest) {
        Err(fail) => Err(fail),
        Ok(next) => Ok(Whole { reading, next }),
    }
}

// Whether the first line and the time have come.
fn is_whole(stage: Stage) -> bool
    ensures { result ≡ whole stage }
{
    match stage {
        Stage::First => false,
        Stage::Time => false,
        Stage::Wires => true,
        Stage::States => true,
    }
}

/// The snapshot that a text stands for, or its first bad line: the first to which a [`SnapWhy`] applies, with the first of
/// these.
pub fn parse_snap(
    alloc: Global,
    table: &TypeTable,
    plan: &Plan,
    octets: &[u8],
) -> Result<Snap, Fail<BadSnap>>
    requires fits { PlanFits table.now (Conforms table.now) plan.now }
    ensures { Answers snap_now result (snap_of table.now plan.now octets.now) }
{
    let ends = index_ends(alloc, plan)?;
    let setting = Setting {
        table,
        plan,
        ends: &ends,
    };
    let read = read_all(alloc, &setting, octets)?;
    if !is_whole(read.reading.stage) {
        return Err(Fail::Named(BadSnap {
            line: read.next,
            why: SnapWhy::Words,
        }));
    }
    Ok(finished(alloc, plan, read.reading)?)
}
