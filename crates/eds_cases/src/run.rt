//! Cases that are run.

use crate::calls::Calls;
use crate::case::{Answer, Case, words_of};
use crate::noted::{NotedShelf, NotedSink};
use crate::parts::Parts;
use anyhow::{Context, Result, ensure};
use eds_base::{Items, Memory, Text};
use eds_cmd::eds;
use eds_io::{MemShelf, MemSink, Numbers};
use std::alloc::Global;

const READ_FAULT: u64 = 4;

const WRITE_FAULT: u64 = 5;

// The room that a report finds, in octets.
const ROOM: u32 = 1_048_576;

// The most calls that fail in turn.
const TURNS: u64 = 100_000;

/// Two answers that differ, and the number of the call that failed, 0 for none.
#[derive(Drop)]
pub(crate) struct Difference {
    pub wanted: Answer,
    pub got: Answer,
    pub failing: u64,
}

// What came of a run: the answer, the name in the read that failed, and whether a write failed.
#[derive(Drop)]
struct Outcome {
    answer: Answer,
    unread: Option<Text>,
    unwritten: bool,
}

fn one_number(alloc: Global, number: u64) -> Result<Numbers, Memory> {
    let mut numbers = Items::new(alloc);
    numbers.push(number)?;
    Ok(numbers)
}

fn shelf_of(alloc: Global, case: Case<'_>, parts: &Parts, reads: Calls) -> Result<MemShelf> {
    let files = case.files(alloc, parts)?;
    let failing = one_number(alloc, reads.failing).ok().context("no memory")?;
    let shelf = MemShelf::new(alloc, files, reads.most, failing);
    shelf.ok().context("no memory")
}

fn sink_of(alloc: Global, writes: Calls) -> Result<MemSink> {
    let failing = one_number(alloc, writes.failing).ok().context("no memory")?;
    let sink = MemSink::new(alloc, ROOM, writes.most, failing);
    sink.ok().context("no memory")
}

fn run_once(
    alloc: Global,
    case: Case<'_>,
    parts: &Parts,
    reads: Calls,
    writes: Calls,
) -> Result<Outcome> {
    let words = words_of(alloc, case.line(alloc, parts)?.as_str())?;
    let mut shelf = NotedShelf::new(alloc, shelf_of(alloc, case, parts, reads)?);
    let mut sink = NotedSink::new(sink_of(alloc, writes)?);
    let status = eds(alloc, &words, &mut shelf, &mut sink);
    let answer = Answer {
        status: u64::from(status.number()),
        report: sink.sink.written().to_vec(alloc)?,
    };
    Ok(Outcome {
        answer,
        unread: shelf.failed.take(),
        unwritten: sink.has_failed,
    })
}

// The difference between what is wanted and what came, where there is one.
fn compared(wanted: Answer, got: Answer, failing: u64) -> Option<Difference> {
    if wanted == got {
        return None;
    }
    Some(Difference {
        wanted,
        got,
        failing,
    })
}

fn read_fault(alloc: Global, name: &str) -> Result<Answer> {
    let line = format!(in alloc; "read fault {name}\n")?;
    Ok(Answer {
        status: READ_FAULT,
        report: line.as_bytes().to_vec(alloc)?,
    })
}

// A write fault after as many octets of the report as were written.
fn write_fault(alloc: Global, whole: &Answer, written: usize) -> Result<Answer> {
    let report = whole.report.as_slice();
    Ok(Answer {
        status: WRITE_FAULT,
        report: report[..written.min(report.len())].to_vec(alloc)?,
    })
}

// Fails each read in turn, until a run meets no fault.
fn each_read(
    alloc: Global,
    case: Case<'_>,
    parts: &Parts,
    reads: Calls,
    writes: Calls,
) -> Result<Option<Difference>> {
    for failing in 1..TURNS {
        let calls = reads.with_failing(failing);
        let Outcome { answer, unread, .. } = run_once(alloc, case, parts, calls, writes)?;
        let Some(name) = unread else {
            ensure!(failing > 1, "no read is made");
            return Ok(compared(case.answer(alloc, parts)?, answer, 0));
        };
        let wanted = read_fault(alloc, name.as_str())?;
        if let Some(found) = compared(wanted, answer, failing) {
            return Ok(Some(found));
        }
    }
    Ok(None)
}

// Fails each write in turn, until a run meets no fault.
fn each_write(
    alloc: Global,
    case: Case<'_>,
    parts: &Parts,
    reads: Calls,
    writes: Calls,
) -> Result<Option<Difference>> {
    let whole = case.answer(alloc, parts)?;
    for failing in 1..TURNS {
        let run = run_once(alloc, case, parts, reads, writes.with_failing(failing))?;
        if !run.unwritten {
            ensure!(failing > 1, "no write is made");
            return Ok(compared(whole, run.answer, 0));
        }
        let wanted = write_fault(alloc, &whole, run.answer.report.len())?;
        if let Some(found) = compared(wanted, run.answer, failing) {
            return Ok(Some(found));
        }
    }
    Ok(None)
}

/// Runs a case, and gives the answers where they differ.
pub(crate) fn difference_of(
    alloc: Global,
    case: Case<'_>,
    parts: &Parts,
) -> Result<Option<Difference>> {
    let reads = case.calls("reads")?;
    let writes = case.calls("writes")?;
    if reads.each {
        return each_read(alloc, case, parts, reads, writes);
    }
    if writes.each {
        return each_write(alloc, case, parts, reads, writes);
    }
    let run = run_once(alloc, case, parts, reads, writes)?;
    Ok(compared(case.answer(alloc, parts)?, run.answer, 0))
}
