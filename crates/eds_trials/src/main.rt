//! Tries small types: the plain program of the definitions against what is known of them, and reader and packer against
//! the plain program.
//!
//! Each line of `data/trials` is one trial, as `trial::Trial` says. Each line of `data/layouts` is one of a layout: the files
//! of a sheet and of the wanted text, with the type between them. Each line of `data/calls` is a call that no command makes,
//! as `calls` says. What differs is printed, and last how many trials passed and failed.
#![tactic(auto)]

mod agreement;
mod calls;
mod census;
mod known;
mod layouts;
mod sheet;
mod slow;
mod small;
mod trial;

use calls::call_answers;
use eds_base::Memory;
use layouts::are_told;
use std::fs;
use std::process::ExitCode;
use trial::{Outcome, outcome_of};

/// How many trials passed and failed.
#[derive(Clone, Copy)]
struct Tally {
    passed: u32,
    failed: u32,
}

impl Tally {
    fn count(&mut self, passes: bool) {
        if passes {
            self.passed = self.passed.wrapping_add(1);
        } else {
            self.failed = self.failed.wrapping_add(1);
        }
    }
}

// What the trial of a line comes to. A line of `small` has no file.
fn try_line(rt: &HostRuntime, line: &str) -> Result<Outcome, Memory> {
    let file = line.split(' ').next().unwrap_or("");
    match fs::read_to_string(rt, file) {
        Ok(text) => outcome_of(rt.alloc(), Some(text.as_str()), line),
        Err(_) => outcome_of(rt.alloc(), None, line),
    }
}

fn try_lines(rt: &HostRuntime, lines: &str, tally: &mut Tally) -> Result<(), Memory> {
    for line in lines.lines() {
        let outcome = try_line(rt, line)?;
        tally.count(outcome.passes());
        if !outcome.passes() {
            let _ = println!(rt; "{line}: {outcome}");
        }
    }
    Ok(())
}

// Whether the layouts of the type of a line have the text of its last file.
fn try_layout(rt: &HostRuntime, line: &str) -> Result<bool, Memory> {
    let words: Vec<&str> = line.split(' ').collect(rt.alloc())?;
    let [sheet, name, wanted] = words.as_slice() else {
        return Ok(false);
    };
    let Ok(text) = fs::read_to_string(rt, sheet) else {
        return Ok(false);
    };
    let Ok(wanted) = fs::read_to_string(rt, wanted) else {
        return Ok(false);
    };
    are_told(rt.alloc(), text.as_str(), name, wanted.as_str())
}

fn try_layouts(rt: &HostRuntime, lines: &str, tally: &mut Tally) -> Result<(), Memory> {
    for line in lines.lines() {
        let passes = try_layout(rt, line)?;
        tally.count(passes);
        if !passes {
            let _ = println!(rt; "{line}: another text");
        }
    }
    Ok(())
}

// Whether the call of a line answers as it should; so it isn't where the line's file can't be read.
fn try_call(rt: &HostRuntime, line: &str) -> Result<bool, Memory> {
    let file = line.split(' ').next().unwrap_or("");
    match fs::read_to_string(rt, file) {
        Ok(text) => call_answers(rt.alloc(), text.as_str(), line),
        Err(_) => Ok(false),
    }
}

fn try_calls(rt: &HostRuntime, lines: &str, tally: &mut Tally) -> Result<(), Memory> {
    for line in lines.lines() {
        let passes = try_call(rt, line)?;
        tally.count(passes);
        if !passes {
            let _ = println!(rt; "{line}: another answer");
        }
    }
    Ok(())
}

fn try_all(
    rt: &HostRuntime,
    lines: &str,
    layouts: &str,
    calls: &str,
    tally: &mut Tally,
) -> Result<(), Memory> {
    try_lines(rt, lines, tally)?;
    try_layouts(rt, layouts, tally)?;
    try_calls(rt, calls, tally)
}

fn main(rt: HostRuntime) -> ExitCode {
    let mut tally = Tally {
        passed: 0,
        failed: 0,
    };
    let (Ok(lines), Ok(layouts), Ok(calls)) = (
        fs::read_to_string(&rt, "trials"),
        fs::read_to_string(&rt, "layouts"),
        fs::read_to_string(&rt, "calls"),
    ) else {
        return ExitCode::FAILURE;
    };
    tally.count(known::checks_are_known(rt.alloc()).unwrap_or(false));
    let all = try_all(
        &rt,
        lines.as_str(),
        layouts.as_str(),
        calls.as_str(),
        &mut tally,
    );
    if all.is_err() {
        let _ = println!(rt; "an allocation was refused");
        return ExitCode::FAILURE;
    }
    let Tally { passed, failed } = tally;
    match println!(rt; "{passed} passed, {failed} failed") {
        Ok(()) if failed == 0 => ExitCode::SUCCESS,
        _ => ExitCode::FAILURE,
    }
}
