//! Runs `eds` on each case of the files in the folder `cases`, over files in memory, and prints those whose answer differs.
//! Pieces that cases share stand in `elements.json` and `sheets.json`. docs/TESTING.md says how a case is written.
#![tactic(auto)]

mod calls;
mod case;
mod content;
mod noted;
mod parts;
mod run;

use anyhow::{Context, Result};
use case::{Answer, Case};
use parts::Parts;
use run::{Difference, difference_of};
use serde_json::Value;
use std::alloc::Global;
use std::fs;
use std::process::ExitCode;

// How many cases have passed, and how many have failed.
#[derive(Clone, Copy)]
struct Tally {
    passed: u64,
    failed: u64,
}

impl Tally {
    fn count(&mut self, has_passed: bool) {
        if has_passed {
            self.passed = self.passed.saturating_add(1);
        } else {
            self.failed = self.failed.saturating_add(1);
        }
    }
}

fn read_json(rt: &HostRuntime, path: &str) -> Result<Value> {
    let text = fs::read(rt, path).context(format_args!("reading {path}"))?;
    Value::from_slice(rt.alloc(), text.as_slice()).context(format_args!("reading {path}"))
}

// The names of the files of cases, in order.
fn case_files(rt: &HostRuntime) -> Result<Vec<String>> {
    let mut names = Vec::new(rt.alloc());
    for entry in fs::read_dir(rt, "cases")? {
        let entry = entry?;
        names.push(String::from_str(rt.alloc(), entry.file_name())?)?;
    }
    names.sort()?;
    Ok(names)
}

// The most octets of a report that are printed.
const SHOWN: usize = 2000;

fn print_answer(rt: &HostRuntime, title: &str, answer: &Answer) -> Result<()> {
    let status = answer.status;
    let octets = answer.report.len();
    match str::from_utf8(answer.report.as_slice()) {
        Ok(report) if octets <= SHOWN => println!(rt;
            "  {title} status {status}, report\n{report}"
        )?,
        _ => println!(rt; "  {title} status {status}, a report of {octets} octets")?,
    }
    Ok(())
}

fn print_difference(rt: &HostRuntime, line: &str, found: &Difference) -> Result<()> {
    let failing = found.failing;
    println!(rt; "{line}")?;
    if failing > 0 {
        println!(rt; "  with call {failing} failing")?;
    }
    print_answer(rt, "wanted", &found.wanted)?;
    print_answer(rt, "got", &found.got)
}

// Runs one case.
fn run_case(rt: &HostRuntime, file: &str, case: Case<'_>, parts: &Parts) -> Result<bool> {
    let alloc = rt.alloc();
    let line = case.line(alloc, parts)?;
    match difference_of(alloc, case, parts)? {
        None => Ok(true),
        Some(found) => {
            let line = format!(in alloc; "{file}: {line}")?;
            print_difference(rt, line.as_str(), &found)?;
            Ok(false)
        }
    }
}

fn list_in<'a>(value: &'a Value, name: &str) -> Result<&'a [Value]> {
    let list = value.get(name).and_then(Value::as_array);
    let list = list.context(format_args!("no list {name}"))?;
    Ok(list.as_slice())
}

// Runs the cases of a group.
fn run_group(
    rt: &HostRuntime,
    file: &str,
    group: &Value,
    parts: &mut Parts,
    tally: &mut Tally,
) -> Result<()> {
    parts.add(group.get("parts"))?;
    let outer = parts.len();
    for (place, own) in list_in(group, "cases")?.iter().enumerate() {
        parts.add(own.get("parts"))?;
        let ran = run_case(rt, file, Case { group, own }, parts);
        tally.count(ran.context(format_args!("case {place}, from 0"))?);
        parts.truncate(outer);
    }
    Ok(())
}

// Runs the cases of a file.
fn run_file(rt: &HostRuntime, file: &str, parts: &mut Parts, tally: &mut Tally) -> Result<()> {
    let path = format!(in rt.alloc(); "cases/{file}")?;
    let cases = read_json(rt, path.as_str())?;
    let outer = parts.len();
    for (place, group) in list_in(&cases, "groups")?.iter().enumerate() {
        let ran = run_group(rt, file, group, parts, tally);
        ran.context(format_args!("{file}, group {place}, from 0"))?;
        parts.truncate(outer);
    }
    Ok(())
}

fn main(rt: HostRuntime) -> Result<ExitCode> {
    let mut parts = Parts::new(rt.alloc());
    parts.add(Some(&read_json(&rt, "elements.json")?))?;
    parts.add(Some(&read_json(&rt, "sheets.json")?))?;
    let mut tally = Tally {
        passed: 0,
        failed: 0,
    };
    for file in &case_files(&rt)? {
        run_file(&rt, file.as_str(), &mut parts, &mut tally)?;
    }
    println!(rt; "{} passed, {} failed", tally.passed, tally.failed)?;
    Ok(if tally.failed == 0 {
        ExitCode::SUCCESS
    } else {
        ExitCode::FAILURE
    })
}
