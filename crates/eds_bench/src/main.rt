//! Unpacks many packets by a sheet and writes them as JSON, unpacks or recognises a frame many times, or reads a large text or binary many
//! times or takes its check, so that those of a second can be counted from outside.
#![tactic(auto)]

mod frame;
mod json;
mod letters;
mod packet_sheet;
mod sequence;
mod sum;
mod unpacked;

use eds_base::Memory;
use eds_io::HostShelf;
use frame::sum_of_frame;
use json::json_of;
use letters::sum_read;
use std::env;
use std::process::ExitCode;
use unpacked::{Stop, sum_of};

/// The most packets or turns of a run.
const MOST: u32 = 10_000_000;

/// What the words after the program's name ask for.
enum Task {
    Packets(u32),
    Json(u32),
    Letters(letters::Task),
    Frame(frame::Task),
}

fn count_of(word: &str) -> Option<u32> {
    let count = word.parse::<u32>().ok()?;
    if 1 <= count && count <= MOST {
        Some(count)
    } else {
        None
    }
}

fn json_asked(first: &str, second: &str) -> Option<Task> {
    if first == "json" {
        Some(Task::Json(count_of(second)?))
    } else {
        None
    }
}

fn task_asked(rt: &HostRuntime) -> Option<Task> {
    let args = env::args(rt).ok()?;
    let mut words = args.skip(1);
    let first = words.next()?;
    let Some(second) = words.next() else {
        return Some(Task::Packets(count_of(first.as_str())?));
    };
    let Some(turns) = words.next() else {
        return json_asked(first.as_str(), second.as_str());
    };
    let Some(count) = words.next() else {
        let task = letters::Task::of(first.as_str(), second.as_str(), turns.as_str(), MOST)?;
        return Some(Task::Letters(task));
    };
    let Some(last) = words.next() else {
        let task = frame::Task {
            type_name: first,
            frame: second,
            sheet: turns,
            turns: count_of(count.as_str())?,
            recognised: false,
        };
        return Some(Task::Frame(task));
    };
    if first.as_str() != "recognise" {
        return None;
    }
    let task = frame::Task {
        type_name: second,
        frame: turns,
        sheet: count,
        turns: count_of(last.as_str())?,
        recognised: true,
    };
    Some(Task::Frame(task))
}

// Ends as what is printed went.
fn ended<E: Drop>(printed: Result<(), E>) -> ExitCode {
    match printed {
        Ok(()) => ExitCode::SUCCESS,
        Err(_) => ExitCode::FAILURE,
    }
}

// Prints why there is no sum.
fn stopped(rt: &HostRuntime, stop: Stop) -> ExitCode {
    let _ = println!(rt; "{stop}");
    ExitCode::FAILURE
}

// Prints what the packets add up to.
fn print_packets(rt: &HostRuntime, count: u32) -> ExitCode {
    match sum_of(rt.alloc(), count) {
        Ok(sum) => ended(println!(rt; "packets {count} sum {sum}")),
        Err(stop) => stopped(rt, stop),
    }
}

// Prints how many octets the packets' JSON has, and that of the last packet.
fn print_json(rt: &HostRuntime, count: u32) -> ExitCode {
    match json_of(rt.alloc(), count) {
        Ok(json) => ended(println!(rt; "octets {} last {}", json.octets, json.last.as_str())),
        Err(stop) => stopped(rt, stop),
    }
}

// Prints what is read adds up to, or the check.
fn print_letters(rt: &HostRuntime, task: letters::Task) -> ExitCode {
    match sum_read(rt.alloc(), task) {
        Ok(sum) => ended(println!(rt; "turns {} sum {sum}", task.turns())),
        Err(Memory) => stopped(rt, Stop::Memory),
    }
}

// Prints what the values of the frame add up to.
fn print_frame(rt: &HostRuntime, task: &frame::Task) -> ExitCode {
    let mut shelf = HostShelf::new(rt);
    match sum_of_frame(rt.alloc(), &mut shelf, task) {
        Ok(sum) => ended(println!(rt; "turns {} sum {sum}", task.turns)),
        Err(stop) => stopped(rt, stop),
    }
}

fn main(rt: HostRuntime) -> ExitCode {
    match task_asked(&rt) {
        Some(Task::Packets(count)) => print_packets(&rt, count),
        Some(Task::Json(count)) => print_json(&rt, count),
        Some(Task::Letters(task)) => print_letters(&rt, task),
        Some(Task::Frame(task)) => print_frame(&rt, &task),
        None => {
            let _ = println!(rt;
                "usage: eds_bench COUNT, json COUNT, TYPE FRAME SHEET TURNS, recognise TYPE FRAME SHEET TURNS, or binary, text, sum, xor, crc8 or crc16 BITS TURNS; counts from 1 to {MOST}"
            );
            ExitCode::from(2)
        }
    }
}
