//! The lines that are reported.

ghost use Rattle.std.specs.Prelude.{◌≡◌, IfOk, string_bytes};
ghost use Rattle.eds_cmd.specs.Reports.{agrees_line as line_of_agreement, bad_line_line as line_of_bad_line, bits_report as report_of_bits, common_text as text_of_common, count_text as text_of_count, counts_line as line_of_counts, deliveries_line as line_of_deliveries, demo_line as line_of_demo, differs_line as line_of_difference, end_line as line_of_end, fault_line as line_of_fault, fault_words as words_of_fault, kept_text as text_of_kept, limit_line as line_of_limit, line_why_text as text_of_line_why, no_file_line as line_of_no_file, packet_fault_line as line_of_packet_fault, packet_words as words_of_packet, place_text as text_of_place, read_fault_line as line_of_read_fault, refusal_line as line_of_refusal, rule_text as text_of_rule, run_words as words_of_run, sheet_words as words_of_sheet, what_text as text_of_what, wire_why_text as text_of_wire_why};

use crate::status::What;
use crate::tally::Tally;
use eds_base::{CommonNumber, Kept, Octets, Place, Refusal, Rule};
use eds_host::WireWhy;
use eds_script::LineWhy;
use eds_sheet::Counts;
use std::alloc::{AllocError, Global};

// ` PATH=NUMBER` for each.
fn common_text(alloc: Global, common: &[CommonNumber]) -> Result<String, AllocError>
    ensures { IfOk result (λ s. string_bytes s ≡ text_of_common common.now) }
{
    let mut text = String::new(alloc);
    for one in common {
        let path = one.path.as_str();
        let number = one.number;
        let part = format!(in alloc; " {path}={number}")?;
        text.push_str(part.as_str())?;
    }
    Ok(text)
}

// A space and the kept text, where there is one.
fn kept_text(alloc: Global, kept: &Kept) -> Result<String, AllocError>
    ensures { IfOk result (λ s. string_bytes s ≡ text_of_kept kept.now) }
{
    match kept {
        Kept::Nothing => Ok(String::new(alloc)),
        Kept::Word(word) => {
            let word = word.as_str();
            Ok(format!(in alloc; " {word}")?)
        }
        Kept::Overlap(note) => {
            let note = note.get();
            let first = note.first.as_str();
            let second = note.second.as_str();
            let mut text = format!(in alloc; " {first} {second}")?;
            let common = common_text(alloc, note.common.as_slice())?;
            text.push_str(common.as_str())?;
            Ok(text)
        }
    }
}

fn rule_text(alloc: Global, rule: Rule) -> Result<String, AllocError>
    ensures { IfOk result (λ s. string_bytes s ≡ text_of_rule rule) }
{
    let number = rule.number();
    let name = rule.name();
    Ok(format!(in alloc; "{number} {name}")?)
}

fn place_text(alloc: Global, place: Place) -> Result<String, AllocError>
    ensures { IfOk result (λ s. string_bytes s ≡ text_of_place place) }
{
    let file = place.file;
    let node = place.node;
    Ok(format!(in alloc; "{file}:{node}")?)
}

/// The line of a refusal.
pub fn refusal_line(alloc: Global, refusal: &Refusal) -> Result<String, AllocError>
    ensures { IfOk result (λ s. string_bytes s ≡ line_of_refusal refusal.now) }
{
    let rule = rule_text(alloc, refusal.rule)?;
    let place = place_text(alloc, refusal.place)?;
    let kept = kept_text(alloc, &refusal.kept)?;
    let mut line = String::from_str(alloc, "refused ")?;
    line.push_str(rule.as_str())?;
    line.push_str(" at ")?;
    line.push_str(place.as_str())?;
    line.push_str(kept.as_str())?;
    line.push_str("\n")?;
    Ok(line)
}

/// The line of a missing file.
pub fn no_file_line(alloc: Global, name: &str) -> Result<String, AllocError>
    ensures { IfOk result (λ s. string_bytes s ≡ line_of_no_file name.now) }
{
    Ok(format!(in alloc; "no file {name}\n")?)
}

/// The line of a read that failed.
pub fn read_fault_line(alloc: Global, name: &str) -> Result<String, AllocError>
    ensures { IfOk result (λ s. string_bytes s ≡ line_of_read_fault name.now) }
{
    Ok(format!(in alloc; "read fault {name}\n")?)
}

fn what_text(what: What) -> &'static str
    ensures { result.now ≡ text_of_what what }
{
    match what {
        What::Files => "files",
        What::File => "file",
        What::Sheets => "sheets",
        What::Input => "input",
        What::Frame => "frame",
        What::Report => "report",
        What::Deliveries => "deliveries",
    }
}

/// The line of a limit that was passed.
pub fn limit_line(alloc: Global, what: What, most: u64) -> Result<String, AllocError>
    ensures { IfOk result (λ s. string_bytes s ≡ line_of_limit what most) }
{
    let word = what_text(what);
    Ok(format!(in alloc; "limit {word} {most}\n")?)
}

#[tactic(auto, unfolding(crate::specs::Reports::count_text))]
fn count_text(alloc: Global, name: &str, count: u64) -> Result<String, AllocError>
    ensures { IfOk result (λ s. string_bytes s ≡ text_of_count name.now count) }
{
    Ok(format!(in alloc; " {name} {count}")?)
}

/// The line of the counts of an accepted sheet.
pub fn counts_line(alloc: Global, counts: Counts) -> Result<String, AllocError>
    ensures { IfOk result (λ s. string_bytes s ≡ line_of_counts counts) }
{
    let types = count_text(alloc, "types", u64::from(counts.types))?;
    let containers = count_text(alloc, "containers", u64::from(counts.containers))?;
    let interfaces = count_text(alloc, "interfaces", u64::from(counts.interfaces))?;
    let components = count_text(alloc, "components", u64::from(counts.components))?;
    let mut line = String::from_str(alloc, "accepted")?;
    line.push_str(types.as_str())?;
    line.push_str(containers.as_str())?;
    line.push_str(interfaces.as_str())?;
    line.push_str(components.as_str())?;
    line.push_str("\n")?;
    Ok(line)
}

/// The line of a fault.
pub fn fault_line(alloc: Global, reason: &str, path: &str) -> Result<String, AllocError>
    ensures { IfOk result (λ s. string_bytes s ≡ line_of_fault reason.now path.now) }
{
    Ok(format!(in alloc; "fault {reason} at {path}\n")?)
}

fn fault_words(alloc: Global, reason: &str, path: &str) -> Result<String, AllocError>
    ensures { IfOk result (λ s. string_bytes s ≡ words_of_fault reason.now path.now) }
{
    Ok(format!(in alloc; "fault {reason} at {path}")?)
}

fn packet_words(alloc: Global, packet: u32) -> Result<String, AllocError>
    ensures { IfOk result (λ s. string_bytes s ≡ words_of_packet packet) }
{
    Ok(format!(in alloc; " in packet {packet}\n")?)
}

/// The line of a fault in a packet, by its number from 1.
pub fn packet_fault_line(
    alloc: Global,
    reason: &str,
    path: &str,
    packet: u32,
) -> Result<String, AllocError>
    ensures { IfOk result (λ s. string_bytes s ≡ line_of_packet_fault reason.now path.now packet) }
{
    let mut line = fault_words(alloc, reason, path)?;
    let words = packet_words(alloc, packet)?;
    line.push_str(words.as_str())?;
    Ok(line)
}

/// The report on a value that was read or written: the text of the value or its octets, and the number of its bits.
pub fn bits_report(alloc: Global, text: &str, count: u32) -> Result<String, AllocError>
    ensures { IfOk result (λ s. string_bytes s ≡ report_of_bits text.now count) }
{
    Ok(format!(in alloc; "{text}\nbits {count}\n")?)
}

/// The octets of a text, with no copy.
pub fn octets_of(text: String) -> Octets
    ensures { result ≡ string_bytes text }
{
    Octets::from_vec(text.into_bytes())
}

/// The word for why a line of a script means nothing.
pub fn line_why_text(why: LineWhy) -> &'static str
    ensures { result.now ≡ text_of_line_why why }
{
    match why {
        LineWhy::Text => "Text",
        LineWhy::Words => "Words",
        LineWhy::Late => "Late",
        LineWhy::Number => "Number",
        LineWhy::Time => "Time",
        LineWhy::End => "End",
        LineWhy::Wired => "Wired",
        LineWhy::Way => "Way",
        LineWhy::Member => "Member",
        LineWhy::ReadOnly => "ReadOnly",
        LineWhy::Args => "Args",
        LineWhy::Hex => "Hex",
        LineWhy::Json => "Json",
        LineWhy::Shape => "Shape",
        LineWhy::Value => "Value",
    }
}

/// The word for why a wire of a script ties nothing.
pub fn wire_why_text(why: WireWhy) -> &'static str
    ensures { result.now ≡ text_of_wire_why why }
{
    match why {
        WireWhy::WireEnd => "WireEnd",
        WireWhy::WireType => "WireType",
        WireWhy::WireTwice => "WireTwice",
    }
}

/// The line for a line of a script, by its number, that means or ties nothing.
pub fn bad_line_line(alloc: Global, line: u32, why: &str) -> Result<String, AllocError>
    ensures { IfOk result (λ s. string_bytes s ≡ line_of_bad_line line why.now) }
{
    Ok(format!(in alloc; "bad line {line} {why}\n")?)
}

/// The line for a line of a script, by its number, that more deliveries and firings would follow than may.
pub fn deliveries_line(alloc: Global, line: u32) -> Result<String, AllocError>
    ensures { IfOk result (λ s. string_bytes s ≡ line_of_deliveries line) }
{
    Ok(format!(in alloc; "limit deliveries 10000 at line {line}\n")?)
}

/// The line of the time at which a run ends, in nanoseconds.
pub fn end_line(alloc: Global, time: u64) -> Result<String, AllocError>
    ensures { IfOk result (λ s. string_bytes s ≡ line_of_end time) }
{
    Ok(format!(in alloc; "end {time}\n")?)
}

/// The line of a session whose recordings agree: how many there are, and how many of them are spelled otherwise.
pub fn agrees_line(alloc: Global, agreed: u32, otherwise: u32) -> Result<String, AllocError>
    ensures { IfOk result (λ s. string_bytes s ≡ line_of_agreement agreed otherwise) }
{
    Ok(format!(in alloc; "agrees {agreed} respelled {otherwise}\n")?)
}

/// The line of the first recording and event of a session that don't agree, by the number of the recording's line: the recording,
/// and the text of the event.
pub fn differs_line(alloc: Global, line: u32, want: &str, got: &str) -> Result<String, AllocError>
    ensures { IfOk result (λ s. string_bytes s ≡ line_of_difference line want.now got.now) }
{
    let mut words = format!(in alloc; "differs at line {line} want {want}")?;
    words.push_str(" got ")?;
    words.push_str(got)?;
    words.push_str("\n")?;
    Ok(words)
}

fn sheet_words(alloc: Global, n: u64, counts: Counts) -> Result<String, AllocError>
    ensures { IfOk result (λ s. string_bytes s ≡ words_of_sheet n counts) }
{
    let types = count_text(alloc, "types", u64::from(counts.types))?;
    let containers = count_text(alloc, "containers", u64::from(counts.containers))?;
    let mut words = format!(in alloc; "demo {n}")?;
    words.push_str(types.as_str())?;
    words.push_str(containers.as_str())?;
    Ok(words)
}

fn run_words(alloc: Global, tally: Tally, end: u64) -> Result<String, AllocError>
    ensures { IfOk result (λ s. string_bytes s ≡ words_of_run tally end) }
{
    let mut words = count_text(alloc, "sent", tally.sent)?;
    let rejects = count_text(alloc, "rejects", tally.rejects)?;
    let last = end_line(alloc, end)?;
    words.push_str(rejects.as_str())?;
    words.push_str(" ")?;
    words.push_str(last.as_str())?;
    Ok(words)
}

/// The line of a demonstration: its number of packets, what its sheet declares, and what is sent and refused until when in its run.
pub fn demo_line(
    alloc: Global,
    n: u64,
    counts: Counts,
    tally: Tally,
    end: u64,
) -> Result<String, AllocError>
    ensures { IfOk result (λ s. string_bytes s ≡ line_of_demo n counts tally end) }
{
    let mut line = sheet_words(alloc, n, counts)?;
    let words = run_words(alloc, tally, end)?;
    line.push_str(words.as_str())?;
    Ok(line)
}
