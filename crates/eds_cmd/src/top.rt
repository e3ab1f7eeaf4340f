//! The top call.

ghost use Rattle.std.specs.Prelude.{◌≡◌, ◌≢◌, ◌≤◌, ◌<◌, ◌++◌, ◌⊎◌, ℕ, List, Some, length, take, true, false, string_bytes, IfOk, IfSome, IsNone, IsSome, IsSomeAnd};
ghost use Rattle.eds_io.specs.Counts.{HasRisen};
ghost use Rattle.eds_io.specs.Files.{Files};
ghost use Rattle.eds_sheet.specs.Firsts.{WhereFirstsAreTold};
ghost use Rattle.eds_cmd.specs.Answer.{Answer, AnswersWords, IsReached, IsValid};
ghost use Rattle.eds_cmd.specs.Command.{CommandWords, ReadsFile, command_of as command_in, demo_of as demo_in, words_of};
ghost use Rattle.eds_cmd.specs.Outcome.{ComesTo, IsFault, IsReport, has_report, is_usage};
ghost use Rattle.eds_cmd.specs.Limits.{sheet_count};
ghost use Rattle.eds_cmd.specs.Reports.{limit_line, read_fault_line as line_of_read_fault, usage_line as line_of_usage};

use crate::command::{Command, command_of, demo_of};
use crate::demonstration::demonstrate;
use crate::ended::Ended;
use crate::law::answer_is_one;
use crate::limits::SHEETS;
use crate::perform::perform;
use crate::report::{octets_of, read_fault_line};
use crate::status::{Status, What};
use crate::stop::Stop;
use crate::words::Words;
use eds_base::{Memory, Octets, Text};
use eds_io::{Shelf, Sink, write_whole};
use std::alloc::Global;

const USAGE: &str = "usage: eds COMMAND ARGUMENTS\n";

const TOO_MANY_SHEETS: &str = "limit files 64\n";

/// The status and the report of a command.
#[derive(Drop)]
pub struct Outcome {
    pub status: Status,
    pub report: Octets,
}

// A read of the file of that name failed.
fn unread(alloc: Global, name: Text) -> Result<Outcome, Memory>
    ensures { IfOk result (λ o. o ≡ record { status = Status.ReadFault name; report = line_of_read_fault name }) }
{
    let line = read_fault_line(alloc, name.as_str())?;
    Ok(Outcome {
        status: Status::ReadFault(name),
        report: octets_of(line),
    })
}

// What a command comes to, with the line of a read fault where a read fails.
fn run_command<S: Shelf>(
    alloc: Global,
    command: &Command<'_>,
    shelf: &mut S,
) -> Result<Outcome, Memory>
    requires { length command.now.sheets.now ≤ SHEETS }
    ensures told { WhereFirstsAreTold (λ firsts. (files : Files) → S.files shelf.old ≡ Some files → IfOk result (λ o.
        ComesTo firsts (λ n. HasRisen (S.faults shelf.old n) (S.faults shelf.new n)) files (words_of command.now) o.status o.report)) }
    ensures cause { IfOk result (λ o. (name : List ℕ) → o.status ≡ Status.ReadFault name
        → HasRisen (S.faults shelf.old name) (S.faults shelf.new name)) }
    ensures file { IfOk result (λ o. (name : List ℕ) → o.status ≡ Status.ReadFault name
        → ReadsFile (words_of command.now) name) }
    ensures line { IfOk result (λ o. (name : List ℕ) → o.status ≡ Status.ReadFault name
        → o.report ≡ line_of_read_fault name) }
    ensures written { IfOk result (λ o. has_report o.status ≡ true) }
    ensures command { IfOk result (λ o. is_usage o.status ≡ false) }
{
    match perform(alloc, command, shelf) {
        Ok(report) => Ok(Outcome {
            status: Status::Done,
            report,
        }),
        Err(Ended::Stopped(Stop { cause, report })) => Ok(Outcome {
            status: cause.status(),
            report,
        }),
        Err(Ended::Unread(name)) => unread(alloc, name),
        Err(Ended::Memory) => Err(Memory),
    }
}

// Writes the report, and gives the status, or that of a write that fails.
fn finish<K: Sink>(sink: &mut K, status: Status, report: &[u8]) -> Status
    ensures whole { (before : List ℕ) → K.written sink.old ≡ Some before → result ≢ Status.WriteFault
        → K.written sink.new ≡ Some (before ++ report.now) }
    ensures kept { result ≢ Status.WriteFault → result ≡ status }
    ensures prefix { (before : List ℕ) → K.written sink.old ≡ Some before → has_report status ≡ true → result ≡ Status.WriteFault
        → (n : ℕ) × (K.written sink.new ≡ Some (before ++ take n report.now)) }
    ensures cause { has_report status ≡ true → result ≡ Status.WriteFault → HasRisen (K.faults sink.old) (K.faults sink.new) }
{
    match write_whole(sink, report) {
        Ok(()) => status,
        Err(_) => Status::WriteFault,
    }
}

// What words come to that are no command over files: a demonstration, or usage.
fn without_files<K: Sink>(alloc: Global, words: &Words, sink: &mut K) -> Status
    ensures status { WhereFirstsAreTold (λ firsts. (files : Files) → ¬ (IsFault result) → (report : List ℕ) × AnswersWords firsts None (demo_in words.now) files result report) }
    ensures answer { WhereFirstsAreTold (λ firsts. (files : Files) (before : List ℕ) → K.written sink.old ≡ Some before → ¬ (IsFault result)
        → (report : List ℕ) × AnswersWords firsts None (demo_in words.now) files result report × (K.written sink.new ≡ Some (before ++ report))) }
    ensures usage { IsNone (demo_in words.now) → ¬ (IsFault result) → result ≡ Status.Usage }
    ensures usage_only { result ≡ Status.Usage → IsNone (demo_in words.now) }
    ensures usage_line { (before : List ℕ) → K.written sink.old ≡ Some before → result ≡ Status.Usage → K.written sink.new ≡ Some (before ++ line_of_usage) }
    ensures demo { IsSome (demo_in words.now) → ¬ (IsFault result) → result ≡ Status.Done }
    ensures read { (name : List ℕ) → result ≢ Status.ReadFault name }
    ensures write_cause { result ≡ Status.WriteFault → HasRisen (K.faults sink.old) (K.faults sink.new) }
    ensures write_prefix { WhereFirstsAreTold (λ firsts. (files : Files) (before : List ℕ) → K.written sink.old ≡ Some before → result ≡ Status.WriteFault
        → (status : Status) × (report : List ℕ) × (n : ℕ) × AnswersWords firsts None (demo_in words.now) files status report × (K.written sink.new ≡ Some (before ++ take n report))) }
    ensures memory_command { result ≡ Status.Memory → IsSome (demo_in words.now) }
    ensures memory_nothing { result ≡ Status.Memory → K.written sink.new ≡ K.written sink.old }
{
    let Some(n) = demo_of(words.as_slice()) else {
        return finish(sink, Status::Usage, USAGE.as_bytes());
    };
    match demonstrate(alloc, n) {
        Ok(report) => finish(sink, Status::Done, report.as_slice()),
        Err(Memory) => Status::Memory,
    }
}

/// Runs a command on the files of a shelf, and writes its report to a sink. What depends on a sheet is said of every function that
/// tells what the variables of sheets start with, and there is one (`answer_is_one`), so none of it is empty.
pub fn eds<S: Shelf, K: Sink>(alloc: Global, words: &Words, shelf: &mut S, sink: &mut K) -> Status
    // Where the shelf tells its files, and nothing fails, the status is that of the answer. Where the sink tells what is
    // written, that is the report of the answer.
    ensures status { WhereFirstsAreTold (λ firsts. (files : Files) → S.files shelf.old ≡ Some files → ¬ (IsFault result)
        → (report : List ℕ) × Answer firsts words.now files result report) }
    ensures answer { WhereFirstsAreTold (λ firsts. (files : Files) (before : List ℕ) → S.files shelf.old ≡ Some files → K.written sink.old ≡ Some before → ¬ (IsFault result)
        → (report : List ℕ) × Answer firsts words.now files result report × (K.written sink.new ≡ Some (before ++ report))) }

    // Over any shelf, usage comes exactly where the words are no command over files and ask for no demonstration, and its line
    // is written.
    ensures usage { IsNone (command_in words.now) → IsNone (demo_in words.now) → ¬ (IsFault result) → result ≡ Status.Usage }
    ensures usage_only { result ≡ Status.Usage → IsNone (command_in words.now) × IsNone (demo_in words.now) }
    ensures usage_line { (before : List ℕ) → K.written sink.old ≡ Some before → result ≡ Status.Usage → K.written sink.new ≡ Some (before ++ line_of_usage) }

    // Over any shelf, a command of more sheet files than there may be passes that limit, and its line is written.
    ensures too_many { IsSomeAnd (command_in words.now) (λ c. sheet_count < length c.sheets) → ¬ (IsFault result) → result ≡ Status.Limit What.Files sheet_count }
    ensures too_many_line { (before : List ℕ) → K.written sink.old ≡ Some before → IsSomeAnd (command_in words.now) (λ c. sheet_count < length c.sheets) → ¬ (IsFault result)
        → K.written sink.new ≡ Some (before ++ limit_line What.Files sheet_count) }

    // A read fault names a file of the command whose count of faults has risen or stands at its end. No case
    // of the answer stands before that file, and its line is written.
    ensures read_cause { (name : List ℕ) → result ≡ Status.ReadFault name → HasRisen (S.faults shelf.old name) (S.faults shelf.new name) }
    ensures read_file { (name : List ℕ) → result ≡ Status.ReadFault name → IsSomeAnd (command_in words.now) (λ c. ReadsFile c name) }
    ensures read_first { WhereFirstsAreTold (λ firsts. (files : Files) (name : List ℕ) → S.files shelf.old ≡ Some files → result ≡ Status.ReadFault name
        → IsSomeAnd (command_in words.now) (λ c. IsReached firsts files c name)) }
    ensures read_line { (before name : List ℕ) → K.written sink.old ≡ Some before → result ≡ Status.ReadFault name
        → K.written sink.new ≡ Some (before ++ line_of_read_fault name) }

    // A write fault comes only where the count of faults has risen or stands at its end. What was written is
    // a front of the report, or of a read fault's line.
    ensures write_cause { result ≡ Status.WriteFault → HasRisen (K.faults sink.old) (K.faults sink.new) }
    ensures write_prefix { WhereFirstsAreTold (λ firsts. (files : Files) (before : List ℕ) → S.files shelf.old ≡ Some files → K.written sink.old ≡ Some before → result ≡ Status.WriteFault
        → (report : List ℕ) × (n : ℕ) × IsReport firsts (λ name. HasRisen (S.faults shelf.old name) (S.faults shelf.new name)) words.now files report
        × (K.written sink.new ≡ Some (before ++ take n report))) }

    // Over any shelf, a demonstration is done, unless memory is refused or a write fails.
    ensures demo { IsNone (command_in words.now) → IsSome (demo_in words.now) → ¬ (IsFault result) → result ≡ Status.Done }

    // Where memory is refused, the words are a command of no more sheet files than there may be, or ask for a demonstration, and
    // nothing is written.
    ensures memory_command { result ≡ Status.Memory → IsSomeAnd (command_in words.now) (λ c. length c.sheets ≤ sheet_count) ⊎ IsSome (demo_in words.now) }
    ensures memory_nothing { result ≡ Status.Memory → K.written sink.new ≡ K.written sink.old }

    // A valid command over told files is done, where no fault is counted.
    ensures complete { WhereFirstsAreTold (λ firsts. (files : Files) (c : CommandWords) → S.files shelf.old ≡ Some files → command_in words.now ≡ Some c → IsValid firsts files c
        → ((name : List ℕ) → ¬ (HasRisen (S.faults shelf.old name) (S.faults shelf.new name))) → ¬ (HasRisen (K.faults sink.old) (K.faults sink.new))
        → (result ≡ Status.Done) ⊎ (result ≡ Status.Memory)) }
{
    let Some(command) = command_of(words.as_slice()) else {
        return without_files(alloc, words, sink);
    };
    if command.sheets.len() > SHEETS {
        let status = Status::Limit(What::Files, SHEETS as u64);
        return finish(sink, status, TOO_MANY_SHEETS.as_bytes());
    }
    // No other answer stands beside that of a valid command.
    answer_is_one();
    match run_command(alloc, &command, shelf) {
        Ok(Outcome { status, report }) => finish(sink, status, report.as_slice()),
        Err(_) => Status::Memory,
    }
}
