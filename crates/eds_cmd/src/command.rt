//! The words of a command.

ghost use Rattle.std.specs.Prelude.{◌≡◌, ◌≤◌, ◌<◌, ◌∷◌, [], IfSome, is_some, length, option_map};
ghost use Rattle.std.specs.Char.{is_ascii_digit};
ghost use Rattle.std.specs.List.{list_all};
ghost use Rattle.eds_base.specs.Numbers.{decimal_value};
ghost use Rattle.eds_cmd.specs.Command.{check_of as check_in, command_of as command_in, demo_of as demo_in, input_most as most_input, is_plain_number as plain_number, job_of as job_in, layout_of as layout_in, packets_of as packets_in, script_job_of as script_job_in, task_type, task_words, verb_of as verb_in, type_name_of as type_name_in, words_of, work_type, work_words};

use crate::limits::{HEX_OCTETS, JSON_OCTETS, PACKETS_OCTETS, SCRIPT_OCTETS};
use eds_base::Text;

/// What is done with an input file by a type.
#[derive(Clone, Copy, PartialEq, Eq)]
pub enum Verb {
    /// Reads the value of a frame.
    Unpack,
    /// Writes the octets of a value.
    Pack,
    /// Reads the values of packets one after another.
    Split,
}

/// What is to be done with an input file.
#[derive(Clone, Copy)]
pub enum Task<'a> {
    /// Something by the type of that name.
    ByType(Verb, &'a str),
    /// It is a script, which is run over the components of the sheet.
    Run,
    /// It is a session, which is compared with the run of its script.
    Replay,
}

impl<'a> Task<'a> {
    /// The name of the type by which it is done, if it is by one.
    pub fn type_name(&self) -> Option<&'a str>
        ensures name { option_map (λ w. w.now) result ≡ task_type (task_words self.now) }
        ensures given { is_some result ≡ is_some (task_type (task_words self.now)) }
    {
        match self {
            Task::ByType(_, type_name) => Some(type_name),
            Task::Run | Task::Replay => None,
        }
    }
}

/// What is to be done with an input file, and the name of the file.
#[derive(Clone, Copy)]
pub struct Job<'a> {
    pub task: Task<'a>,
    pub input: &'a str,
}

/// What is to be done by a sheet.
#[derive(Clone, Copy)]
pub enum Work<'a> {
    /// It is only checked.
    Check,
    /// The layout of the type of that name is told.
    Layout(&'a str),
    /// Something with an input file.
    OnInput(Job<'a>),
}

impl<'a> Work<'a> {
    /// The name of the type by which it is done, if it is by one.
    pub fn type_name(&self) -> Option<&'a str>
        ensures name { option_map (λ w. w.now) result ≡ work_type (work_words self.now) }
        ensures given { is_some result ≡ is_some (work_type (work_words self.now)) }
    {
        match self {
            Work::Check => None,
            Work::Layout(type_name) => Some(type_name),
            Work::OnInput(job) => job.task.type_name(),
        }
    }
}

/// A command: what is to be done by a sheet, and the names of its files.
#[derive(Clone, Copy)]
pub struct Command<'a> {
    pub work: Work<'a>,
    pub sheets: &'a [Text],
}

impl<'a> Command<'a> {
    /// The name of the type, where the command names one.
    pub fn type_name(&self) -> Option<&'a str>
        ensures name { option_map (λ w. w.now) result ≡ type_name_in (words_of self.now) }
        ensures given { is_some result ≡ is_some (type_name_in (words_of self.now)) }
    {
        self.work.type_name()
    }
}

fn verb_of(word: &str) -> Option<Verb>
    ensures { result ≡ verb_in word.now }
{
    if word == "unpack" {
        Some(Verb::Unpack)
    } else if word == "pack" {
        Some(Verb::Pack)
    } else if word == "split" {
        Some(Verb::Split)
    } else {
        None
    }
}

// The names of sheet files, of which there is at least one.
fn check_of(words: &[Text]) -> Option<Command<'_>>
    ensures { option_map words_of result ≡ check_in words.now }
{
    match words {
        [] => None,
        [_, ..] => Some(Command {
            work: Work::Check,
            sheets: words,
        }),
    }
}

// The names of a type and of sheet files, of which there is at least one.
fn layout_of(words: &[Text]) -> Option<Command<'_>>
    ensures { option_map words_of result ≡ layout_in words.now }
{
    match words {
        [] => None,
        [_] => None,
        [type_name, sheets @ ..] => Some(Command {
            work: Work::Layout(type_name.as_str()),
            sheets,
        }),
    }
}

// The names of a type, of an input file, and of sheet files, of which there is at least one.
fn job_of(verb: Verb, words: &[Text]) -> Option<Command<'_>>
    ensures { option_map words_of result ≡ job_in verb words.now }
{
    match words {
        [] => None,
        [_] => None,
        [_, _] => None,
        [type_name, input, sheets @ ..] => Some(Command {
            work: Work::OnInput(Job {
                task: Task::ByType(verb, type_name.as_str()),
                input: input.as_str(),
            }),
            sheets,
        }),
    }
}

// The names of a script or a session, and of sheet files, of which there is at least one.
fn script_job_of<'a>(task: Task<'a>, words: &'a [Text]) -> Option<Command<'a>>
    ensures { option_map words_of result ≡ script_job_in (task_words task.entry) words.now }
{
    match words {
        [] => None,
        [_] => None,
        [script, sheets @ ..] => Some(Command {
            work: Work::OnInput(Job {
                task,
                input: script.as_str(),
            }),
            sheets,
        }),
    }
}

/// The command that words are, None where they are none.
pub fn command_of(words: &[Text]) -> Option<Command<'_>>
    ensures { option_map words_of result ≡ command_in words.now }
{
    match words {
        [] => None,
        [first, rest @ ..] => {
            if first.as_str() == "check" {
                check_of(rest)
            } else if first.as_str() == "layout" {
                layout_of(rest)
            } else if first.as_str() == "run" {
                script_job_of(Task::Run, rest)
            } else if first.as_str() == "replay" {
                script_job_of(Task::Replay, rest)
            } else {
                job_of(verb_of(first.as_str())?, rest)
            }
        }
    }
}

fn are_digits(text: &[u8]) -> bool
    ensures { result ≡ list_all is_ascii_digit text.now }
{
    text.iter().all(|c| c.is_ascii_digit())
}

// Whether a text is digits, the first of them no 0.
fn is_plain_number(text: &[u8]) -> bool
    ensures { result ≡ plain_number text.now }
{
    match text {
        [] => false,
        [first, ..] => *first != b'0' && are_digits(text),
    }
}

fn digit(c: u8) -> u64
    ensures value { result ≡ decimal_value 0 (c ∷ []) }
    ensures few { result < 256 }
{
    u64::from(c.saturating_sub(b'0'))
}

// The number that at most three digits spell.
fn short_value(digits: &[u8]) -> u64
    requires { length digits.now ≤ 3 }
    ensures { result ≡ decimal_value 0 digits.now }
{
    match digits {
        [a, b, c] => 10 * (10 * digit(*a) + digit(*b)) + digit(*c),
        [a, b] => 10 * digit(*a) + digit(*b),
        [a] => digit(*a),
        _ => 0,
    }
}

// The number of packets that a word is: 1 to 500, in digits of which the first is no 0.
fn packets_of(word: &str) -> Option<u64>
    ensures number { result ≡ packets_in word.now }
    ensures some { IfSome result (λ n. 1 ≤ n) }
    ensures few { IfSome result (λ n. n ≤ 500) }
{
    let digits = word.as_bytes();
    if !(is_plain_number(digits) && digits.len() <= 3) {
        return None;
    }
    let number = short_value(digits);
    if 1 <= number && number <= 500 {
        Some(number)
    } else {
        None
    }
}

/// The number of packets of the demonstration that words ask for, None where they ask for none.
pub fn demo_of(words: &[Text]) -> Option<u64>
    ensures number { result ≡ demo_in words.now }
    ensures some { IfSome result (λ n. 1 ≤ n) }
    ensures few { IfSome result (λ n. n ≤ 500) }
{
    match words {
        [first, number] if first.as_str() == "demo" => packets_of(number.as_str()),
        _ => None,
    }
}

/// The most octets of the input file.
pub fn input_most(task: &Task<'_>) -> u64
    ensures most { result ≡ most_input (task_words task.now) }
    ensures few { result ≤ PACKETS_OCTETS }
{
    match task {
        Task::ByType(Verb::Unpack, _) => HEX_OCTETS,
        Task::ByType(Verb::Pack, _) => JSON_OCTETS,
        Task::ByType(Verb::Split, _) => PACKETS_OCTETS,
        Task::Run | Task::Replay => SCRIPT_OCTETS,
    }
}
