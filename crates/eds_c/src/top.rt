//! The call.

ghost use Rattle.std.specs.Prelude.{◌≡◌, ◌≢◌, ◌⊎◌, ℕ, List, Some, true, false};
ghost use Rattle.eds_io.specs.Files.{Files};
ghost use Rattle.eds_sheet.specs.Firsts.{WhereFirstsAreTold};
ghost use Rattle.eds_cmd.specs.Answer.{Answer, IsValid};
ghost use Rattle.eds_cmd.specs.Command.{CommandWords, command_of};
ghost use Rattle.eds_cmd.specs.Outcome.{IsFault};
ghost use Rattle.eds_cmd.specs.Status.{number_of};
ghost use Rattle.eds_c.specs.Blocks.{IsRequest};
ghost use Rattle.eds_c.specs.Calls.{left_by, no_memory, no_request, too_small, unwritten};

use crate::block::NoRequest;
use crate::kept::Kept;
use crate::request::request_of;
use eds_base::Fail;
use eds_cmd::{Status, answer_is_one, eds};
use eds_io::CalmShelf;
use std::alloc::Global;

const MEMORY: u64 = 6;

const ROOM: u64 = 9;

const REQUEST: u64 = 10;

/// How a call ended, and how many octets its report has.
#[repr(C)]
#[derive(Clone, Copy, PartialEq, Eq)]
pub struct Answered {
    pub status: u64,
    pub length: u64,
}

// Whether a command was ended by want of memory: over files in memory there is no other fault.
fn is_fault(status: &Status) -> bool
    ensures fault { result ≡ true → IsFault status.now }
    ensures calm { result ≡ false → ¬ (IsFault status.now) }
{
    match status {
        Status::ReadFault(_) => true,
        Status::WriteFault => true,
        Status::Memory => true,
        Status::Done => false,
        Status::Sheet(_) => false,
        Status::Usage => false,
        Status::Data(_) => false,
        Status::Limit(_, _) => false,
        Status::NoFile(_) => false,
    }
}

// Puts a report into the room, where there is room for it.
fn hand(status: u8, report: &[u8], room: &mut [u8]) -> Answered
    ensures { record { status = result.status; length = result.length; room = room.new } ≡ left_by status report.now room.old }
{
    let length = report.len();
    if length <= room.len() {
        room[..length].copy_from_slice(report);
        Answered {
            status: u64::from(status),
            length: length as u64,
        }
    } else {
        Answered {
            status: ROOM,
            length: length as u64,
        }
    }
}

// Nothing is written.
fn unanswered(status: u64) -> Answered
    ensures { result ≡ record { status = status; length = 0 } }
{
    Answered { status, length: 0 }
}

/// Runs the command that two blocks spell, words and files, and puts its report into the room.
pub(crate) fn call(alloc: Global, words: &[u8], files: &[u8], room: &mut [u8]) -> Answered
    ensures answer { WhereFirstsAreTold (λ firsts. (ws : List (List ℕ)) (fs : Files) → IsRequest words.now files.now ws fs → result.status ≢ no_memory
        → (status : Status) × (report : List ℕ) × Answer firsts ws fs status report
        × (record { status = result.status; length = result.length; room = room.new } ≡ left_by (number_of status) report room.old)) }
    ensures complete { WhereFirstsAreTold (λ firsts. (ws : List (List ℕ)) (fs : Files) (c : CommandWords) → IsRequest words.now files.now ws fs → command_of ws ≡ Some c → IsValid firsts fs c
        → (result.status ≡ 0) ⊎ (result.status ≡ too_small) ⊎ (result.status ≡ no_memory)) }
    ensures no_fault { (result.status ≢ 4) × (result.status ≢ 5) }
    ensures no_request { result.status ≡ no_request → (ws : List (List ℕ)) (fs : Files) → ¬ (IsRequest words.now files.now ws fs) }
    ensures refused { ((ws : List (List ℕ)) (fs : Files) → ¬ (IsRequest words.now files.now ws fs)) → (result.status ≡ no_request) ⊎ (result.status ≡ no_memory) }
    ensures nothing { (result.status ≡ no_request) ⊎ (result.status ≡ no_memory)
        → record { status = result.status; length = result.length; room = room.new } ≡ unwritten result.status room.old }
{
    let request = match request_of(alloc, words, files) {
        Ok(request) => request,
        Err(Fail::Named(NoRequest)) => return unanswered(REQUEST),
        Err(Fail::Memory) => return unanswered(MEMORY),
    };
    // A valid command has no other answer than that it is done.
    answer_is_one();
    let mut shelf = CalmShelf::new(request.files);
    let mut kept = Kept::new(alloc);
    let status = eds(alloc, &request.words, &mut shelf, &mut kept);
    if is_fault(&status) {
        return unanswered(MEMORY);
    }
    hand(status.number(), kept.written(), room)
}
