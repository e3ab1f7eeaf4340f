//! The call of `eds` for C: two blocks of octets in, a status and a report out.
#![tactic(auto)]

ghost use Rattle.std.specs.Prelude.{◌≡◌, ◌≢◌, ◌⊎◌, ℕ, List, Some};
ghost use Rattle.eds_io.specs.Files.{Files};
ghost use Rattle.eds_sheet.specs.Firsts.{WhereFirstsAreTold};
ghost use Rattle.eds_cmd.specs.Answer.{Answer, IsValid};
ghost use Rattle.eds_cmd.specs.Command.{CommandWords, command_of};
ghost use Rattle.eds_cmd.specs.Status.{number_of};
ghost use Rattle.eds_c.specs.Blocks.{IsRequest};
ghost use Rattle.eds_c.specs.Calls.{left_by, no_memory, no_request, too_small, unwritten};

mod block;
mod kept;
pub mod law;
mod request;
mod top;

use crate::top::{Answered, call};
use eds_cmd::Status;
use std::alloc::Global;

/// Runs the command that two blocks spell, words and files in memory, and puts its report at the front of the room. Sizes and the
/// length that is answered are in octets. `include/eds.h` says it in the words of C, and what a caller has to see to.
#[unsafe(no_mangle)]
pub extern "C" fn eds_call(alloc: Global, words: &[u8], files: &[u8], room: &mut [u8]) -> Answered
    // Where there is memory, a request is answered as the program answers these words over these files.
    ensures answer { WhereFirstsAreTold (λ firsts. (ws : List (List ℕ)) (fs : Files) → IsRequest words.now files.now ws fs → result.status ≢ no_memory
        → (status : Status) × (report : List ℕ) × Answer firsts ws fs status report
        × (record { status = result.status; length = result.length; room = room.new } ≡ left_by (number_of status) report room.old)) }

    // A valid command over the files is done, where there is memory, and its report is in the room or too long for it.
    ensures complete { WhereFirstsAreTold (λ firsts. (ws : List (List ℕ)) (fs : Files) (c : CommandWords) → IsRequest words.now files.now ws fs → command_of ws ≡ Some c → IsValid firsts fs c
        → (result.status ≡ 0) ⊎ (result.status ≡ too_small) ⊎ (result.status ≡ no_memory)) }

    // No read and no write can fail, so their statuses never come.
    ensures no_fault { (result.status ≢ 4) × (result.status ≢ 5) }

    // Blocks that spell no request are refused for that, where there is memory, and no others are.
    ensures no_request { result.status ≡ no_request → (ws : List (List ℕ)) (fs : Files) → ¬ (IsRequest words.now files.now ws fs) }
    ensures refused { ((ws : List (List ℕ)) (fs : Files) → ¬ (IsRequest words.now files.now ws fs)) → (result.status ≡ no_request) ⊎ (result.status ≡ no_memory) }

    // Nothing is written then, nor where there is no memory.
    ensures nothing { (result.status ≡ no_request) ⊎ (result.status ≡ no_memory)
        → record { status = result.status; length = result.length; room = room.new } ≡ unwritten result.status room.old }
{
    call(alloc, words, files, room)
}
