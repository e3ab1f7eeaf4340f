//! Sessions.

ghost use Rattle.std.specs.Prelude.{◌≡◌, ◌≤◌, ◌++◌, ◌∷◌, [], IfOk, OnOk, if◌then◌else◌};
ghost use Rattle.std.specs.List.{AllByRecursion};
ghost use Rattle.eds_replay.specs.Sessions.{may_own as may_own_of, owner_in, recording_of, recorded_in as recorded_of, recordings, script_in, without_recording};
ghost use Rattle.eds_replay.specs.declared.session.Recorded.{Recorded};

use crate::Recordings;
use crate::lines::{may_own, recorded_in};
use crate::shown::shown;
use eds_base::{Memory, Octets, Text};
use eds_script::{cut, without_return};
use std::alloc::Global;

/// A recording: the line of the script to which it belongs, or 0, its own line, and its text.
#[derive(Drop)]
pub struct Recorded {
    pub owner: u32,
    pub line: u32,
    pub text: Text,
}

/// A script with an empty line in the place of each recording, and the recordings.
#[derive(Drop)]
pub struct Session {
    pub script: Octets,
    pub recorded: Recordings,
}

// Puts a piece last, unless it is a recording.
fn add_piece(script: &mut Vec<u8>, piece: &[u8]) -> Result<(), Memory>
    ensures { OnOk result (script.new.items ≡ script.old.items ++ without_recording piece.now) }
{
    if recorded_in(piece).is_some() {
        return Ok(());
    }
    script.extend_from_slice(piece)?;
    Ok(())
}

// The octets of the script.
#[tactic(auto, unfolding(crate::specs::Sessions::script_in))]
fn script_of(alloc: Global, octets: &[u8]) -> Result<Octets, Memory>
    ensures { IfOk result (λ s. s ≡ script_in octets.now) }
{
    let mut script = Vec::new(alloc);
    let mut rest = octets;
    while let Some((piece, after)) = cut(rest) {
        add_piece(&mut script, piece)?;
        script.push(b'\n')?;
        rest = after;
    }
    add_piece(&mut script, rest)?;
    Ok(Octets::from_vec(script))
}

// Puts what a line records last, if it records anything.
fn add_recorded(
    alloc: Global,
    recorded: &mut Recordings,
    owner: u32,
    number: u32,
    line: &[u8],
) -> Result<(), Memory>
    requires { AllByRecursion (λ (r : Recorded). r.owner ≤ owner) recorded.old }
    ensures more { OnOk result (recorded.new ≡ recorded.old ++ recording_of owner number (recorded_of line.now)) }
    ensures below { OnOk result (AllByRecursion (λ (r : Recorded). r.owner ≤ owner) recorded.new) }
{
    match recorded_in(line) {
        None => Ok(()),
        Some(octets) => {
            let text = shown(alloc, octets)?;
            recorded.push(Recorded {
                owner,
                line: number,
                text,
            })
        }
    }
}

// The line to which recordings belong behind a line of a number, where they belonged to an earlier one in front of it.
fn owner_behind(owner: u32, number: u32, line: &[u8]) -> u32
    requires { owner ≤ number }
    ensures value { result ≡ (if may_own_of line.now then number else owner) }
    ensures later { owner ≤ result }
    ensures within { result ≤ number }
{
    if may_own(line) { number } else { owner }
}

// The recordings.
#[tactic(auto, unfolding(crate::specs::Sessions::recordings))]
fn recordings_of(alloc: Global, octets: &[u8]) -> Result<Recordings, Memory>
    ensures { IfOk result (λ r. r ≡ recordings octets.now) }
{
    let mut recorded = Recordings::new(alloc);
    let mut owner: u32 = 0;
    let mut number: u32 = 1;
    let mut rest = octets;
    while let Some((piece, after)) = cut(rest) {
        let line = without_return(piece);
        add_recorded(alloc, &mut recorded, owner, number, line)?;
        owner = owner_behind(owner, number, line);
        // a session has fewer lines than that
        number = number.checked_add(1).ok_or(Memory)?;
        rest = after;
    }
    add_recorded(alloc, &mut recorded, owner, number, rest)?;
    Ok(recorded)
}

/// The script of a session, and its recordings. A line that begins with `> ` is a recording: the rest of it is its text, in which
/// each octet that begins no whole character is U+FFFD. It belongs to the last line of the script before it that is no wire
/// line, or else to line 0. In the script an empty line stands in its place.
pub fn split_session(alloc: Global, octets: &[u8]) -> Result<Session, Memory>
    ensures script { IfOk result (λ s. s.script ≡ script_in octets.now) }
    ensures recorded { IfOk result (λ s. s.recorded ≡ recordings octets.now) }
{
    let script = script_of(alloc, octets)?;
    let recorded = recordings_of(alloc, octets)?;
    Ok(Session { script, recorded })
}
