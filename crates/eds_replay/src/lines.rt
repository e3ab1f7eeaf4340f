//! The lines of a session.

ghost use Rattle.std.specs.Prelude.{◌≡◌, option_map};
ghost use Rattle.eds_replay.specs.Sessions.{is_wire as wire_form, may_own as may_own_of, recorded_in as recorded_of};

use eds_script::is_skipped;

/// What a line records: the rest of one that begins with `> `.
pub(crate) fn recorded_in(line: &[u8]) -> Option<&[u8]>
    ensures { option_map (λ r. r.now) result ≡ recorded_of line.now }
{
    match line {
        [] => None,
        [_] => None,
        [first, second, rest @ ..] => {
            if *first == b'>' && *second == b' ' {
                Some(rest)
            } else {
                None
            }
        }
    }
}

fn is_wire(line: &[u8]) -> bool
    ensures { result ≡ wire_form line.now }
{
    if line.len() < 5 {
        return false;
    }
    let front = &line[..5];
    front == b"wire ".as_slice()
}

/// Whether recordings may belong to a line: it is one of the script, and no wire line.
pub(crate) fn may_own(line: &[u8]) -> bool
    ensures { result ≡ may_own_of line.now }
{
    !is_skipped(line) && (recorded_in(line).is_none() && !is_wire(line))
}
