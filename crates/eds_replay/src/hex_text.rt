//! The hex of recorded frames.

ghost use Rattle.std.specs.Prelude.{◌≡◌, ℕ, List, ◌++◌, IfSome, IfNone, codes};
ghost use Rattle.std.specs.Str.{bytes_eq};
ghost use Rattle.eds_replay.specs.HexText.{HasNoSpace};

/// Whether octets are the same. Texts of events are short, and few octets are compared soonest one by one.
pub(crate) fn are_same(one: &[u8], other: &[u8]) -> bool
    ensures { result ≡ bytes_eq one.now other.now }
{
    let mut left = one;
    let mut right = other;
    while let ([a, one_behind @ ..], [b, other_behind @ ..]) = (left, right) {
        if *a != *b {
            return false;
        }
        left = one_behind;
        right = other_behind;
    }
    left.is_empty() && right.is_empty()
}

/// What stands in front of the last space of a frame's line, and behind it: its head and its hex.
pub(crate) fn parted(line: &[u8]) -> (&[u8], &[u8])
    ensures { (head hex : List ℕ) → HasNoSpace hex → line.now ≡ head ++ codes " " ++ hex → (result.0.now ≡ head) × (result.1.now ≡ hex) }
{
    let mut rest = line;
    while let [before @ .., last] = rest {
        if *last == b' ' {
            return (before, &line[rest.len()..]);
        }
        rest = before;
    }
    (rest, line)
}

/// What stands behind a head and a space, where the text begins with these.
pub(crate) fn hex_behind<'a>(head: &[u8], text: &'a [u8]) -> Option<&'a [u8]>
    ensures some { IfSome result (λ h. text.now ≡ head.now ++ codes " " ++ h.now) }
    ensures none { IfNone result ((h : List ℕ) → text.now ≡ head.now ++ codes " " ++ h → ⊥) }
{
    if text.len() <= head.len() {
        return None;
    }
    let front = &text[..head.len()];
    if !are_same(front, head) {
        return None;
    }
    if text[head.len()] != b' ' {
        return None;
    }
    Some(&text[head.len() + 1..])
}
