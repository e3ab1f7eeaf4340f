//! The lines of a script.

ghost use Rattle.std.specs.Prelude.{◌≡◌, ◌<◌, ◌++◌, ◌∷◌, [], IfSome, IfNone, IfOk, OnOk, length, map};
ghost use Rattle.std.specs.List.{position};
ghost use Rattle.eds_script.specs.Lines.{is_feed, is_skipped as skipped, pieces, script_lines as lines_of_script, unskipped, without_return as without_last_return};
ghost use Rattle.eds_script.specs.Seen.{line_of};

use eds_base::Memory;
use std::alloc::Global;

/// A line and its number.
#[derive(Clone, Copy)]
pub(crate) struct ScriptLine<'a> {
    pub(crate) number: u32,
    pub(crate) text: &'a [u8],
}

/// A line without the one carriage return at its end.
pub fn without_return(line: &[u8]) -> &[u8]
    ensures { result.now ≡ without_last_return line.now }
{
    match line.last() {
        None => line,
        Some(c) => {
            if *c == b'\r' {
                &line[..line.len() - 1]
            } else {
                line
            }
        }
    }
}

/// Whether a line is empty or begins with `#`.
pub fn is_skipped(line: &[u8]) -> bool
    ensures { result ≡ skipped line.now }
{
    match line {
        [] => true,
        [c, ..] => *c == b'#',
    }
}

// Where the first line feed stands.
fn feed_at(octets: &[u8]) -> Option<usize>
    ensures { result ≡ position is_feed octets.now }
{
    octets.iter().position(|c| *c == b'\n')
}

/// The first line of a text and what stands behind its line feed, None exactly where there is no line feed.
pub fn cut(octets: &[u8]) -> Option<(&[u8], &[u8])>
    ensures some { IfSome result (λ p. pieces octets.now ≡ p.0.now ∷ pieces p.1.now) }
    ensures shorter { IfSome result (λ p. length p.1.now < length octets.now) }
    ensures none { IfNone result (pieces octets.now ≡ octets.now ∷ []) }
{
    let at = feed_at(octets)?;
    Some((&octets[..at], &octets[at + 1..]))
}

// Puts a line last, unless it is skipped.
fn add<'a>(lines: &mut Vec<ScriptLine<'a>>, number: u32, text: &'a [u8]) -> Result<(), Memory>
    ensures { OnOk result (map line_of lines.new.items ≡ map line_of lines.old.items ++ unskipped ((number, text.now) ∷ [])) }
{
    if is_skipped(text) {
        return Ok(());
    }
    lines.push(ScriptLine { number, text })?;
    Ok(())
}

/// The lines of a script that aren't skipped.
#[tactic(auto, unfolding(crate::specs::Lines::script_lines))]
pub(crate) fn script_lines(alloc: Global, octets: &[u8]) -> Result<Vec<ScriptLine<'_>>, Memory>
    ensures { IfOk result (λ v. map line_of v.items ≡ lines_of_script octets.now) }
{
    let mut lines = Vec::new(alloc);
    let mut number: u32 = 1;
    let mut rest = octets;
    while let Some((line, after)) = cut(rest) {
        add(&mut lines, number, without_return(line))?;
        // a script has fewer lines than that
        number = number.checked_add(1).ok_or(Memory)?;
        rest = after;
    }
    add(&mut lines, number, rest)?;
    Ok(lines)
}
