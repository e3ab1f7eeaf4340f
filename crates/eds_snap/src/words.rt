//! The words of a line.

ghost use Rattle.std.specs.Prelude.{◌≡◌, option_map};
ghost use Rattle.eds_snap.specs.Seen.{said_of, seen_form};
ghost use Rattle.eds_snap.specs.Words.{begins_in as begins_of, ends, form as form_of, holds_in as holds_of, said as said_text, said_by as said_from, said_in as said_ended, stands_in as stands_of, ties_in as ties_of, waits_in as waits_of};
ghost use Rattle.eds_script.specs.Words.{last_word as last_of, two_words as two_of, word_and_rest as first_of};

use crate::SnapWhy;
use eds_script::{last_word, two_words, word_and_rest};

/// What a line says, in words.
#[derive(Clone, Copy, Debug)]
pub(crate) enum Saying<'a> {
    /// `snapshot 1`.
    Begins,
    /// The time.
    Ends(&'a str),
    /// A required end is tied to a provided one.
    Ties(&'a str, &'a str),
    /// Where a machine stands: component, machine, state, and the two times.
    Stands(&'a str, &'a str, &'a str, &'a str, &'a str),
    /// What a variable holds: component, variable, JSON.
    Holds(&'a str, &'a str, &'a str),
    /// A transaction under way: end, member, name.
    Waits(&'a str, &'a str, &'a str),
}

fn ties_in(rest: &str) -> Option<Saying<'_>>
    ensures { option_map said_of result ≡ ties_of rest.now }
{
    let (lower, upper) = two_words(rest)?;
    Some(Saying::Ties(lower, upper))
}

fn ends_in(rest: &str) -> Option<Saying<'_>>
    ensures { option_map said_of result ≡ option_map ends (last_of rest.now) }
{
    let time = last_word(rest)?;
    Some(Saying::Ends(time))
}

fn stands_in(rest: &str) -> Option<Saying<'_>>
    ensures { option_map said_of result ≡ stands_of rest.now }
{
    let (component, behind) = word_and_rest(rest)?;
    let (machine, after) = word_and_rest(behind)?;
    let (state, times) = word_and_rest(after)?;
    let (entered, passed) = two_words(times)?;
    Some(Saying::Stands(component, machine, state, entered, passed))
}

fn holds_in(rest: &str) -> Option<Saying<'_>>
    ensures { option_map said_of result ≡ holds_of rest.now }
{
    let (component, behind) = word_and_rest(rest)?;
    let (variable, json) = word_and_rest(behind)?;
    Some(Saying::Holds(component, variable, json))
}

fn waits_in(rest: &str) -> Option<Saying<'_>>
    ensures { option_map said_of result ≡ waits_of rest.now }
{
    let (end, behind) = word_and_rest(rest)?;
    let (member, name) = two_words(behind)?;
    Some(Saying::Waits(end, member, name))
}

fn begins_in(rest: &str) -> Option<Saying<'_>>
    ensures { option_map said_of result ≡ begins_of rest.now }
{
    if rest == "1" {
        Some(Saying::Begins)
    } else {
        None
    }
}

fn said_by<'a>(word: &str, rest: &'a str) -> Option<Saying<'a>>
    ensures { option_map said_of result ≡ said_from word.now rest.now }
{
    if word == "snapshot" {
        begins_in(rest)
    } else if word == "end" {
        ends_in(rest)
    } else if word == "wire" {
        ties_in(rest)
    } else if word == "machine" {
        stands_in(rest)
    } else if word == "var" {
        holds_in(rest)
    } else if word == "wait" {
        waits_in(rest)
    } else {
        None
    }
}

#[tactic(auto, unfolding(crate::specs::Words::said))]
fn said(text: &str) -> Option<Saying<'_>>
    ensures { option_map said_of result ≡ said_text text.now }
{
    let (word, rest) = word_and_rest(text)?;
    said_by(word, rest)
}

fn said_in(ended: bool, text: &str) -> Option<Saying<'_>>
    ensures { option_map said_of result ≡ said_ended ended text.now }
{
    if ended { said(text) } else { None }
}

/// What a line says: Text exactly where it isn't UTF-8, and then Words where no line feed ends it, its first word is unknown
/// or it has another number of words.
pub(crate) fn form(number: u32, text: &[u8], ended: bool) -> Result<Saying<'_>, SnapWhy>
    ensures { seen_form result ≡ form_of (record { number = number; text = text.now; ended = ended }) }
{
    let Ok(text) = std::str::from_utf8(text) else {
        return Err(SnapWhy::Text);
    };
    match said_in(ended, text) {
        Some(said) => Ok(said),
        None => Err(SnapWhy::Words),
    }
}
