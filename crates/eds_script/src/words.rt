//! The words of a line.

ghost use Rattle.std.specs.Prelude.{◌≡◌, option_map, IfSome};
ghost use Rattle.eds_base.specs.Answering.{Answers};
ghost use Rattle.eds_script.specs.Seen.{said_of, seen_form};
ghost use Rattle.eds_script.specs.Words.{asked_in as asked_of, form as form_of, framed_in as framed_of, given_in as given_of, last_word as last_of, said as said_in, said_by as said_from, ticks, ties_in as ties_of, two_words as two_of, word_and_rest as first_of};

use crate::LineWhy;

/// What arrives at an end, by the first word of its line.
#[derive(Clone, Copy, PartialEq, Eq)]
pub(crate) enum Verb {
    Cmd,
    Frame,
    Get,
    Set,
    Val,
}

/// What a line says, in words.
#[derive(Clone, Copy)]
pub(crate) enum Saying<'a> {
    /// A required end is tied to a provided one.
    Ties(&'a str, &'a str),
    /// Time goes on by a number.
    Ticks(&'a str),
    /// Something arrives: the end, the member and the rest of the line.
    Arrives(Verb, &'a str, &'a str, &'a str),
}

/// The first word of a text, and the rest behind the space that ends it. None exactly where there is no space.
pub fn word_and_rest(text: &str) -> Option<(&str, &str)>
    ensures { option_map (λ p. (p.0.now, p.1.now)) result ≡ first_of text.now }
{
    let (first, rest) = text.split_once(' ')?;
    Some((first, rest))
}

/// The text as a last word. None exactly where a space stands in it.
pub fn last_word(text: &str) -> Option<&str>
    ensures { option_map (λ w. w.now) result ≡ last_of text.now }
{
    match word_and_rest(text) {
        Some(_) => None,
        None => Some(text),
    }
}

/// The two words of a text, cut by its one space. None exactly where it has fewer spaces or more.
pub fn two_words(text: &str) -> Option<(&str, &str)>
    ensures { option_map (λ p. (p.0.now, p.1.now)) result ≡ two_of text.now }
{
    let (first, rest) = word_and_rest(text)?;
    let second = last_word(rest)?;
    Some((first, second))
}

fn ties_in(rest: &str) -> Option<Saying<'_>>
    ensures { option_map said_of result ≡ ties_of rest.now }
{
    let (lower, upper) = two_words(rest)?;
    Some(Saying::Ties(lower, upper))
}

fn ticks_in(rest: &str) -> Option<Saying<'_>>
    ensures { option_map said_of result ≡ option_map ticks (last_of rest.now) }
{
    let number = last_word(rest)?;
    Some(Saying::Ticks(number))
}

fn asked_in(rest: &str) -> Option<Saying<'_>>
    ensures { option_map said_of result ≡ asked_of rest.now }
{
    let (end, member) = two_words(rest)?;
    Some(Saying::Arrives(Verb::Get, end, member, ""))
}

fn given_in(verb: Verb, rest: &str) -> Option<Saying<'_>>
    ensures { option_map said_of result ≡ given_of verb rest.now }
{
    let (end, behind) = word_and_rest(rest)?;
    let (member, given) = word_and_rest(behind)?;
    Some(Saying::Arrives(verb, end, member, given))
}

fn framed_in(rest: &str) -> Option<Saying<'_>>
    ensures { option_map said_of result ≡ framed_of rest.now }
{
    let (end, behind) = word_and_rest(rest)?;
    let (member, hex) = two_words(behind)?;
    Some(Saying::Arrives(Verb::Frame, end, member, hex))
}

fn said_by<'a>(word: &str, rest: &'a str) -> Option<Saying<'a>>
    ensures { option_map said_of result ≡ said_from word.now rest.now }
{
    if word == "wire" {
        ties_in(rest)
    } else if word == "tick" {
        ticks_in(rest)
    } else if word == "cmd" {
        given_in(Verb::Cmd, rest)
    } else if word == "frame" {
        framed_in(rest)
    } else if word == "get" {
        asked_in(rest)
    } else if word == "set" {
        given_in(Verb::Set, rest)
    } else if word == "val" {
        given_in(Verb::Val, rest)
    } else {
        None
    }
}

#[tactic(auto, unfolding(crate::specs::Words::said))]
fn said(line: &str) -> Option<Saying<'_>>
    ensures { option_map said_of result ≡ said_in line.now }
{
    let (word, rest) = word_and_rest(line)?;
    said_by(word, rest)
}

/// What a line says: Text exactly where it isn't UTF-8, and then Words where its first word is unknown or it has another
/// number of words.
pub(crate) fn form(line: &[u8]) -> Result<Saying<'_>, LineWhy>
    ensures { seen_form result ≡ form_of line.now }
{
    let Ok(text) = std::str::from_utf8(line) else {
        return Err(LineWhy::Text);
    };
    match said(text) {
        Some(said) => Ok(said),
        None => Err(LineWhy::Words),
    }
}
