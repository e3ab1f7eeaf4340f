//! Blocks of fields.

ghost use Rattle.std.specs.Prelude.{◌≡◌, ◌<◌, ◌≤◌, ◌+◌, ◌*◌, List, length, IfOk, IfSome};
ghost use Rattle.std.specs.Option.{option_map};
ghost use Rattle.eds_base.specs.Reading.{Gives};
ghost use Rattle.eds_c.specs.Blocks.{cut_at as cut_in, field_at as field_in, file_at as file_in, files_in, size_of as number_of, text_at as text_in, words_in};
ghost use Rattle.eds_c.specs.Seen.{seen_field, seen_pair, seen_text};

use eds_base::{Fail, Items, Memory, Octets, Text};
use eds_cmd::Words;
use eds_io::{NamedFile, NamedFiles};
use std::alloc::Global;

/// Blocks spell no request.
#[derive(Clone, Copy, PartialEq, Eq)]
pub(crate) struct NoRequest;

/// The first field of a block, and what is behind it.
#[derive(Clone, Copy)]
pub(crate) struct Field<'a> {
    pub octets: &'a [u8],
    pub rest: &'a [u8],
}

/// A first field that is a text, and what is behind it.
#[derive(Clone, Copy)]
pub(crate) struct Word<'a> {
    pub text: &'a str,
    pub rest: &'a [u8],
}

/// The name and the octets of a file, and what is behind them.
#[derive(Clone, Copy)]
pub(crate) struct Pair<'a> {
    pub name: &'a str,
    pub octets: &'a [u8],
    pub rest: &'a [u8],
}

// The number that four octets spell, the least first.
fn size_of(a: u8, b: u8, c: u8, d: u8) -> usize
    ensures { result ≡ number_of a b c d }
{
    a as usize + 256 * (b as usize) + 65536 * (c as usize) + 16777216 * (d as usize)
}

// The first so many octets, and what is behind them.
fn cut_at(n: usize, octets: &[u8]) -> Option<Field<'_>>
    ensures is { option_map seen_field result ≡ cut_in n octets.now }
    ensures rest { IfSome result (λ field. length field.rest.now ≤ length octets.now) }
{
    if n <= octets.len() {
        Some(Field {
            octets: &octets[..n],
            rest: &octets[n..],
        })
    } else {
        None
    }
}

fn field_at(block: &[u8]) -> Option<Field<'_>>
    ensures is { option_map seen_field result ≡ field_in block.now }
    ensures shorter { IfSome result (λ field. length field.rest.now < length block.now) }
{
    match block {
        [] => None,
        [_] => None,
        [_, _] => None,
        [_, _, _] => None,
        [a, b, c, d, octets @ ..] => cut_at(size_of(*a, *b, *c, *d), octets),
    }
}

fn text_at(block: &[u8]) -> Option<Word<'_>>
    ensures is { option_map seen_text result ≡ text_in block.now }
    ensures shorter { IfSome result (λ word. length word.rest.now < length block.now) }
{
    let field = field_at(block)?;
    let Ok(text) = std::str::from_utf8(field.octets) else {
        return None;
    };
    Some(Word {
        text,
        rest: field.rest,
    })
}

fn pair_at(block: &[u8]) -> Option<Pair<'_>>
    ensures is { option_map seen_pair result ≡ file_in block.now }
    ensures shorter { IfSome result (λ pair. length pair.rest.now < length block.now) }
{
    let name = text_at(block)?;
    let field = field_at(name.rest)?;
    Some(Pair {
        name: name.text,
        octets: field.octets,
        rest: field.rest,
    })
}

fn file_of(alloc: Global, pair: &Pair<'_>) -> Result<NamedFile, Memory>
    ensures { IfOk result (λ file. file ≡ (seen_pair pair.now).item) }
{
    let name = Text::of(alloc, pair.name)?;
    let octets = Octets::from_vec(pair.octets.to_vec(alloc)?);
    Ok(NamedFile { name, octets })
}

/// The words that a block spells.
pub(crate) fn words_of(alloc: Global, block: &[u8]) -> Result<Words, Fail<NoRequest>>
    ensures { Gives (λ words. words) result (words_in block.now) }
{
    let mut words = Words::new(alloc);
    let mut rest = block;
    while !rest.is_empty() {
        let Some(word) = text_at(rest) else {
            return Err(Fail::Named(NoRequest));
        };
        words.push(word.text)?;
        rest = word.rest;
    }
    Ok(words)
}

/// The files that a block spells.
pub(crate) fn files_of(alloc: Global, block: &[u8]) -> Result<NamedFiles, Fail<NoRequest>>
    ensures { Gives (λ files. files) result (files_in block.now) }
{
    let mut files = Items::new(alloc);
    let mut rest = block;
    while !rest.is_empty() {
        let Some(pair) = pair_at(rest) else {
            return Err(Fail::Named(NoRequest));
        };
        files.push(file_of(alloc, &pair)?)?;
        rest = pair.rest;
    }
    Ok(files)
}
