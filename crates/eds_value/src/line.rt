//! The text of a line, put together from its end.

ghost use Rattle.std.specs.Prelude.{◌+◌, ◌-◌, ◌≡◌, ◌<◌, ◌≤◌, ◌++◌, ◌∷◌, [], codes, IfOk, OnErr, OnOk, drop, length};
ghost use Rattle.std.specs.Fmt.{signed_decimal};
ghost use Rattle.json.specs.Print.{quoted};
ghost use Rattle.serde_json.specs.Data.{boolean, number};
ghost use Rattle.serde_json.specs.Find.{of_integer};
ghost use Rattle.serde_json.specs.Written.{comma_if, compact_text};

use crate::quoted::{escaped, is_plain};
use eds_base::{Memory, Text};
use std::alloc::{AllocError, Global};
use std::marker::Model;
use std::str;

/// The octets that a number of 64 bits has at most.
const NUMBER_OCTETS: usize = 20;

/// The octets of a block, which are copied at once.
const BLOCK: usize = 16;

/// The blocks that end with the words of truth values.
static WORDS: [[u8; BLOCK]; 2] = [*b"           false", *b"            true"];

/// The octets that a room has at least.
const LEAST_ROOM: usize = 1024;

/// Puts octets into a room so that they end at a place, and gives where they begin.
#[inline(always)]
#[tactic(auto, using(std::proofs::lemmas::Slice::overwrites))]
fn put_before(room: &mut [u8], end: usize, octets: &[u8]) -> usize
    requires free { length octets.now ≤ end }
    requires within { end ≤ length room.old }
    ensures start { result + length octets.now ≡ end }
    ensures size { length room.new ≡ length room.old }
    ensures put { drop result room.new ≡ octets.now ++ drop end room.old }
{
    let start = end - octets.len();
    room[start..end].copy_from_slice(octets);
    start
}

/// Puts a number into a room so that it ends at a place, and gives where it begins.
#[inline(always)]
fn put_digits(room: &mut [u8], end: usize, number: i64) -> usize
    requires free { NUMBER_OCTETS ≤ end }
    requires within { end ≤ length room.old }
    ensures start { result ≤ end }
    ensures few { end ≤ result + NUMBER_OCTETS }
    ensures size { length room.new ≡ length room.old }
    ensures put { drop result room.new ≡ signed_decimal number ++ drop end room.old }
{
    let start = itoa::write_digits(number.unsigned_abs(), room, end);
    // a sign is put before every number, and counts before those below 0: so no branch hangs on whether a number is one
    room[start - 1] = b'-';
    start - usize::from(number < 0)
}

/// Puts octets between two quotation marks into a room so that they end at a place, and gives where they begin.
#[inline(always)]
fn put_marked(room: &mut [u8], end: usize, octets: &[u8]) -> usize
    requires free { length octets.now + 2 ≤ end }
    requires within { end ≤ length room.old }
    ensures start { result ≤ end }
    ensures size { length room.new ≡ length room.old }
    ensures put { drop result room.new ≡ 34 ∷ (octets.now ++ 34 ∷ drop end room.old) }
{
    room[end - 1] = b'"';
    let start = put_before(room, end - 1, octets);
    room[start - 1] = b'"';
    start - 1
}

/// Puts the last octets of a block into a room so that they end at a place, and gives where they begin. The block is copied as a
/// whole, so that what stands before them means nothing.
#[inline(always)]
fn put_block(room: &mut [u8], end: usize, block: [u8; BLOCK], size: usize) -> usize
    requires few { size ≤ BLOCK }
    requires free { BLOCK ≤ end }
    requires within { end ≤ length room.old }
    ensures start { result + size ≡ end }
    ensures size { length room.new ≡ length room.old }
    ensures put { drop result room.new ≡ drop (BLOCK - size) block ++ drop end room.old }
{
    put_before(room, end, &block);
    end - size
}

/// Puts the word of a truth value into a room so that it ends at a place, and gives where it begins.
#[inline(always)]
fn put_word(room: &mut [u8], end: usize, truth: bool) -> usize
    requires free { BLOCK ≤ end }
    requires within { end ≤ length room.old }
    ensures start { result ≤ end }
    ensures size { length room.new ≡ length room.old }
    ensures put { drop result room.new ≡ compact_text (boolean truth) ++ drop end room.old }
{
    // chosen by its place, so that no branch hangs on the value
    let place = usize::from(truth);
    put_block(room, end, WORDS[place], 5 - place)
}

/// A room with the same text at its end, and so many octets before it that are free: where the text begins.
#[inline(never)]
fn grow(room: &mut Vec<u8>, start: usize, octets: usize) -> Result<usize, AllocError>
    requires { start ≤ length room.old.items }
    ensures free { IfOk result (λ s. octets ≤ s) }
    ensures within { IfOk result (λ s. s ≤ length room.new.items) }
    ensures same { IfOk result (λ s. drop s room.new.items ≡ drop start room.old.items) }
    ensures kept { OnErr result (room.new.items ≡ room.old.items) }
{
    let more = octets.max(room.len()).max(LEAST_ROOM);
    let mut larger = Vec::new(*room.allocator());
    larger.resize(more, 0u8)?;
    larger.extend_from_slice(room.as_slice())?;
    let text = room.len() - start;
    *room = larger;
    Ok(room.len() - text)
}

/// Where the text at the end of a room begins, with so many octets before it that are free: the room grows where they are fewer.
#[inline(always)]
fn with_free(room: &mut Vec<u8>, start: usize, octets: usize) -> Result<usize, AllocError>
    requires { start ≤ length room.old.items }
    ensures free { IfOk result (λ s. octets ≤ s) }
    ensures within { IfOk result (λ s. s ≤ length room.new.items) }
    ensures same { IfOk result (λ s. drop s room.new.items ≡ drop start room.old.items) }
    ensures kept { OnErr result (room.new.items ≡ room.old.items) }
{
    if octets <= start {
        Ok(start)
    } else {
        grow(room, start, octets)
    }
}

/// A text that is copied as a whole block where it isn't longer, since octets that mean nothing stand before it.
#[derive(Drop)]
pub struct PaddedText {
    text: Text,
    // ends with the text, where that isn't longer
    block: [u8; BLOCK],
}

impl Model for PaddedText {
    ghost use Rattle.std.specs.Prelude.{◌≡◌, ◌≤◌, ◌-◌, ℕ, List, drop, length};

    ghost Value = { List ℕ };

    ghost view = { λ t. t.text };

    ghost invariant = { λ t. length t.text ≤ 16 → drop (16 - length t.text) t.block ≡ t.text };
}

impl PaddedText {
    /// The same text.
    pub fn of(alloc: Global, text: &str) -> Result<PaddedText, Memory>
        ensures { IfOk result (λ t. t ≡ text.now) }
    {
        let octets = text.as_bytes();
        let mut block = [0u8; BLOCK];
        if octets.len() <= BLOCK {
            put_before(&mut block, BLOCK, octets);
        }
        let text = Text::of(alloc, text)?;
        Ok(PaddedText { text, block })
    }
}

/// A text that is put together from its last piece to its first, in a room that serves for many texts. So the digits of a number
/// are written where they stay.
#[derive(Drop)]
pub struct Line {
    // the text stands at the end, and what stands before it means nothing
    room: Vec<u8>,
    // where the text begins
    start: usize,
}

impl Model for Line {
    ghost use Rattle.std.specs.Prelude.{◌≤◌, ℕ, List, IsUtf8, drop, length};

    ghost Value = { List ℕ };

    ghost view = { λ l. drop l.start l.room.items };

    ghost invariant = { λ l. (l.start ≤ length l.room.items) × IsUtf8 (drop l.start l.room.items) };
}

impl Line {
    /// An empty text, which has no room yet.
    pub fn new(alloc: Global) -> Line
        ensures { result ≡ [] }
    {
        Line {
            room: Vec::new(alloc),
            start: 0,
        }
    }

    /// Empties the text, and keeps its room.
    pub fn clear(&mut self)
        ensures { self.new ≡ [] }
    {
        self.start = self.room.len();
    }

    /// The text.
    pub fn as_str(&self) -> &str
        ensures { result.now ≡ self.now }
    {
        // SAFETY: the invariant says that it is UTF-8.
        unsafe { str::from_utf8_unchecked(&self.room[self.start..]) }
    }

    /// Puts a text first.
    #[inline(always)]
    pub fn put_text(&mut self, text: &str) -> Result<(), AllocError>
        ensures { OnOk result (self.new ≡ text.now ++ self.old) }
    {
        let octets = text.as_bytes();
        let end = with_free(&mut self.room, self.start, octets.len())?;
        self.start = put_before(self.room.as_mut_slice(), end, octets);
        Ok(())
    }

    /// Puts a text first that is ready to be copied as a block.
    #[inline(always)]
    pub fn put_padded(&mut self, text: &PaddedText) -> Result<(), AllocError>
        ensures { OnOk result (self.new ≡ text.now ++ self.old) }
    {
        let size = text.text.as_str().len();
        if size > BLOCK {
            return self.put_text(text.text.as_str());
        }
        let end = with_free(&mut self.room, self.start, BLOCK)?;
        self.start = put_block(self.room.as_mut_slice(), end, text.block, size);
        Ok(())
    }

    /// Puts a whole number of 64 bits first.
    #[inline(always)]
    pub fn put_short(&mut self, n: i64) -> Result<(), AllocError>
        ensures { OnOk result (self.new ≡ compact_text (number (of_integer n)) ++ self.old) }
    {
        self.put_decimal(n)
    }

    /// Puts a whole number of 64 bits first, and before it a text.
    #[inline(never)]
    fn put_apart(&mut self, text: &PaddedText, n: i64) -> Result<(), AllocError>
        ensures { OnOk result (self.new ≡ text.now ++ (compact_text (number (of_integer n)) ++ self.old)) }
    {
        self.put_short(n)?;
        self.put_padded(text)
    }

    /// Puts a whole number of 64 bits first, and before it a text: both with one look at the room, where the text is short.
    #[inline(always)]
    pub fn put_named(&mut self, text: &PaddedText, n: i64) -> Result<(), AllocError>
        ensures { OnOk result (self.new ≡ text.now ++ (compact_text (number (of_integer n)) ++ self.old)) }
    {
        let size = text.text.as_str().len();
        let start = self.start;
        if size > BLOCK || start < NUMBER_OCTETS + BLOCK {
            return self.put_apart(text, n);
        }
        let room = self.room.as_mut_slice();
        let end = put_digits(room, start, n);
        self.start = put_block(room, end, text.block, size);
        Ok(())
    }

    /// Puts the digits of a number of 64 bits first.
    #[inline(always)]
    fn put_decimal(&mut self, n: i64) -> Result<(), AllocError>
        ensures { OnOk result (self.new ≡ signed_decimal n ++ self.old) }
    {
        let end = with_free(&mut self.room, self.start, NUMBER_OCTETS)?;
        self.start = put_digits(self.room.as_mut_slice(), end, n);
        Ok(())
    }

    /// Puts a number of more than 64 bits first.
    #[inline(never)]
    fn put_long(&mut self, n: i128) -> Result<(), AllocError>
        ensures { OnOk result (self.new ≡ signed_decimal n ++ self.old) }
    {
        self.put_text(itoa::Buffer::new().format(n))
    }

    /// Puts a whole number first: in 64 bits, where it has no more, which is faster.
    #[inline(always)]
    pub fn put_number(&mut self, n: i128) -> Result<(), AllocError>
        ensures { OnOk result (self.new ≡ compact_text (number (of_integer n)) ++ self.old) }
    {
        match i64::try_from(n) {
            Ok(short) => self.put_decimal(short),
            Err(_) => self.put_long(n),
        }
    }

    /// Puts a truth value first.
    #[inline(always)]
    pub fn put_truth(&mut self, truth: bool) -> Result<(), AllocError>
        ensures { OnOk result (self.new ≡ compact_text (boolean truth) ++ self.old) }
    {
        let end = with_free(&mut self.room, self.start, BLOCK)?;
        self.start = put_word(self.room.as_mut_slice(), end, truth);
        Ok(())
    }

    /// Puts a text first between two quotation marks.
    #[inline(always)]
    fn put_between_quotes(&mut self, text: &str) -> Result<(), AllocError>
        ensures { OnOk result (self.new ≡ codes "\"" ++ (text.now ++ (codes "\"" ++ self.old))) }
    {
        let octets = text.as_bytes();
        let end = with_free(&mut self.room, self.start, octets.len().saturating_add(2))?;
        self.start = put_marked(self.room.as_mut_slice(), end, octets);
        Ok(())
    }

    /// Puts a text first as a string of JSON.
    #[inline(always)]
    pub fn put_quoted(&mut self, alloc: Global, text: &str) -> Result<(), Memory>
        ensures { OnOk result (self.new ≡ quoted text.now ++ self.old) }
    {
        if is_plain(text.as_bytes()) {
            Ok(self.put_between_quotes(text)?)
        } else {
            Ok(self.put_text(escaped(alloc, text)?.as_str())?)
        }
    }

    /// Puts a comma first, where something stands before.
    pub(crate) fn put_comma(&mut self, later: bool) -> Result<(), AllocError>
        ensures { OnOk result (self.new ≡ comma_if later ++ self.old) }
    {
        if later { self.put_text(",") } else { Ok(()) }
    }
}
