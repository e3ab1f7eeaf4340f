//! Packets, one after another in octets that come in pieces.

ghost use Rattle.std.specs.Prelude.{◌≡◌, ◌<◌, ◌≤◌, ◌↔◌, [], take, IfOk, IfErr, IsTrue};
ghost use Rattle.eds_types.specs.Overlap.{IsClear};
ghost use Rattle.eds_types.specs.Plain.{Plain};
ghost use Rattle.eds_types.specs.Spelling.{Spells};
ghost use Rattle.eds_unpack.specs.Split.{answer_of, FedTo, refusal_of};
ghost use Rattle.eds_unpack.specs.Splitting.{Splitting, IsFraming, Answer, Takes};

use crate::held::Held;
use crate::program::Program;
use eds_base::{Fail, Fault, Memory, Path, Reason};
use eds_bits::BitView;
use eds_types::Value;
use std::alloc::Global;
use std::marker::Model;

/// What became of a piece of octets.
pub enum Fed {
    /// All of it is held.
    Took,
    /// There is no room for it: none of it is held.
    Full,
}

/// What the octets that are held begin with.
#[derive(Drop)]
pub enum Taken {
    /// A packet, and its size in bits. Its octets are no longer held.
    Packet(Value, u32),
    /// The front of a packet, perhaps: more octets are wanted.
    More,
    /// No packet, whatever octets come.
    Fault(Fault),
}

/// Cuts octets that come in pieces into packets. It holds the octets that aren't taken yet.
#[derive(Drop)]
pub struct Splitter<'a> {
    program: &'a Program<'a>,
    most: u32,
    held: Held,
}

impl<'a> Model for Splitter<'a> {
    ghost use Rattle.std.specs.Prelude.{◌≡◌, ◌*◌, ◌≤◌};
    ghost use Rattle.eds_types.specs.contracts.value.Value as value;
    ghost use Rattle.eds_unpack.specs.Splitting.{Splitting, IsReady};
    ghost use Rattle.std.specs.Coded.{codes};

    ghost Value = { Splitting };

    ghost coded = { Prim.hlevel (codes, value.the_row.coded) };

    ghost view = { λ s. record { framing = record { table = s.program.now.table; id = s.program.now.id; most = s.most }; held = s.held.octets } };

    ghost invariant = { λ s. IsReady (record { table = s.program.now.table; id = s.program.now.id; most = s.most }) s.held.size };
}

impl<'a> Splitter<'a> {
    /// Holds nothing, and has room for twice as many octets as a packet may have. A packet may have 1 to 65,536 octets, no
    /// two containers overlap under the program's type, and no bits at all spell no value of it.
    pub fn new(alloc: Global, program: &'a Program<'a>, most: u32) -> Result<Splitter<'a>, Memory>
        requires least { 1 ≤ most }
        requires most { most ≤ 65536 }
        requires clear { IsClear program.now.table program.now.id }
        requires some_bits { (v : Plain) → Spells program.now.table program.now.id v [] → ⊥ }
        ensures { IfOk result (λ s. s ≡ record { framing = record { table = program.now.table; id = program.now.id; most = most }; held = [] }) }
    {
        program.is_known();
        let held = Held::with_room(alloc, 2 * most as usize)?;
        Ok(Splitter {
            program,
            most,
            held,
        })
    }

    /// Puts a piece behind the octets that are held: Full, and nothing changes, exactly where they would be more than twice
    /// as many as a packet may have.
    pub fn feed(&mut self, piece: &[u8]) -> Fed
        ensures { FedTo self.old piece.now result self.new }
    {
        if !self.held.has_room(piece.len()) {
            return Fed::Full;
        }
        self.held.append(piece);
        Fed::Took
    }

    /// Takes the packet that the octets begin with, which are then held no longer: those of its value, and fewer than 8
    /// bits up to the next whole octet. What is judged are the octets that are held, or as many of them as a packet may
    /// have. Where they are too few bits, more are wanted; but TooLong is the fault of a packet that has as many octets as
    /// it may have. Where no packet is taken, also for want of memory, nothing changes.
    pub fn take(&mut self, alloc: Global) -> Result<Taken, Memory>
        ensures takes { IfOk result (λ x. Takes self.old (answer_of x) self.new) }
        ensures only { (a : Answer) (u : Splitting) → Takes self.old a u → IfOk result (λ x. (answer_of x ≡ a) × (self.new ≡ u)) }
        ensures memory { IfErr result (λ e. self.new ≡ self.old) }
    {
        self.take_next(alloc)
    }

    /// Takes the next packet, where one is there.
    fn take_next(&mut self, alloc: Global) -> Result<Taken, Memory>
        ensures takes { IfOk result (λ x. Takes self.old (answer_of x) self.new) }
        ensures memory { IfErr result (λ e. self.new ≡ self.old) }
        ensures framing { IsFraming self.old.framing }
    {
        let octets = judged(self.held.as_slice(), self.most);
        match self.program.value_of(alloc, BitView::new(octets)) {
            Ok((value, bits)) => {
                self.held.pass(bits.div_ceil(8) as usize);
                Ok(Taken::Packet(value, bits))
            }
            Err(Fail::Named(fault)) => Ok(refusal(fault, octets.len() < self.most as usize)),
            Err(Fail::Memory) => Err(Memory),
        }
    }

    /// The octets that are held.
    pub fn rest(&self) -> &[u8]
        ensures { result.now ≡ self.now.held }
    {
        self.held.as_slice()
    }

    /// Whether none are held.
    pub fn end(&self) -> bool
        ensures { IsTrue result ↔ (self.now.held ≡ []) }
    {
        self.held.is_empty()
    }
}

/// The octets, or the first ones where there are more than a packet may have.
fn judged(octets: &[u8], most: u32) -> &[u8]
    ensures { result.now ≡ take most octets.now }
{
    let most = most as usize;
    if most < octets.len() {
        &octets[..most]
    } else {
        octets
    }
}

/// What a fault at the front of the octets says, where a packet may have more octets than these, or not.
fn refusal(fault: Fault, may_grow: bool) -> Taken
    ensures { answer_of result ≡ refusal_of fault may_grow }
{
    match fault.reason {
        Reason::Short if may_grow => Taken::More,
        Reason::Short => Taken::Fault(Fault {
            reason: Reason::TooLong,
            path: Path::root(),
        }),
        _ => Taken::Fault(fault),
    }
}
