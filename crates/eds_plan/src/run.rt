//! Events and states of a run.

use crate::Op;
use eds_base::{CompId, Fault, Items, Octets, Text};
use eds_types::Value;

/// Values in order.
pub type Values = Items<Value>;

/// An end of a component.
#[derive(Clone, Copy, PartialEq, Eq)]
pub struct End {
    pub comp: CompId,
    pub face: u16,
}

/// To a provided end, or to a required one.
#[derive(Clone, Copy, PartialEq, Eq)]
pub enum Way {
    Down,
    Up,
}

/// What goes over an end.
#[derive(Drop)]
pub struct Primitive {
    pub end: End,
    pub member: u16,
    pub way: Way,
    pub op: Op,
    pub arguments: Values,
}

/// Where a machine stands: its state, when it was entered, and the last moment that passed.
#[derive(Clone, Copy, PartialEq, Eq)]
pub struct MachineState {
    pub at: u16,
    pub entered: u64,
    pub passed: u64,
}

/// A transaction that is under way: its end and member, and its number.
#[derive(Clone, Copy, PartialEq, Eq)]
pub struct Outstanding {
    pub face: u16,
    pub member: u16,
    pub name: u32,
}

/// The state of a component.
#[derive(Drop)]
pub struct CompState {
    pub variables: Values,
    pub machines: Items<MachineState>,
    pub outstanding: Items<Outstanding>,
}

/// Why an activity stops.
#[derive(Clone, Copy, PartialEq, Eq)]
pub enum Halt {
    OutOfRange,
    BadArgument,
    Budget,
}

/// What a component sends, or the machine whose activity halted.
#[derive(Drop)]
pub enum Send {
    Prim(Primitive),
    Halted(u16, Halt),
}

/// What a component sends for an event, in order.
pub type Sends = Items<Send>;

/// Two ends that are tied, as a line of a script names them: a required end and the provided one to which it is tied.
#[derive(Drop)]
pub struct Wire {
    /// The number of the line.
    pub line: u32,
    pub lower: Text,
    pub upper: Text,
}

/// Wires in the order of their lines.
pub type Wires = Items<Wire>;

/// What a line of a script has happen.
#[derive(Drop)]
pub enum Line {
    /// Every component starts.
    Start,
    /// Time goes on by so many nanoseconds.
    Tick(u64),
    /// A primitive arrives.
    Prim(Primitive),
    /// A command arrives at an end, by its member, with the octets of its one argument.
    Frame(End, u16, Octets),
}

/// What a run reports, each with its time in nanoseconds.
#[derive(Drop)]
pub enum Out {
    /// A primitive leaves at an end that isn't tied.
    Sent(u64, Primitive),
    /// An activity of a machine halted.
    Halted(u64, CompId, u16, Halt),
    /// A frame for a command, by its end and member, has no reading.
    Reject(u64, End, u16, Fault),
}

/// What a run reports, in order.
pub type Outs = Items<Out>;
