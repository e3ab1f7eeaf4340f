//! State machines.

use crate::{Action, Guard, Op, Transitions};
use eds_base::{Items, Text};

/// A state, with what is done when it is entered and left.
#[derive(Drop)]
pub struct State {
    pub name: Text,
    pub at_entry: Option<Action>,
    pub at_exit: Option<Action>,
}

/// What a transition waits for.
#[derive(Clone, Copy, PartialEq, Eq)]
pub enum Trigger {
    Start,
    /// A command, by its end and member.
    Command(u16, u16),
    /// A parameter, by its end and member, and what is asked of it.
    Param(u16, u16, Op),
    /// Nanoseconds after the state is entered.
    Timer(u64),
}

/// A transition between two states.
#[derive(Drop)]
pub struct Transition {
    pub from: u16,
    pub to: u16,
    pub event: Trigger,
    /// The transaction that the event has to answer, by its number in the component.
    pub transaction: Option<u32>,
    pub guard: Option<Guard>,
    pub action: Option<Action>,
}

/// A state machine.
#[derive(Drop)]
pub struct Machine {
    pub name: Text,
    pub states: Items<State>,
    pub entry: u16,
    pub transitions: Transitions,
}
