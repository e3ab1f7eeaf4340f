//! What is still to be started of activities. It stands on lists in memory, so that no call of an activity goes on the
//! machine's stack.

use crate::turn::Turn;
use eds_plan::{Halt, Statement};
use eds_types::Value;

/// What is still to be started of a body: statements in turn, or a turn of an iteration.
#[derive(Drop)]
pub(crate) enum Task<'a> {
    Statements(&'a [Statement]),
    Turn(Turn, &'a [Statement]),
}

/// An activity that is being run: its arguments, and its tasks, the next one last.
#[derive(Drop)]
pub(crate) struct Frame<'a> {
    pub(crate) arguments: Vec<Value>,
    pub(crate) tasks: Vec<Task<'a>>,
}

/// What a started statement or turn comes to: its tasks are next, or those of an activity that it calls, or it halts.
#[derive(Drop)]
pub(crate) enum Step<'a> {
    Goes,
    Calls(Frame<'a>),
    Halts(Halt),
}

/// What running the stores that statements begin with comes to: the statements behind them are next, or one halts.
#[derive(Drop)]
pub(crate) enum Ran<'a> {
    Until(&'a [Statement]),
    Halted(Halt),
}
