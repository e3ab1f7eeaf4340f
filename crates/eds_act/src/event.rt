//! The variables of a component while an event is handled, and what was sent so far.

use eds_base::{CompId, Items};
use eds_plan::{Outstanding, Sends};
use eds_types::Value;

/// What the statements of an event change.
#[derive(Drop)]
pub(crate) struct Event {
    pub(crate) comp: CompId,
    pub(crate) variables: Vec<Value>,
    pub(crate) waiting: Items<Outstanding>,
    pub(crate) out: Sends,
    /// How many statements and turns may still start.
    pub(crate) left: u32,
    /// The numbers of a calculation that wait for an operator.
    pub(crate) numbers: Vec<i128>,
}
