//! State machines of components: how a component starts and reacts, and when its timers come.
#![tactic(auto)]

mod due;
mod event;
pub mod law;
mod mapping;
mod reaction;
mod starting;
mod transition;
mod waiting;

pub use due::{next_due, next_moment};
pub use event::Event;
pub use reaction::react;
pub use starting::{fresh_state, start};
