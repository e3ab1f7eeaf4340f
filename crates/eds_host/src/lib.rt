//! Runs of components: what they are, what holds of all of them, and hosts, which do them line by line.
#![tactic(auto)]

mod arriving;
mod beginning;
mod component;
mod due;
mod dues;
mod frame;
mod going;
mod handled;
mod host;
pub mod law;
mod line;
mod queue;
mod sending;
mod setting;
mod step;
mod wiring;

pub use handled::Handled;
pub use host::{Host, Phase};
pub use wiring::{HostFail, WireWhy};
