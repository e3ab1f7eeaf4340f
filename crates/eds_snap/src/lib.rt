//! Snapshots of runs as texts.
#![tactic(auto)]

mod entry;
pub mod law;
mod names;
mod print;
mod reading;
mod snap;
mod stage;
mod told;
mod why;
mod words;

pub use print::print_snap;
pub use reading::parse_snap;
pub use snap::Snap;
pub use why::{BadSnap, SnapWhy};
