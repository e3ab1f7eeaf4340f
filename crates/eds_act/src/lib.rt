//! Activities of components, run over a plan.
#![tactic(auto)]

mod action;
mod activity;
mod arguments;
mod check;
mod ending;
mod event;
mod guard;
pub mod law;
mod math;
mod operand;
mod run;
mod send;
mod store;
mod target;
mod turn;
mod work;

pub use action::run_action;
pub use activity::run_activity;
pub use ending::ActEnd;
pub use guard::holds;
pub use send::waits;
