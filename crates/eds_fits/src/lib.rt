//! Whether a plan fits its table: what it names is there, and operands fit what takes them (CCSDS 876.0-B, components).
#![tactic(auto)]

mod activity;
mod component;
mod condition;
mod event;
mod kinds;
mod machine;
mod operand;
mod plan;
mod rank;
mod statement;

pub use plan::components_fit;
