//! The components of a sheet (CCSDS 876.0-B, components): their plan, and the rules that they keep.
#![tactic(auto)]

mod component;
mod end;
mod end_plan;
mod faces;
mod file;
mod first_value;
mod implementation;
pub mod law;
mod parameter_map;
mod plan;
mod sharing;
mod variable;

pub use plan::read_components;
