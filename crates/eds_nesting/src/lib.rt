//! How types hold one another, by their parts and items: which hold themselves, and how deep each is nested.
#![tactic(auto)]

mod endless;
mod family;
mod holding;

pub use endless::endless_met;
pub use family::{families, family_sizes};
pub use holding::nesting;
