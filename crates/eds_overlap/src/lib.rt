//! Containers whose values can't be told apart, and the laws that hold where there are none.
#![tactic(auto)]

mod common;
mod find;
mod index;
pub mod law;
mod note;
mod paths;
mod sets;
mod texts;

pub use common::Common;
pub use find::{Overlap, find_overlap};
pub use note::overlap_refusal;
pub use paths::is_same;
pub use sets::{copied_path, solution_sets};
