//! Numbers that lead to numbers: which of them lie on a circle, which lead to one, how long the longest way from the others is,
//! and what is reached.
#![tactic(auto)]

mod backwards;
mod course;
mod graph;
pub mod law;
mod marks;
mod search;
mod stack;

pub use backwards::reversed;
pub use course::Course;
pub use graph::Graph;
pub use marks::reached;
pub use search::courses;
