//! The constraints of containers (CCSDS 876.0-B, constraints): what they are on and what they ask for, over the rows of types that
//! have none yet; the rules on them; and the rows with them.
#![tactic(auto)]

mod asked;
mod asked_rows;
mod breaks;
mod broken;
mod constrain;
pub mod law;
mod left;
mod paths;
mod rows;
mod sets;

pub use asked::{Aim, Asked, AskedOf, Test};
pub use asked_rows::AskedRows;
pub use breaks::{constraint_target, constraint_value};
pub use broken::broken_containers;
pub use constrain::{constrained_rows, constraints_of_all};
pub use left::constraint_empty;
