//! Packing: the canonical bits of a value, or where and why it has none.
#![tactic(auto)]

mod asked;
mod choice;
mod constraint;
mod defaults;
mod fail;
mod fields;
pub mod law;
mod leaf;
mod least;
mod length;
mod octets;
mod plain;
mod room;
mod seek;
mod size;
mod tally;
mod told;
mod whole;
mod write;

pub use defaults::default_of;
pub use eds_types::PackReason;
pub use fail::PackFail;
pub use octets::pack;
pub use room::pack_into;
pub use whole::{conforms, packed_bits};
