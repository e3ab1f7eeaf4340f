//! Names: what a sheet declares, and what a reference finds.
#![tactic(auto)]

mod around;
mod declared;
mod depths;
pub mod law;
mod name_list;
mod owned;
mod repeat;
mod room;
mod space;
mod standing;

pub use declared::{Declared, Item};
pub use name_list::NameList;
pub use space::Space;
