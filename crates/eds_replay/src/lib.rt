//! Sessions, which record what was seen to leave a run, and their comparison with what leaves it.
#![tactic(auto)]

mod compare;
mod differs;
mod hex_text;
mod judge;
pub mod law;
mod lines;
mod pair;
mod recordings;
mod session;
mod shown;
mod spelling;

pub use differs::Differs;
pub use judge::Judge;
pub use recordings::Recordings;
pub use session::{Recorded, Session, split_session};
