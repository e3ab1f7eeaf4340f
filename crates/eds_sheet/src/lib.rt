//! Sheets: from the files of a sheet to its types, or to the first rule that they break.
#![tactic(auto)]

mod files;
mod judged;
pub mod law;
mod overlaps;
mod sheet;

pub use files::Files;
pub use sheet::{Counts, Sheet, compile};
