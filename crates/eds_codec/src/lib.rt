//! Truth values, texts and binaries in bits: their spellings, written and read; and checks over bits.
#![tactic(auto)]

mod binary;
mod boolean;
mod check;
mod coding;
mod scan;
mod tables;
mod text;

pub use binary::{Short, read_binary, write_binary};
pub use boolean::{read_bool, write_bool};
pub use check::{check_next, check_sum};
pub use eds_bits::{BoolForm, CheckKind, TextForm};
pub use text::{TextFail, TextFault, read_text, skip_text, write_text};
