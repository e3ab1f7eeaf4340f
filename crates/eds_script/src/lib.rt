//! Scripts, and the texts of events and states.
#![tactic(auto)]

mod arrival;
mod carries;
mod event;
mod frame;
mod given;
pub mod law;
mod lines;
mod meaning;
mod members;
mod names;
mod number;
mod print;
mod script;
mod state;
mod why;
mod wired;
mod words;

pub use event::print_event;
pub use frame::{Frame, frame_of};
pub use given::{frame_octets, packs};
pub use lines::{cut, is_skipped, without_return};
pub use names::{name_of_member, state_name};
pub use number::number_of;
pub use print::push_octets;
pub use script::{Lines, Script, parse_more, parse_script};
pub use state::{add_variables, add_waits, print_state};
pub use why::{BadLine, LineWhy};
pub use words::{last_word, two_words, word_and_rest};
