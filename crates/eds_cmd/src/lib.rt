//! The top call: a command, its files, and its report.
#![tactic(auto)]

mod command;
mod demonstration;
mod ended;
mod hex_text;
mod law;
mod layout;
mod limits;
mod pack;
mod packet;
mod packet_line;
mod packet_type;
mod perform;
mod replay;
mod report;
mod run;
mod split;
mod status;
mod stop;
mod tally;
mod target;
mod top;
mod unpack;
mod words;

pub use demonstration::demo;
pub use law::{answer_is_one, replay_is_one, run_is_one};
pub use status::{DataFault, Status, What};
pub use top::eds;
pub use words::Words;
