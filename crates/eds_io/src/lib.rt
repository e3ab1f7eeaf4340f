//! Where sheets are read from, and where the report goes.
#![tactic(auto)]

mod calls;
mod calm;
mod files;
mod host_shelf;
mod host_sink;
mod mem_shelf;
mod mem_sink;
mod piece;
mod shelf;
mod sink;
mod tally;
mod whole;

pub use calm::{CalmShelf, CalmSink};
pub use files::{NamedFile, NamedFiles, Numbers, have_own_names};
pub use host_shelf::HostShelf;
pub use host_sink::HostSink;
pub use mem_shelf::MemShelf;
pub use mem_sink::MemSink;
pub use piece::{PieceEnd, read_piece};
pub use shelf::{Got, Shelf};
pub use sink::{Sink, Wrote};
pub use whole::{ReadEnd, WriteFault, read_whole, write_whole};

#[cfg(test)]
mod tests;
