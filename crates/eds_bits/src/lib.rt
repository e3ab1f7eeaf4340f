//! Bits of octets, the most significant first: views, readers and writing, and the forms of numbers.
#![tactic(auto)]

mod encodings;
mod forms;
mod int_forms;
pub mod law;
mod octets;
mod reader;
mod window;
mod writer;

pub use forms::{BoolForm, ByteOrder, CheckKind, Encoding, IntForm, TextForm};
pub use int_forms::{Bounds, bounds_of, decode_int, encode_int};
pub use octets::put_octets;
pub use reader::{BitReader, BitView};
pub use writer::put;
