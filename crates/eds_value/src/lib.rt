//! Values as JSON, and paths into values as text.
#![tactic(auto)]

mod arguments;
mod entry;
mod fail;
mod json_of_value;
pub mod law;
mod layout;
mod layouts;
mod line;
mod member;
mod path;
mod put;
mod quoted;
mod read;
mod stop;
mod value_of_json;
mod write;

pub use arguments::{FieldList, args_from_json, args_to_json};
pub use fail::ValueFail;
pub use json_of_value::{put_json, to_json};
pub use layout::{Layout, Piece};
pub use layouts::Layouts;
pub use line::{Line, PaddedText};
pub use path::path_text;
pub use read::from_json;
