//! The types of a sheet and their values: rows, the table of all types, and what it says of each.
#![tactic(auto)]

mod binary;
mod chain;
mod condition;
mod copy;
mod family;
pub mod law;
mod look;
pub mod packs;
mod reason;
mod row;
mod same;
mod seek;
mod sequence;
mod sets;
mod sizes;
mod table;
mod texts;
mod under;
mod value;
mod values;

pub use binary::is_binary;
pub use chain::Chain;
pub use condition::{holds_from, number_from, row_of};
pub use copy::copy_all;
pub use reason::PackReason;
pub use row::{
    Constraint, Constraints, Container, EntryPath, Kind, Listing, Part, Parts, TypeRow, TypeRows,
    Used,
};
pub use seek::{place_of, value_along, value_of};
pub use sequence::Sequence;
pub use sets::{PathSet, Sets};
pub use table::TypeTable;
pub use texts::{number_of_label, stored, text_value};
pub use under::{is_among, is_under};
pub use value::Value;
pub use values::Values;
