//! The data types of an electronic data sheet (CCSDS 876.0-B, data types): the rules that they keep, and the table of types of a
//! sheet that keeps them, with the constraints of its containers.
#![tactic(auto)]

mod bad_encoding;
mod bad_enumeration;
mod base_cycle;
mod breaks;
mod constraint_element;
mod constraint_rules;
mod duplicate_entry;
mod emptiness;
mod empty_range;
mod empty_type;
mod error_control;
mod face_rules;
mod faults;
mod fixed_value;
mod hollow;
mod kin;
pub mod law;
mod length_field;
mod limit_chain;
mod limit_family;
mod limit_items;
mod limit_nesting;
mod open_constraint;
mod part_element;
mod part_names;
mod reference;
mod reference_row;
mod rule_list_field;
mod rules;
mod sheet_rows;
mod table;
mod type_cycle;
mod unresolved;
mod used;
mod wrong_kind;

pub use table::{SheetTypes, read_types};
