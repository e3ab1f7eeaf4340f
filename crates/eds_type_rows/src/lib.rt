//! The rows of the table of types (CCSDS 876.0-B, data types), read out of the elements of a sheet: the forms, ranges, listings and
//! sizes of scalar types, arrays and their items, containers with their entries and trailers, and what each type derives from. Beside
//! them stand the references inside interfaces and components, and the types that these use. No rule is judged here: what breaks
//! one is read as something else in its place.
#![tactic(auto)]

pub mod base_graph;
pub mod calibrator;
pub mod check;
mod component_reference;
pub mod element;
pub mod entry;
pub mod face_reference;
pub mod form;
pub mod inner_reference;
mod items;
mod kind;
pub mod lacking_form;
mod list_field;
pub mod listing;
pub mod name_set;
pub mod named_trees;
pub mod numbers;
pub mod part;
pub mod part_sort;
pub mod range;
pub mod scalar_kind;
pub mod seat;
pub mod sort;
pub mod table_row;
mod text_form;
pub mod type_id;
pub mod value_kind;
pub mod value_kinds;
