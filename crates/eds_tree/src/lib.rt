//! Element trees.
#![tactic(auto)]

mod attributes;
mod breaks;
mod build;
mod element;
mod groups;
mod halves;
pub mod law;
mod least_with;
mod link;
mod order;
mod read;
mod row;
mod rows;
mod rule_attribute;
mod rule_limit;
mod rule_missing;
mod rule_name;
mod rule_unknown;
mod rule_unsupported;
mod shape;
mod shape_rules;
mod table;
mod texts;
mod tree;

pub use breaks::{ElementRule, refusal};
pub use eds_base::{flag_value, whole_number};
pub use link::{Link, is_passed_over};
pub use read::read_tree;
pub use row::{Attribute, Child, Form, Mark, Row, Shape};
pub use rows::Rows;
pub use shape::is_among;
pub use shape_rules::shape_check;
pub use table::{ELEMENTS, element_rows};
pub use tree::{Node, Tree, Trees};
