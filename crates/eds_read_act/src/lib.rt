//! The activities and state machines of components read out of elements (CCSDS 876.0-B, activities and state machines): what they are
//! as plan data, and the rules that they keep.
//!
//! One component is read so:
//!
//! 1. [`transaction_texts`] gives the names of its transactions, out of its element.
//! 2. [`Component::of`] takes what its elements may name: its ends, the heads of its variables and activities, and these names. A
//!    [`Scope`] puts the tree and the table of types beside them, with `arguments: None`; a [`NamedTable`] is made of the table once
//!    for all components.
//! 3. [`least_activity_break`], over the elements of its activities in the order of their heads, answers the least break of
//!    BadReference, TypeMismatch and CallCycle there; [`least_machine_break`], over the elements of its state machines, that of
//!    BadReference, TypeMismatch, BadMachine and BadTimer.
//! 4. [`read_activities`] and [`read_machines`] give the plan data, over the same elements. They are total: where a rule is broken,
//!    something else stands in the place of what is not there.
#![tactic(auto)]

mod action;
mod activity;
mod activity_sort;
mod bad_reference;
mod call_cycle;
mod carrying;
mod component;
mod condition;
mod entry_names;
mod event;
mod fields;
mod given;
mod inside;
pub mod law;
mod machine;
mod machine_plan;
mod naming;
mod operand;
mod scope;
mod sending;
mod state;
mod statement;
mod transaction;
mod type_mismatch;
mod variable;
mod walk;

pub use activity::{least_activity_break, read_activities};
pub use component::{Component, Head};
pub use entry_names::NamedTable;
pub use fields::Fields;
pub use machine::least_machine_break;
pub use machine_plan::read_machines;
pub use scope::Scope;
pub use transaction::transaction_texts;
pub use variable::VariableHead;
