//! The variables of a component.

use eds_base::{Text, TypeId};

/// A variable's name, type, and whether it is read-only.
#[derive(Drop)]
pub struct VariableHead {
    pub name: Text,
    pub id: TypeId,
    pub read_only: bool,
}
